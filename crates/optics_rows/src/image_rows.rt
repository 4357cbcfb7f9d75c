//! The intensities of a square from tables.

ghost use Rattle.std.specs.Prelude.{◌≡◌, ◌≤◌, All, length};
ghost use Rattle.opc_base.specs.Optics.{IsEntryWithin};

use crate::images::image_from_tables;
use crate::regions::{rect, region_of_rects};
use crate::sets::{ALL, NOTHING, entries_of, set_of};
use opc_base::{Entry, Pix};
use std::alloc::Global;
use std::process::Abort;
use std::test::Fail;

/// What the square from (0, 0) to (10, 10) gives at each pixel under a kernel of these nine entries.
fn check_square<R: Abort>(
    rt: &R,
    alloc: Global,
    entries: &[Entry],
    covered: Entry,
    uncovered: Entry,
    rows: &[(i16, i16, i64)],
) -> Result<(), Fail>
    requires nine { length entries.now ≡ 9 }
    requires entries { All (IsEntryWithin 128) entries.now }
    requires covered { IsEntryWithin 8 covered }
    requires uncovered { IsEntryWithin 8 uncovered }
{
    let square = region_of_rects(alloc, &[rect(0, 0, 10, 10)])?;
    let set = set_of(alloc, 1, entries, covered, uncovered)?;
    for (x, y, wanted) in rows {
        let at = Pix {
            x: i32::from(*x),
            y: i32::from(*y),
        };
        let found = image_from_tables(alloc, &set, &square, at)?;
        assert_eq!(rt; found, *wanted, "at {x} {y}");
    }
    Ok(())
}

#[test]
fn nine_different_entries(rt: HostRuntime) -> Result<(), Fail> {
    let entries = entries_of(rt.alloc(), &[1, 2, 3, 4, 5, 6, 7, 8, 9], 0)?;
    let rows = [
        (-2, -2, 0),
        (-1, -1, 1),
        (0, 0, 144),
        (5, 5, 2025),
        (9, 9, 784),
        (10, 10, 81),
        (11, 11, 0),
    ];
    check_square(&rt, rt.alloc(), &entries, ALL, NOTHING, &rows)
}

#[test]
fn light_passes_through_uncovered_pixels(rt: HostRuntime) -> Result<(), Fail> {
    let covered = Entry { re: 2, im: 0 };
    let uncovered = Entry { re: 0, im: 1 };
    let real = entries_of(rt.alloc(), &[1; 9], 0)?;
    let rows = [(0, 0, 89), (5, 5, 324), (0, 5, 153), (-9, -9, 81)];
    check_square(&rt, rt.alloc(), &real, covered, uncovered, &rows)?;
    let complex = entries_of(rt.alloc(), &[1; 9], 1)?;
    check_square(
        &rt,
        rt.alloc(),
        &complex,
        covered,
        uncovered,
        &[(0, 0, 178)],
    )
}
