//! The intensities of a square, worked out by hand.

ghost use Rattle.std.specs.Prelude.{◌≡◌, ◌≤◌, length, IfOk};
ghost use Rattle.opc_base.specs.Optics.{IsEntryWithin, KeepsTwoTransmissions};

use super::*;
use opc_base::{Entries, Entry, Kernel, KernelSet, Kernels, NoMemory, Pix, Rect};
use std::alloc::Global;
use std::test::Fail;

const ALL: Entry = Entry { re: 1, im: 0 };

const NOTHING: Entry = Entry { re: 0, im: 0 };

/// A kernel of reach 1 and weight 1 with these real parts, up to 63, each beside the same imaginary part.
fn set_of(
    alloc: Global,
    reals: &[u8],
    im: u8,
    covered: Entry,
    uncovered: Entry,
) -> Result<KernelSet, NoMemory>
    requires nine { length reals.now ≡ 9 }
    requires covered { IsEntryWithin 8 covered }
    requires uncovered { IsEntryWithin 8 uncovered }
    ensures { IfOk result KeepsTwoTransmissions }
{
    let mut entries = Vec::new(alloc);
    for re in reals {
        entries.push(Entry {
            re: i16::from(*re % 64),
            im: i16::from(im % 64),
        })?;
    }
    let mut kernels = Vec::new(alloc);
    kernels.push(Kernel {
        weight: 1,
        entries: Entries::from_vec(entries),
    })?;
    Ok(KernelSet {
        reach: 1,
        covered,
        uncovered,
        kernels: Kernels::from_vec(kernels),
    })
}

/// The intensity of the square from (0, 0) to (10, 10).
fn at_square(set: &KernelSet, x: i16, y: i16) -> i64
    requires { KeepsTwoTransmissions set.now }
{
    let square = [Rect {
        x0: 0,
        y0: 0,
        x1: 10,
        y1: 10,
    }];
    plain_intensity(
        set,
        &square,
        Pix {
            x: i32::from(x),
            y: i32::from(y),
        },
    )
}

#[test]
fn nine_equal_entries(rt: HostRuntime) -> Result<(), Fail> {
    let set = set_of(rt.alloc(), &[1; 9], 0, ALL, NOTHING)?;
    for (x, y, want) in [(5, 5, 81), (0, 5, 36), (-1, 5, 9), (10, 10, 1)] {
        assert_eq!(rt; at_square(&set, x, y), want, "at {x} {y}");
    }
    Ok(())
}

#[test]
fn nine_different_entries(rt: HostRuntime) -> Result<(), Fail> {
    let set = set_of(rt.alloc(), &[1, 2, 3, 4, 5, 6, 7, 8, 9], 0, ALL, NOTHING)?;
    let rows = [
        (-2, -2, 0),
        (-1, -1, 1),
        (0, 0, 144),
        (5, 5, 2025),
        (9, 9, 784),
        (10, 10, 81),
        (11, 11, 0),
    ];
    for (x, y, want) in rows {
        assert_eq!(rt; at_square(&set, x, y), want, "at {x} {y}");
    }
    Ok(())
}

#[test]
fn light_passes_through_uncovered_pixels(rt: HostRuntime) -> Result<(), Fail> {
    let covered = Entry { re: 2, im: 0 };
    let uncovered = Entry { re: 0, im: 1 };
    let set = set_of(rt.alloc(), &[1; 9], 0, covered, uncovered)?;
    for (x, y, want) in [(0, 0, 89), (5, 5, 324), (0, 5, 153), (-9, -9, 81)] {
        assert_eq!(rt; at_square(&set, x, y), want, "at {x} {y}");
    }
    Ok(())
}

#[test]
fn entries_have_imaginary_parts(rt: HostRuntime) -> Result<(), Fail> {
    let covered = Entry { re: 2, im: 0 };
    let uncovered = Entry { re: 0, im: 1 };
    let set = set_of(rt.alloc(), &[1; 9], 1, covered, uncovered)?;
    assert_eq!(rt; at_square(&set, 0, 0), 178);
    Ok(())
}
