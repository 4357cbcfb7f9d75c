//! Printed pixels beside the plain pixel sum.

ghost use Rattle.std.specs.Prelude.{◌≡◌, ◌≤◌, All, IfOk, length};
ghost use Rattle.opc_base.specs.Lanes.{weights_of};
ghost use Rattle.opc_base.specs.Optics.{KeepsBounds};
ghost use Rattle.opc_base.specs.Plane.{IsPixWithin, IsRectWithin};

use geometry_rows::fault::RowFault;
use geometry_rows::shapes::region_of_rects;
use opc_base::{KernelSet, NoMemory, NoWatch, Pix, Rect, Region};
use optics_rows::seeds::Numbers;
use plain_optics::plain_intensity;
use prefix_tables::Tables;
use print_check::print_all;
use std::alloc::Global;
use std::test::Fail;
use std::thread::Threads;

/// How many columns and rows a window has.
const SIDE: i32 = 20;

fn weights_of(alloc: Global, set: &KernelSet) -> Result<Vec<i64>, NoMemory>
    ensures { IfOk result (λ weights. weights.items ≡ weights_of set.now) }
{
    let weights = set
        .kernels
        .as_slice()
        .iter()
        .map(|kernel| i64::from(kernel.weight))
        .collect(alloc)?;
    Ok(weights)
}

/// The region of three rectangles near a place.
fn region_near(alloc: Global, numbers: &mut Numbers, near: Pix) -> Result<Region, RowFault>
    requires { IsPixWithin 1015808 near }
    ensures { IfOk result (All (IsRectWithin 1048000)) }
{
    let rects = [
        numbers.rect(near, 12),
        numbers.rect(near, 12),
        numbers.rect(near, 12),
    ];
    region_of_rects(alloc, &rects)
}

/// What prints of a window whose lower left pixel is a place, under a set of kernels.
fn printed_near<R: Threads + Sync>(
    rt: &R,
    alloc: Global,
    set: &KernelSet,
    mask: &Region,
    near: Pix,
    threshold: i64,
) -> Result<Region, NoMemory>
    requires near { IsPixWithin 1015808 near }
    requires bounds { KeepsBounds set.now }
    requires within { All (IsRectWithin 1048000) mask.now }
    requires few { length mask.now ≤ 65536 }
{
    let tables = Tables::build(alloc, set)?;
    let weights = weights_of(alloc, set)?;
    let window = Rect {
        x0: near.x,
        y0: near.y,
        x1: near.x + SIDE,
        y1: near.y + SIDE,
    };
    print_all(
        rt, alloc, 3, mask, &tables, &weights, threshold, 16, window, &NoWatch,
    )
}

/// How many pixels of the window print otherwise than the plain pixel sum says.
fn wrong_pixels(set: &KernelSet, mask: &Region, printed: &Region, near: Pix, threshold: i64) -> u32
    requires near { IsPixWithin 1015808 near }
    requires bounds { KeepsBounds set.now }
{
    let mut wrong = 0;
    for row in 0..SIDE as u32 {
        wrong = wrong_in_row(
            set,
            mask,
            printed,
            Pix {
                x: near.x,
                y: near.y + row as i32,
            },
            threshold,
        )
        .saturating_add(wrong);
    }
    wrong
}

fn wrong_in_row(set: &KernelSet, mask: &Region, printed: &Region, first: Pix, threshold: i64) -> u32
    requires near { IsPixWithin 1015840 first }
    requires bounds { KeepsBounds set.now }
{
    let mut wrong = 0;
    for column in 0..SIDE as u32 {
        let at = Pix {
            x: first.x + column as i32,
            y: first.y,
        };
        let prints = plain_intensity(set, mask.rects(), at) >= threshold;
        if printed.covers(at) != prints {
            wrong = 1u32.saturating_add(wrong);
        }
    }
    wrong
}

/// The intensity at the middle of the window.
fn middle_of(set: &KernelSet, mask: &Region, near: Pix) -> i64
    requires near { IsPixWithin 1015808 near }
    requires bounds { KeepsBounds set.now }
{
    plain_intensity(
        set,
        mask.rects(),
        Pix {
            x: near.x + 10,
            y: near.y + 10,
        },
    )
}

fn set_from(
    alloc: Global,
    numbers: &mut Numbers,
    reach: u16,
    count: u8,
    is_dark: bool,
) -> Result<KernelSet, NoMemory>
    requires reach { reach ≤ 64 }
    requires some { 1 ≤ count }
    requires few { count ≤ 16 }
    ensures { IfOk result KeepsBounds }
{
    if is_dark {
        numbers.dark_set(alloc, reach, count)
    } else {
        numbers.set(alloc, reach, count)
    }
}

#[test]
fn each_pixel_prints_as_the_plain_sum_says(rt: HostRuntime) -> Result<(), Fail> {
    let mut numbers = Numbers::new(7);
    for (x, y) in [(-3, -5), (1_015_808, 1_015_808), (-1_015_808, 900_000)] {
        let near = Pix { x, y };
        for (reach, count, is_dark) in [(0, 3, false), (2, 5, true), (3, 2, false), (1, 8, false)] {
            let set = set_from(rt.alloc(), &mut numbers, reach, count, is_dark)?;
            let mask = region_near(rt.alloc(), &mut numbers, near)?;
            assert!(rt; mask.rects().len() <= 65_536);
            // The second threshold prints everything, background and all.
            for threshold in [middle_of(&set, &mask, near), 0] {
                let printed = printed_near(&rt, rt.alloc(), &set, &mask, near, threshold)?;
                let wrong = wrong_pixels(&set, &mask, &printed, near, threshold);
                assert_eq!(rt; wrong, 0, "reach {reach} at {near:?}");
            }
        }
    }
    Ok(())
}
