//! Images from tables beside the plain pixel sum, over numbers from a seed.

ghost use Rattle.std.specs.Prelude.{◌≤◌, IfOk};
ghost use Rattle.opc_base.specs.Optics.{KeepsBounds};
ghost use Rattle.opc_base.specs.Plane.{IsPixWithin};

use crate::images::image_from_tables;
use crate::regions::region_of_rects;
use crate::seeds::Numbers;
use opc_base::{KernelSet, NoMemory, Pix};
use plain_optics::plain_intensity;
use std::alloc::Global;
use std::process::Abort;
use std::test::Fail;

/// Places in and round the rectangles, and some that see none of them.
const STEPS: [(i16, i16); 8] = [
    (0, 0),
    (3, -1),
    (-4, 7),
    (-10, -10),
    (21, 2),
    (-900, 40),
    (32_767, 32_767),
    (-32_767, 9),
];

/// The pixel that is so far right of a place and above it.
fn moved(near: Pix, right: i16, up: i16) -> Pix
    requires { IsPixWithin 1015808 near }
    ensures { IsPixWithin 1048576 result }
{
    Pix {
        x: near.x + i32::from(right),
        y: near.y + i32::from(up),
    }
}

/// The images of three rectangles near a place under a set of kernels, from tables and pixel by pixel.
fn check_near<R: Abort>(
    rt: &R,
    alloc: Global,
    numbers: &mut Numbers,
    near: Pix,
    set: &KernelSet,
) -> Result<(), Fail>
    requires near { IsPixWithin 1015808 near }
    requires bounds { KeepsBounds set.now }
{
    let rects = [
        numbers.rect(near, 12),
        numbers.rect(near, 12),
        numbers.rect(near, 12),
    ];
    let region = region_of_rects(alloc, &rects)?;
    for (right, up) in STEPS {
        let at = moved(near, right, up);
        let found = image_from_tables(alloc, set, &region, at)?;
        assert_eq!(rt; found, plain_intensity(set, &rects, at), "at {at:?}");
    }
    Ok(())
}

/// A set of so many kernels, under one transmission or two.
fn set_from(
    alloc: Global,
    numbers: &mut Numbers,
    reach: u16,
    count: u8,
    is_dark: bool,
) -> Result<KernelSet, NoMemory>
    requires reach { reach ≤ 64 }
    requires some { 1 ≤ count }
    requires few { count ≤ 16 }
    ensures { IfOk result KeepsBounds }
{
    if is_dark {
        numbers.dark_set(alloc, reach, count)
    } else {
        numbers.set(alloc, reach, count)
    }
}

/// The images near a place under one to six kernels of reach 2.
fn check_counts<R: Abort>(
    rt: &R,
    alloc: Global,
    numbers: &mut Numbers,
    near: Pix,
) -> Result<(), Fail>
    requires { IsPixWithin 1015808 near }
{
    for count in 1..7 {
        let set = numbers.set(alloc, 2, count)?;
        check_near(rt, alloc, numbers, near, &set)?;
    }
    Ok(())
}

/// The images near a place at the least reach and a greater one, under many kernels, and under one transmission.
fn check_sets<R: Abort>(rt: &R, alloc: Global, numbers: &mut Numbers, near: Pix) -> Result<(), Fail>
    requires { IsPixWithin 1015808 near }
{
    for (reach, count, is_dark) in [(0, 3, false), (5, 2, false), (1, 16, false), (2, 5, true)] {
        let set = set_from(alloc, numbers, reach, count, is_dark)?;
        check_near(rt, alloc, numbers, near, &set)?;
    }
    Ok(())
}

#[test]
fn tables_give_the_plain_sum(rt: HostRuntime) -> Result<(), Fail> {
    let mut numbers = Numbers::new(1);
    for (x, y) in [(0, 0), (1_015_808, 1_015_808), (-1_015_808, 900_000)] {
        check_counts(&rt, rt.alloc(), &mut numbers, Pix { x, y })?;
        check_sets(&rt, rt.alloc(), &mut numbers, Pix { x, y })?;
    }
    Ok(())
}
