//! Flaws beside those that a plain judge finds.

ghost use Rattle.std.specs.Prelude.{All, IfOk};
ghost use Rattle.opc_base.specs.Plane.{IsRectWithin};

use crate::plain_flaws::plain_flaws;
use geometry_rows::fault::RowFault;
use geometry_rows::shapes::region_of_rects;
use opc_base::{Pix, Region};
use optics_rows::seeds::Numbers;
use print_check::flaws;
use std::alloc::Global;
use std::test::Fail;

/// The region of some rectangles near the origin, with sides of up to so many pixels.
fn region_of(alloc: Global, numbers: &mut Numbers, most: u8) -> Result<Region, RowFault>
    ensures { IfOk result (All (IsRectWithin 1048000)) }
{
    let near = Pix { x: 0, y: 0 };
    let most = most.max(1).min(10);
    let rects = [
        numbers.rect(near, most),
        numbers.rect(near, most),
        numbers.rect(near, most),
        numbers.rect(near, most),
        numbers.rect(near, most),
    ];
    region_of_rects(alloc, &rects)
}

#[test]
fn flaws_are_those_that_a_plain_judge_finds(rt: HostRuntime) -> Result<(), Fail> {
    let mut numbers = Numbers::new(3);
    let mut found = 0;
    for width in 0..12u32 {
        let target = region_of(rt.alloc(), &mut numbers, 5)?;
        let printed = region_of(rt.alloc(), &mut numbers, 10)?;
        let list = flaws(rt.alloc(), &target, &printed, width as i32)?;
        let wanted = plain_flaws(rt.alloc(), &target, &printed, width as i32)?;
        assert_eq!(rt; list.as_slice(), wanted.as_slice(), "width {width}");
        found = list.len().max(found);
    }
    assert!(rt; found > 5);
    Ok(())
}
