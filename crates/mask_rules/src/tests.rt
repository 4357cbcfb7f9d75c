//! Targets that break a rule, worked out by hand.

ghost use Rattle.std.specs.Prelude.{All, OnOk};
ghost use Rattle.opc_base.specs.Canonical.{IsSolid};
ghost use Rattle.opc_base.specs.Cover.{IsPlaced};
ghost use Rattle.opc_base.specs.Plane.{IsRectWithin};

use super::*;
use opc_base::{Broken, MaskRules, NoMemory, Outline, Pix, Place, Placed, Rect, Rects, RuleName};
use rect_union::{UnionFault, union};
use std::alloc::Global;
use std::test::Fail;

/// A rectangle with its lower left corner here, of at least one pixel.
fn rect(x: u8, y: u8, width: u8, height: u8) -> Rect
    ensures solid { IsSolid result }
    ensures within { IsRectWithin 1048000 result }
{
    let left = i32::from(x);
    let low = i32::from(y);
    let right = left + i32::from(width % 64) + 1;
    let high = low + i32::from(height % 64) + 1;
    Rect {
        x0: left,
        y0: low,
        x1: right,
        y1: high,
    }
}

fn add(alloc: Global, outlines: &mut Vec<Outline>, rect: Rect) -> Result<(), NoMemory>
    requires placed { All IsPlaced outlines.old.items }
    requires solid { IsSolid rect }
    requires within { IsRectWithin 1048000 rect }
    ensures { OnOk result (All IsPlaced outlines.new.items) }
{
    let mut rects = Vec::new(alloc);
    rects.push(rect)?;
    let outline = Outline::Path(Rects::from_vec(rects));
    outlines.push(outline)?;
    Ok(())
}

/// The first rule that these shapes break, where runs have at least two pixels.
fn judge(alloc: Global, outlines: Vec<Outline>) -> Result<Option<Broken>, UnionFault>
    requires { All IsPlaced outlines.items }
{
    let region = union(alloc, &Placed::from_outlines(outlines))?;
    let rules = MaskRules {
        width: 2,
        space: 2,
        max_in: 3,
        max_out: 3,
    };
    let found = check_target(alloc, &region, &rules)?;
    Ok(found)
}

fn at(rule: RuleName, x: i32, y: i32) -> Option<Broken> {
    Some(Broken {
        rule,
        at: Place::Pixel(Pix { x, y }),
    })
}

#[test]
fn squares_that_touch_at_a_corner(rt: HostRuntime) -> Result<(), Fail> {
    let alloc = rt.alloc();
    let mut outlines = Vec::new(alloc);
    add(alloc, &mut outlines, rect(0, 0, 9, 9))?;
    add(alloc, &mut outlines, rect(10, 10, 9, 9))?;
    assert_eq!(rt; judge(alloc, outlines)?, at(RuleName::M3, 9, 9));
    Ok(())
}

#[test]
fn a_bar_of_one_pixel(rt: HostRuntime) -> Result<(), Fail> {
    let alloc = rt.alloc();
    let mut outlines = Vec::new(alloc);
    add(alloc, &mut outlines, rect(0, 0, 0, 19))?;
    assert_eq!(rt; judge(alloc, outlines)?, at(RuleName::M1, 0, 0));
    Ok(())
}

#[test]
fn bars_with_a_gap_of_one_pixel(rt: HostRuntime) -> Result<(), Fail> {
    let alloc = rt.alloc();
    let mut outlines = Vec::new(alloc);
    add(alloc, &mut outlines, rect(0, 7, 5, 11))?;
    add(alloc, &mut outlines, rect(7, 0, 5, 19))?;
    assert_eq!(rt; judge(alloc, outlines)?, at(RuleName::M2, 6, 7));
    Ok(())
}

#[test]
fn bars_that_keep_all_rules(rt: HostRuntime) -> Result<(), Fail> {
    let alloc = rt.alloc();
    let mut outlines = Vec::new(alloc);
    add(alloc, &mut outlines, rect(0, 0, 5, 19))?;
    add(alloc, &mut outlines, rect(9, 0, 5, 19))?;
    assert_eq!(rt; judge(alloc, outlines)?, None);
    Ok(())
}
