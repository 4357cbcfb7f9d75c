//! Bars of random layouts.
ghost use Rattle.std.specs.Prelude.{All, IfOk};
ghost use Rattle.opc_base.specs.Plane.{IsRectWithin};

use crate::scene::find_bars;
use assist_bars::BarRules;
use geometry_rows::dice::Dice;
use geometry_rows::fault::RowFault;
use geometry_rows::shapes::{Shapes, rect};
use opc_base::{MaskRules, Region};
use std::alloc::Global;

/// Twelve rectangles with sides of up to 32 pixels in a square of 128 pixels.
fn random_region(alloc: Global, dice: &mut Dice) -> Result<Region, RowFault>
    ensures { IfOk result (All (IsRectWithin 1048000)) }
{
    let mut shapes = Shapes::new(alloc);
    for _ in 0..12u8 {
        let x0 = dice.roll(96) as i32;
        let y0 = dice.roll(96) as i32;
        let x1 = x0.wrapping_add(dice.roll(32) as i32).wrapping_add(1);
        let y1 = y0.wrapping_add(dice.roll(32) as i32).wrapping_add(1);
        shapes.add_rect(alloc, rect(x0, y0, x1, y1))?;
    }
    shapes.union(alloc)
}

#[test]
fn bars_are_those_of_every_pair(rt: HostRuntime) -> Result<(), RowFault> {
    let alloc = rt.alloc();
    let rules = MaskRules {
        width: 1,
        space: 1,
        max_in: 8,
        max_out: 16,
    };
    let mut dice = Dice::new(19);
    let mut judged = 0usize;
    for _ in 0..40u8 {
        let numbers = BarRules {
            gap: dice.roll(6) as i32 + 1,
            width: dice.roll(4) as i32 + 1,
            end: dice.roll(3) as i32,
            min: 8,
        };
        let region = random_region(alloc, &mut dice)?;
        match find_bars(alloc, &region, &rules, &numbers) {
            Ok(found) => {
                assert_eq!(rt; found.bars.as_slice(), found.plain.as_slice());
                judged = judged.wrapping_add(found.bars.len());
            }
            Err(RowFault::BreaksRules) => {}
            Err(fault) => return Err(fault),
        }
    }
    assert!(rt; judged > 100);
    Ok(())
}
