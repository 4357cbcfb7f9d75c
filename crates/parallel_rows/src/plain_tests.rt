//! Stored sums beside the plain pixel sum.

ghost use Rattle.opc_parallel.specs.Conditions.{IsSweepable};

use crate::plain_sums::all_are_plain;
use crate::scene::Scene;
use crate::sums::sums_of;
use crate::targets::BARS;
use opc_base::{NoWatch, Rect, Swept};
use std::test::Fail;

/// A rectangle of this size that is added to the mask, or taken away from it.
fn swept(x0: i8, y0: i8, width: u8, height: u8, adds: bool) -> Swept
    ensures { IsSweepable result }
{
    let x0 = i32::from(x0);
    let y0 = i32::from(y0);
    Swept {
        rect: Rect {
            x0,
            y0,
            x1: x0 + i32::from(width),
            y1: y0 + i32::from(height),
        },
        sign: if adds { 1 } else { -1 },
    }
}

#[test]
fn sums_are_those_of_the_plain_pixel_sum(rt: HostRuntime) -> Result<(), Fail> {
    let reals = [1, 2, 3, 4, 5, 6, 7, 8, 9];
    let scene = Scene::with_kernel(rt.alloc(), &BARS, &reals, 11).expect(&rt, "a scene");
    let list = [
        swept(-1, 0, 1, 20, true),
        swept(5, 0, 1, 20, false),
        swept(0, 20, 6, 1, true),
    ];
    let sums = sums_of(&rt, rt.alloc(), 2, &scene, &list, &NoWatch)?;
    assert!(rt; all_are_plain(&scene, &list, &sums));
    assert!(rt; sums.iter().any(|sum| *sum != 0));
    Ok(())
}
