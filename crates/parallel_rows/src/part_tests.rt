//! Parts that run side by side, and sums that are the same for each number of workers.

ghost use Rattle.std.specs.Prelude.{◌+◌, ◌≤◌, All, IfOk, length};
ghost use Rattle.opc_parallel.specs.Conditions.{IsSweepable};

use crate::plain_sums::all_are_plain;
use crate::scene::Scene;
use crate::sums::sums_of;
use crate::targets::{BARS, squares};
use opc_base::{NoMemory, NoWatch, Rect, Swept, Watch};
use std::alloc::Global;
use std::sync::atomic::{AtomicBool, Ordering};
use std::test::Fail;

/// How far squares stand from each other: two tiles.
const STEP: u8 = 32;

/// Sees whether two parts run side by side: each sets its own flag and looks for the other's.
#[derive(Drop)]
struct Meeting {
    entered: [AtomicBool; 2],
    met: [AtomicBool; 2],
}

impl Watch for Meeting {
    fn entered(&self, part: u32) {
        if part == 0 {
            meet(&self.entered[0], &self.entered[1], &self.met[0]);
        } else {
            meet(&self.entered[1], &self.entered[0], &self.met[1]);
        }
    }
}

fn meet(own: &AtomicBool, other: &AtomicBool, met: &AtomicBool) {
    own.store(true, Ordering::SeqCst);
    for _ in 0..500_000_000u32 {
        if other.load(Ordering::SeqCst) {
            met.store(true, Ordering::SeqCst);
            return;
        }
    }
}

/// What the left edge of the square of this number in its row sweeps, moved outward by one pixel.
fn left_of(number: u8) -> Swept
    ensures { IsSweepable result }
{
    let left = i32::from(STEP) * i32::from(number);
    Swept {
        rect: Rect {
            x0: left - 1,
            y0: 0,
            x1: left,
            y1: 10,
        },
        sign: 1,
    }
}

fn sweeps(alloc: Global, count: u8) -> Result<Vec<Swept>, NoMemory>
    requires { count ≤ 64 }
    ensures sweepable { IfOk result (λ list. All IsSweepable list.items) }
    ensures few { IfOk result (λ list. length list.items ≤ 64) }
{
    let mut list = Vec::new(alloc);
    for number in 0..count {
        list.push(left_of(number))?;
    }
    Ok(list)
}

#[test]
fn two_parts_run_side_by_side(rt: HostRuntime) -> Result<(), Fail> {
    let scene = Scene::new(rt.alloc(), &BARS).expect(&rt, "a scene");
    assert_eq!(rt; scene.index.count(), 2);
    let watch = Meeting {
        entered: [AtomicBool::new(false), AtomicBool::new(false)],
        met: [AtomicBool::new(false), AtomicBool::new(false)],
    };
    sums_of(&rt, rt.alloc(), 2, &scene, &[left_of(0)], &watch)?;
    assert!(rt; watch.met[0].load(Ordering::SeqCst));
    assert!(rt; watch.met[1].load(Ordering::SeqCst));
    Ok(())
}

#[test]
fn sums_are_plain_for_each_number_of_workers(rt: HostRuntime) -> Result<(), Fail> {
    for count in [1u8, 2, 5, 13] {
        let target = squares(rt.alloc(), u16::from(count), STEP)?;
        let scene = Scene::new(rt.alloc(), &target).expect(&rt, "a scene");
        assert_eq!(rt; scene.index.count(), u32::from(count));
        let list = sweeps(rt.alloc(), count)?;
        for workers in [1, 2, 7, 64] {
            let sums = sums_of(&rt, rt.alloc(), workers, &scene, &list, &NoWatch)?;
            assert!(rt; all_are_plain(&scene, &list, &sums));

            // The kernel counts 3 covered pixels at each of the three samples within one pixel of the swept column.
            let nonzero = sums.iter().filter(|sum| **sum == 3).count();
            assert_eq!(rt; nonzero, 3 * usize::from(count));
        }
    }
    Ok(())
}
