//! Random targets under three random conditions: each printed error is that of the plain pixel sum for the mask.

ghost use Rattle.std.specs.Prelude.{◌≡◌, All, IfOk, length};
ghost use Rattle.process_window.specs.Conditions.{IsCondition};
ghost use Rattle.window_rows.specs.Scenes.{IsScene};

use crate::plain::is_plain;
use crate::scene::{PLAN, Scene};
use geometry_rows::fault::RowFault;
use opc_base::{NoMemory, NoWatch, Rect};
use optics_rows::seeds::Numbers;
use process_window::{Condition, run};
use std::alloc::Global;
use std::test::Fail;

/// A rectangle of random sides from 8 to 24 pixels, at multiples of 8 pixels.
fn random_rect(numbers: &mut Numbers) -> Rect {
    let x0 = 8 * numbers.next(0, 9);
    let y0 = 8 * numbers.next(0, 9);
    Rect {
        x0,
        y0,
        x1: x0.saturating_add(8 * numbers.next(1, 3)),
        y1: y0.saturating_add(8 * numbers.next(1, 3)),
    }
}

/// The first of many random targets that keeps the rules.
fn random_scene(alloc: Global, numbers: &mut Numbers) -> Result<Scene, RowFault>
    ensures { IfOk result IsScene }
{
    for _ in 0..100u8 {
        let mut rects = Vec::new(alloc);
        for _ in 0..5u8 {
            rects.push(random_rect(numbers))?;
        }
        match Scene::new(alloc, &rects, &PLAN) {
            Err(RowFault::BreaksRules) => {}
            other => return other,
        }
    }
    Err(RowFault::BreaksRules)
}

/// A random condition, of two kernels of reach 2 under two transmissions.
fn random_condition(alloc: Global, numbers: &mut Numbers) -> Result<Condition, NoMemory>
    ensures { IfOk result IsCondition }
{
    Ok(Condition {
        kernels: numbers.set(alloc, 2, 2)?,
        threshold: i64::from(numbers.next(1, 20000)) * 400,
        weight: numbers.next(1, 16).unsigned_abs(),
    })
}

/// Three of them.
fn random_conditions(alloc: Global, numbers: &mut Numbers) -> Result<Vec<Condition>, NoMemory>
    ensures count { IfOk result (λ conditions. length conditions.items ≡ 3) }
    ensures each { IfOk result (λ conditions. All IsCondition conditions.items) }
{
    let mut conditions = Vec::new(alloc);
    for _ in 0..3u8 {
        conditions.push(random_condition(alloc, numbers)?)?;
    }
    Ok(conditions)
}

#[test]
fn random_targets_under_random_conditions(rt: HostRuntime) -> Result<(), Fail> {
    let alloc = rt.alloc();
    for seed in [1, 2, 3] {
        let mut numbers = Numbers::new(seed);
        let scene = random_scene(alloc, &mut numbers)?;
        let conditions = random_conditions(alloc, &mut numbers)?;
        let outcome = run(
            &rt,
            alloc,
            &scene.fragments,
            &scene.region,
            &scene.rules,
            &conditions,
            &NoWatch,
        )?;
        let is_plain = is_plain(alloc, &scene, &conditions, &outcome)?;
        assert!(rt; is_plain, "seed {seed}");
    }
    Ok(())
}
