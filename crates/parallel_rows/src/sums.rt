//! Sums of 0 to which swept rectangles are added.

ghost use Rattle.std.specs.Prelude.{◌≡◌, ◌<◌, ◌≤◌, All, length};
ghost use Rattle.opc_parallel.specs.Conditions.{IsSweepable};
ghost use Rattle.parallel_rows.specs.Scenes.{IsScene};

use crate::scene::{SAMPLES, Scene};
use opc_base::{NoMemory, Steps, Swept, Watch};
use opc_parallel::apply_all;
use std::alloc::Global;
use std::marker::Brand;
use std::sync::ledger::{Blank, Ledger};
use std::thread::Threads;

/// The sums that the list leaves, with so many workers.
pub fn sums_of<R: Threads + Sync, W: Watch + Sync>(
    rt: &R,
    alloc: Global,
    workers: u32,
    scene: &Scene,
    swept: &[Swept],
    watch: &W,
) -> Result<Vec<i64>, NoMemory>
    requires workers { (1 ≤ workers) × (workers ≤ 64) }
    requires scene { IsScene scene.now }
    requires swept { All IsSweepable swept.now }
    requires few { length swept.now ≤ 64 }
{
    counted_sums::<R, W, Brand>(rt, alloc, workers, scene, swept, watch, Blank::new(1))
}

/// The same, at a counter of its own.
fn counted_sums<R: Threads + Sync, W: Watch + Sync, L: Ledger>(
    rt: &R,
    alloc: Global,
    workers: u32,
    scene: &Scene,
    swept: &[Swept],
    watch: &W,
    blank: Blank,
) -> Result<Vec<i64>, NoMemory>
    requires workers { (1 ≤ workers) × (workers ≤ 64) }
    requires scene { IsScene scene.now }
    requires swept { All IsSweepable swept.now }
    requires few { length swept.now ≤ 64 }
    requires name { blank.name ≡ L.name }
    requires parts { blank.parts ≡ L.parts }
    requires some { 0 < blank.parts }
{
    let mut steps: Steps<L> = Steps::new(blank);
    let stride = 2 * SAMPLES.unsigned_abs() as usize * scene.tables.lanes();
    let mut sums = vec![in alloc; 0i64; stride * scene.fragments.count() as usize]?;
    apply_all(
        rt,
        workers,
        SAMPLES,
        &mut sums,
        &scene.index,
        &scene.fragments,
        &scene.tables,
        swept,
        watch,
        &mut steps,
    );
    Ok(sums)
}
