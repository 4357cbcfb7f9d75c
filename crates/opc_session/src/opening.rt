//! The sums of a target, before any fragment has moved.

ghost use Rattle.std.specs.Prelude.{◌≡◌, ◌*◌, ◌<◌, ◌≤◌, [], All, IfOk, OnOk, length, map, unsigned_abs};
ghost use Rattle.opc_base.specs.Lanes.{weights_of};
ghost use Rattle.opc_base.specs.Plane.{IsRectWithin, cover};
ghost use Rattle.opc_parallel.specs.Stored.{stride_of};
ghost use Rattle.opc_session.specs.Fills.{gain};
ghost use Rattle.opc_session.specs.Kept.{setting_of};
ghost use Rattle.opc_session.specs.Stores.{HoldAmplitudes};

use crate::readings::stride;
use crate::scene::Scene;
use crate::stores::{know_tiles, store_all};
use fragment::{Fragments, Near};
use opc_base::{NoMemory, NoWatch, Rect, Region, Rules, Steps, Swept};
use prefix_tables::Tables;
use std::alloc::Global;
use std::marker::Brand;
use std::sync::ledger::{Blank, Ledger};
use std::thread::Threads;
use tiles::TileIndex;

/// How many samples all fragments have.
fn sample_count(scene: &Scene) -> usize
    ensures { result ≡ 2 * unsigned_abs scene.now.rules.site.samples * length scene.now.fragments }
{
    know_tiles(scene);
    2 * scene.rules.site.samples as usize * scene.fragments.count() as usize
}

/// The sums where no pixel is covered: each sample of each fragment has the ground.
fn uncovered_sums(alloc: Global, scene: &Scene) -> Result<Vec<i64>, NoMemory>
    ensures size { IfOk result (λ sums. length sums.items ≡ stride_of (setting_of scene.now) * length scene.now.fragments) }
    ensures holds { IfOk result (λ sums. HoldAmplitudes (setting_of scene.now) (cover []) sums.items) }
{
    know_tiles(scene);
    let size = stride(scene) * scene.fragments.count() as usize;
    let mut sums = Vec::with_capacity(alloc, size)?;
    for _sample in 0..sample_count(scene) {
        sums.extend_from_slice(scene.tables.ground())?;
    }
    Ok(sums)
}

/// What each rectangle adds to a mask that has none of its pixels.
fn gains_of(alloc: Global, rects: &[Rect]) -> Result<Vec<Swept>, NoMemory>
    ensures { IfOk result (λ gains. gains.items ≡ map gain rects.now) }
{
    let mut gains = Vec::with_capacity(alloc, rects.len())?;
    for rect in rects {
        gains.push(Swept {
            rect: *rect,
            sign: 1,
        })?;
    }
    Ok(gains)
}

/// Adds the rectangles of a region to the sums where no pixel is covered, in parts that run side by side. The steps are
/// counted for no one.
fn add_region<R: Threads + Sync, L: Ledger>(
    rt: &R,
    alloc: Global,
    scene: &Scene,
    sums: &mut [i64],
    region: &Region,
    blank: Blank,
) -> Result<(), NoMemory>
    requires placed { All (IsRectWithin 1048000) region.now }
    requires few { length region.now ≤ 262144 }
    requires size { length sums.old ≡ stride_of (setting_of scene.now) * length scene.now.fragments }
    requires holds { HoldAmplitudes (setting_of scene.now) (cover []) sums.old }
    requires name { blank.name ≡ L.name }
    requires parts { blank.parts ≡ L.parts }
    requires some { 0 < blank.parts }
    ensures holds { OnOk result (HoldAmplitudes (setting_of scene.now) (cover region.now) sums.new) }
{
    let gains = gains_of(alloc, region.rects())?;
    let mut steps: Steps<L> = Steps::new(blank);
    store_all(rt, scene, sums, &gains, &NoWatch, &mut steps);
    Ok(())
}

/// The sums of all fragments of a target, before any has moved.
pub fn first_sums<R: Threads + Sync>(
    rt: &R,
    alloc: Global,
    scene: &Scene,
    region: &Region,
) -> Result<Vec<i64>, NoMemory>
    requires placed { All (IsRectWithin 1048000) region.now }
    requires few { length region.now ≤ 262144 }
    ensures size { IfOk result (λ sums. length sums.items ≡ stride_of (setting_of scene.now) * length scene.now.fragments) }
    ensures holds { IfOk result (λ sums. HoldAmplitudes (setting_of scene.now) (cover region.now) sums.items) }
{
    let mut sums = uncovered_sums(alloc, scene)?;
    add_region::<R, Brand>(rt, alloc, scene, &mut sums, region, Blank::new(1))?;
    Ok(sums)
}

/// What a session works on.
pub fn scene_of<'a>(
    alloc: Global,
    fragments: &'a Fragments,
    tables: &'a Tables,
    weights: &'a [i64],
    rules: &'a Rules,
) -> Result<Scene<'a>, NoMemory>
    requires weights { weights.now ≡ weights_of tables.now }
    ensures fragments { IfOk result (λ scene. scene.fragments ≡ fragments.now) }
    ensures set { IfOk result (λ scene. scene.set ≡ tables.now) }
    ensures rules { IfOk result (λ scene. scene.rules ≡ rules.now) }
{
    let near = Near::build(alloc, fragments)?;
    let halo = tables.reach() + rules.site.samples;
    let index = TileIndex::build(alloc, fragments, rules.run.tile, halo)?;
    Ok(Scene {
        fragments,
        tables,
        weights,
        rules,
        near,
        index,
    })
}
