//! The printed image of a corrected mask, and its flaws.
ghost use Rattle.std.specs.Prelude.{◌≡◌, ◌⊎◌, ◌≤ℤ◌, pos, All, Err, IfOk, IfErr};
ghost use Rattle.opc_base.specs.Lanes.{weights_of};
ghost use Rattle.opc_base.specs.Plane.{IsRectWithin};
ghost use Rattle.print_check.specs.Printed.{HasFewPixels};
ghost use Rattle.opc_engine.specs.Checks.{Checks, PreparesCheck};
ghost use Rattle.opc_engine.specs.Printing.{IsChecked, IsRunMask, IsStored};
ghost use Rattle.opc_engine.specs.Ready.{CanOpen};
ghost use Rattle.opc_engine.specs.Wrapped.{HidesNoMemory};

use crate::flaw_list::list_of;
use crate::image::weights_of;
use crate::ready::{Ready, ready_from};
use crate::run::run;
use crate::window::window_of;
use crate::{Answer, EngineFault};
use gds_writer::write_mask;
use opc_base::{NoMemory, Rect, Region, Watch};
use opc_session::Session;
use prefix_tables::Tables;
use print_check::{flaws, print_all};
use std::alloc::Global;
use std::marker::Brand;
use std::sync::ledger::Blank;
use std::thread::Threads;

/// The printed pixels of the window round the target, as a layout, and the list of their flaws, after the run of rounds
/// that `correct` makes; or the first refusal of the files, of which a window with too many pixels is the last.
pub fn check<R: Threads + Sync, W: Watch + Sync>(
    rt: &R,
    alloc: Global,
    layout: &[u8],
    kernels: &[u8],
    rules: &[u8],
    watch: &W,
) -> Result<Answer, EngineFault>
    ensures answer { IfOk result (Checks layout.now kernels.now rules.now) }
    ensures refusal { IfErr result (λ fault. (fault ≡ EngineFault.NoMemory)
        ⊎ PreparesCheck layout.now kernels.now rules.now (Err fault)) }
    ensures memory { IfErr result (λ fault. ¬ HidesNoMemory fault) }
{
    let given = ready_from(alloc, layout, kernels, rules)?;
    let window = window_of(&given)?;
    Ok(checked(rt, alloc, &given, window, watch)?)
}

/// The answer of `check` for what is ready and its window.
fn checked<R: Threads + Sync, W: Watch + Sync>(
    rt: &R,
    alloc: Global,
    given: &Ready,
    window: Rect,
    watch: &W,
) -> Result<Answer, NoMemory>
    requires ready { CanOpen given.now }
    requires window { IsRectWithin 1048128 window }
    requires pixels { HasFewPixels 4194304 window }
    ensures { IfOk result (IsChecked given.now window) }
{
    let tables = Tables::build(alloc, &given.kernels)?;
    let weights = weights_of(alloc, &given.kernels)?;
    let mask = run_mask(rt, alloc, given, &tables, &weights, watch)?;
    let workers = given.rules.run.workers;
    let printed = print_all(
        rt,
        alloc,
        workers,
        &mask,
        &tables,
        &weights,
        given.rules.site.threshold,
        side_of(workers),
        window,
        watch,
    )?;
    answer_of(alloc, given, &printed)
}

/// The mask that a run of rounds leads to.
fn run_mask<R: Threads + Sync, W: Watch + Sync>(
    rt: &R,
    alloc: Global,
    given: &Ready,
    tables: &Tables,
    weights: &[i64],
    watch: &W,
) -> Result<Region, NoMemory>
    requires ready { CanOpen given.now }
    requires tables { tables.now ≡ given.now.kernels }
    requires weights { weights.now ≡ weights_of given.now.kernels }
    ensures { IfOk result (IsRunMask given.now) }
{
    let mut session = Session::open(
        rt,
        alloc,
        &given.fragments,
        &given.region,
        tables,
        weights,
        &given.rules,
    )?;
    run::<R, W, Brand>(rt, alloc, given, &mut session, watch, Blank::new(1))?;
    session.mask()
}

/// The side of a tile for so many workers: the more there are, the more tiles they need to have much the same to do.
fn side_of(workers: u32) -> i32
    ensures low { pos 256 ≤ℤ result }
    ensures high { result ≤ℤ pos 1024 }
{
    match workers {
        1 => 1024,
        2 | 3 => 512,
        _ => 256,
    }
}

/// The layout of the printed pixels, and the list of their flaws.
fn answer_of(alloc: Global, given: &Ready, printed: &Region) -> Result<Answer, NoMemory>
    requires ready { CanOpen given.now }
    requires within { All (IsRectWithin 1048128) printed.now }
    ensures { IfOk result (IsStored given.now printed.now) }
{
    let rules = &given.rules;
    let layout = write_mask(alloc, &given.head, printed, &rules.out, rules.pick.grid)?;
    let found = flaws(alloc, &given.region, printed, rules.mask.width)?;
    let list = list_of(alloc, printed.rects().len(), &found)?;
    Ok(Answer {
        mask: layout,
        table: list.text,
        line: list.last,
    })
}
