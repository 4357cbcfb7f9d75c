//! The target corrected with scatter bars beside its long edges.
ghost use Rattle.std.specs.Prelude.{◌≡◌, ◌⊎◌, Err, IfOk, IfErr};
ghost use Rattle.assist_bars.specs.Bars.{AreBarRules};
ghost use Rattle.opc_engine.specs.Assists.{Assists, IsAssisted};
ghost use Rattle.opc_engine.specs.BarReady.{CanAssist, bar_subject_of};
ghost use Rattle.opc_engine.specs.BarStages.{PreparesBars};
ghost use Rattle.opc_engine.specs.Wrapped.{HidesNoMemory};

use crate::bar_prepare::{BarPrepared, prepare_bars};
use crate::bar_run::run_bars;
use crate::bar_written::bars_written;
use crate::image::weights_of;
use crate::{Answer, EngineFault};
use assist_bars::BarRules;
use opc_base::{NoMemory, Watch};
use opc_session::Session;
use prefix_tables::Tables;
use std::alloc::Global;
use std::marker::Brand;
use std::sync::ledger::Blank;
use std::thread::Threads;

/// The mask file and the table after a run of rounds in which scatter bars stand beside the target's long edges, and stay;
/// or the first refusal of the files and of the numbers.
pub fn assist<R: Threads + Sync, W: Watch + Sync>(
    rt: &R,
    alloc: Global,
    layout: &[u8],
    kernels: &[u8],
    rules: &[u8],
    bars: &BarRules,
    watch: &W,
) -> Result<Answer, EngineFault>
    requires { AreBarRules bars.now }
    ensures answer { IfOk result (Assists layout.now kernels.now rules.now bars.now) }
    ensures refusal { IfErr result (λ fault. (fault ≡ EngineFault.NoMemory)
        ⊎ PreparesBars layout.now kernels.now rules.now bars.now (Err fault)) }
    ensures memory { IfErr result (λ fault. ¬ HidesNoMemory fault) }
{
    let given = prepare_bars(alloc, layout, kernels, rules, bars)?;
    Ok(assisted(rt, alloc, &given, watch)?)
}

/// The answer of `assist` for what is ready.
fn assisted<R: Threads + Sync, W: Watch + Sync>(
    rt: &R,
    alloc: Global,
    given: &BarPrepared,
    watch: &W,
) -> Result<Answer, NoMemory>
    requires { CanAssist given.now }
    ensures { IfOk result (IsAssisted (bar_subject_of given.now)) }
{
    let whole = &given.whole;
    let tables = Tables::build(alloc, &whole.kernels)?;
    let weights = weights_of(alloc, &whole.kernels)?;
    let mut session = Session::open(
        rt,
        alloc,
        &whole.fragments,
        &whole.region,
        &tables,
        &weights,
        &whole.rules,
    )?;
    let lines = run_bars::<R, W, Brand>(rt, alloc, given, &mut session, watch, Blank::new(1))?;
    bars_written(
        rt,
        alloc,
        given,
        &session,
        &tables,
        &weights,
        lines.as_slice(),
        watch,
    )
}
