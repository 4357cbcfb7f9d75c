//! The target corrected by a run of rounds.
ghost use Rattle.std.specs.Prelude.{◌≡◌, ◌<◌, ◌⊎◌, Err, IfOk, IfErr};
ghost use Rattle.opc_engine.specs.Corrections.{Corrects};
ghost use Rattle.opc_engine.specs.Prepare.{Prepares};
ghost use Rattle.opc_engine.specs.Ready.{CanOpen};
ghost use Rattle.opc_engine.specs.Written.{IsCorrection};
ghost use Rattle.opc_engine.specs.Wrapped.{HidesNoMemory};

use crate::image::weights_of;
use crate::ready::{Ready, ready_from};
use crate::run::run;
use crate::written::written;
use crate::{Answer, EngineFault};
use opc_base::{NoMemory, Watch};
use opc_session::Session;
use prefix_tables::Tables;
use std::alloc::Global;
use std::marker::Brand;
use std::sync::ledger::Blank;
use std::thread::Threads;

/// The mask file and the error table after a run of rounds; or the first refusal of the files.
pub fn correct<R: Threads + Sync, W: Watch + Sync>(
    rt: &R,
    alloc: Global,
    layout: &[u8],
    kernels: &[u8],
    rules: &[u8],
    watch: &W,
) -> Result<Answer, EngineFault>
    ensures answer { IfOk result (Corrects layout.now kernels.now rules.now) }
    ensures refusal { IfErr result (λ fault. (fault ≡ EngineFault.NoMemory)
        ⊎ Prepares layout.now kernels.now rules.now (Err fault)) }
    ensures memory { IfErr result (λ fault. ¬ HidesNoMemory fault) }
{
    let given = ready_from(alloc, layout, kernels, rules)?;
    let correction = corrected(rt, alloc, &given, watch)?;
    Ok(correction.answer)
}

/// The answer of `correct`, and how many rounds were made.
#[derive(Drop)]
pub struct Correction {
    pub answer: Answer,
    pub rounds: u32,
}

/// The answer of `correct` for what is ready.
pub fn corrected<R: Threads + Sync, W: Watch + Sync>(
    rt: &R,
    alloc: Global,
    given: &Ready,
    watch: &W,
) -> Result<Correction, NoMemory>
    requires { CanOpen given.now }
    ensures { IfOk result (IsCorrection given.now) }
{
    let tables = Tables::build(alloc, &given.kernels)?;
    let weights = weights_of(alloc, &given.kernels)?;
    let mut session = Session::open(
        rt,
        alloc,
        &given.fragments,
        &given.region,
        &tables,
        &weights,
        &given.rules,
    )?;
    let rounds = run::<R, W, Brand>(rt, alloc, given, &mut session, watch, Blank::new(1))?;
    let answer = written(alloc, given, &session, rounds.lines.as_slice())?;
    Ok(Correction {
        answer,
        rounds: rounds.made,
    })
}
