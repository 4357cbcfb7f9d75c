//! The target as it prints.
ghost use Rattle.std.specs.Prelude.{◌≡◌, ◌⊎◌, [], Err, IfOk, IfErr};
ghost use Rattle.opc_engine.specs.Corrections.{IsTabled, Simulates};
ghost use Rattle.opc_engine.specs.Prepare.{Prepares};
ghost use Rattle.opc_engine.specs.Ready.{CanOpen, subject_of};
ghost use Rattle.opc_engine.specs.Runs.{at_offsets, unmoved};
ghost use Rattle.opc_engine.specs.Wrapped.{HidesNoMemory};

use crate::image::weights_of;
use crate::ready::{Ready, ready_from};
use crate::table::table_of;
use crate::{Answer, EngineFault};
use opc_base::{Bytes, NoMemory, Watch};
use opc_session::Session;
use prefix_tables::Tables;
use std::alloc::Global;
use std::thread::Threads;

/// The error table of the target, of which no fragment has moved; or the first refusal of the files.
pub fn simulate<R: Threads + Sync, W: Watch + Sync>(
    rt: &R,
    alloc: Global,
    layout: &[u8],
    kernels: &[u8],
    rules: &[u8],
    _watch: &W,
) -> Result<Answer, EngineFault>
    ensures answer { IfOk result (Simulates layout.now kernels.now rules.now) }
    ensures refusal { IfErr result (λ fault. (fault ≡ EngineFault.NoMemory)
        ⊎ Prepares layout.now kernels.now rules.now (Err fault)) }
    ensures memory { IfErr result (λ fault. ¬ HidesNoMemory fault) }
{
    let given = ready_from(alloc, layout, kernels, rules)?;
    Ok(target_table(rt, alloc, &given)?)
}

/// The answer of `simulate` for what is ready.
fn target_table<R: Threads + Sync>(rt: &R, alloc: Global, given: &Ready) -> Result<Answer, NoMemory>
    requires { CanOpen given.now }
    ensures table { IfOk result (λ answer. IsTabled (at_offsets (subject_of given.now) (unmoved (subject_of given.now))) [] answer given.now.region) }
    ensures mask { IfOk result (λ answer. answer.mask ≡ []) }
{
    let tables = Tables::build(alloc, &given.kernels)?;
    let weights = weights_of(alloc, &given.kernels)?;
    let session = Session::open(
        rt,
        alloc,
        &given.fragments,
        &given.region,
        &tables,
        &weights,
        &given.rules,
    )?;
    let rectangles = given.region.rects().len() as u32;
    let table = table_of(alloc, given, &session, &[], rectangles)?;
    Ok(Answer {
        mask: Bytes::from_vec(Vec::new(alloc)),
        table: table.text,
        line: table.last,
    })
}
