//! What is ready for a correction under several conditions, once the files are judged.
ghost use Rattle.std.specs.Prelude.{◌≡◌, ◌⊎◌, Ok, Err, All, IfOk, IfErr};
ghost use Rattle.opc_base.specs.Optics.{KeepsBounds};
ghost use Rattle.opc_engine.specs.PrepareSets.{PreparesSets, SetsGive};
ghost use Rattle.opc_engine.specs.Prepared.{CanCorrect, window_subject_of};
ghost use Rattle.opc_engine.specs.Wrapped.{HidesNoMemory};

use crate::kernels::kernel_set_of;
use crate::ready_target::target_from;
use crate::rules::rules_of;
use crate::{EngineFault, Sets};
use fragment::Fragments;
use gds_records::Head;
use opc_base::{Bytes, Region, Rules};
use std::alloc::Global;

/// The head of the layout, its target, the fragments of the target's edges, the rules, and the kernels of each condition.
#[derive(Drop)]
pub struct Prepared {
    pub head: Head,
    pub region: Region,
    pub fragments: Fragments,
    pub rules: Rules,
    pub sets: Sets,
}

/// What the files give for a correction under several conditions, each with its kernel file; or the first refusal: of the
/// rules, then of the kernel files in their order, then of the layout, of its placement, its number of corners, its
/// target's mask rules and its number of fragments.
pub fn prepare(
    alloc: Global,
    layout: &[u8],
    kernels: &[Bytes],
    rules: &[u8],
) -> Result<Prepared, EngineFault>
    ensures accepted { IfOk result (λ given. PreparesSets layout.now kernels.now rules.now (Ok (window_subject_of given))) }
    ensures ready { IfOk result CanCorrect }
    ensures refusal { IfErr result (λ fault. (fault ≡ EngineFault.NoMemory)
        ⊎ PreparesSets layout.now kernels.now rules.now (Err fault)) }
    ensures memory { IfErr result (λ fault. ¬ HidesNoMemory fault) }
{
    let rules = rules_of(alloc, rules)?;
    let sets = sets_of(alloc, kernels)?;
    let target = target_from(alloc, layout, &rules)?;
    Ok(Prepared {
        head: target.head,
        region: target.region,
        fragments: target.fragments,
        rules,
        sets,
    })
}

/// The kernel sets of the files, or the first refusal in their order.
fn sets_of(alloc: Global, kernels: &[Bytes]) -> Result<Sets, EngineFault>
    ensures sets { IfOk result (λ sets. SetsGive kernels.now (Ok sets)) }
    ensures bounds { IfOk result (All KeepsBounds) }
    ensures refusal { IfErr result (λ fault. (fault ≡ EngineFault.NoMemory) ⊎ SetsGive kernels.now (Err fault)) }
    ensures memory { IfErr result (λ fault. ¬ HidesNoMemory fault) }
{
    let mut sets = Vec::new(alloc);
    for file in kernels {
        sets.push(kernel_set_of(alloc, file.as_slice())?)?;
    }
    Ok(Sets::from_vec(sets))
}
