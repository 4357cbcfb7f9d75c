//! What is ready for a correction, once the files are judged.
ghost use Rattle.std.specs.Prelude.{◌≡◌, ◌≤◌, ◌⊎◌, Ok, Err, IfOk, IfErr, length};
ghost use Rattle.opc_engine.specs.Prepare.{Prepares, PreparesBy};
ghost use Rattle.opc_engine.specs.Ready.{CanOpen, subject_of};
ghost use Rattle.opc_engine.specs.Wrapped.{HidesNoMemory};

use crate::EngineFault;
use crate::kernels::kernel_set_of;
use crate::ready_target::target_from;
use crate::rules::rules_of;
use fragment::Fragments;
use gds_records::Head;
use opc_base::{KernelSet, Region, Rules};
use std::alloc::Global;

/// The head of the layout, its target, the fragments of the target's edges, the kernels and the rules.
#[derive(Drop)]
pub struct Ready {
    pub head: Head,
    pub region: Region,
    pub fragments: Fragments,
    pub kernels: KernelSet,
    pub rules: Rules,
}

/// What the files give for a correction, or the first refusal: of the rules, then of the kernels, then of the layout, of
/// its placement, its number of corners, its target's mask rules and its number of fragments.
pub fn ready_from(
    alloc: Global,
    layout: &[u8],
    kernels: &[u8],
    rules: &[u8],
) -> Result<Ready, EngineFault>
    ensures accepted { IfOk result (λ given. Prepares layout.now kernels.now rules.now (Ok (subject_of given))) }
    ensures ready { IfOk result CanOpen }
    ensures refusal { IfErr result (λ fault. (fault ≡ EngineFault.NoMemory)
        ⊎ Prepares layout.now kernels.now rules.now (Err fault)) }
    ensures memory { IfErr result (λ fault. ¬ HidesNoMemory fault) }
{
    let rules = rules_of(alloc, rules)?;
    let given = ready_by(alloc, layout, kernels, rules)?;
    Ok(given)
}

/// What kernels and a layout give for these rules, or the first refusal.
pub fn ready_by(
    alloc: Global,
    layout: &[u8],
    kernels: &[u8],
    rules: Rules,
) -> Result<Ready, EngineFault>
    ensures accepted { IfOk result (λ given. PreparesBy layout.now kernels.now rules (Ok (subject_of given))) }
    ensures rules { IfOk result (λ given. given.rules ≡ rules) }
    ensures ready { IfOk result CanOpen }
    ensures few { IfOk result (λ given. length given.region ≤ 65536) }
    ensures refusal { IfErr result (λ fault. (fault ≡ EngineFault.NoMemory)
        ⊎ PreparesBy layout.now kernels.now rules (Err fault)) }
    ensures memory { IfErr result (λ fault. ¬ HidesNoMemory fault) }
{
    let kernels = kernel_set_of(alloc, kernels)?;
    let target = target_from(alloc, layout, &rules)?;
    Ok(Ready {
        head: target.head,
        region: target.region,
        fragments: target.fragments,
        kernels,
        rules,
    })
}
