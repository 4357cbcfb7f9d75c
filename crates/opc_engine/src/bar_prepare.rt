//! What is ready for a correction with scatter bars.
ghost use Rattle.std.specs.Prelude.{◌≡◌, ◌≤◌, ◌⊎◌, Ok, Err, OnOk, IfOk, IfErr, IfNone, IfSome, length};
ghost use Rattle.assist_bars.specs.Bars.{AreBarRules, SuitMask};
ghost use Rattle.opc_engine.specs.BarReady.{CanAssist, HasBars, WholeFails, bar_subject_of};
ghost use Rattle.opc_engine.specs.BarStages.{IsBadKey, NumbersSuit, PreparesBars};
ghost use Rattle.opc_engine.specs.Ready.{CanOpen, subject_of};
ghost use Rattle.opc_engine.specs.Wrapped.{HidesNoMemory};

use crate::EngineFault;
use crate::bar_key::BarKey;
use crate::ready::{Ready, ready_by};
use crate::ready_target::fragments_of;
use crate::rules::rules_of;
use assist_bars::{BarRules, bars_of, own_fragments, with_bars};
use opc_base::{MaskRules, Rect, Region};
use std::alloc::Global;

/// A target and its bars, in order; and what is corrected, the target with its bars. `own` says of each fragment of both
/// whether it is the target's.
#[derive(Drop)]
pub struct BarPrepared {
    pub target: Region,
    pub bars: Vec<Rect>,
    pub own: Vec<bool>,
    pub whole: Ready,
}

/// What the files and the numbers of bars give for a correction, or the first refusal: of the rules, of the numbers, of
/// kernels and layout as without bars, and of the number of fragments with them.
pub fn prepare_bars(
    alloc: Global,
    layout: &[u8],
    kernels: &[u8],
    rules: &[u8],
    bars: &BarRules,
) -> Result<BarPrepared, EngineFault>
    requires { AreBarRules bars.now }
    ensures accepted { IfOk result (λ given. PreparesBars layout.now kernels.now rules.now bars.now (Ok (bar_subject_of given))) }
    ensures ready { IfOk result CanAssist }
    ensures refusal { IfErr result (λ fault. (fault ≡ EngineFault.NoMemory)
        ⊎ PreparesBars layout.now kernels.now rules.now bars.now (Err fault)) }
    ensures memory { IfErr result (λ fault. ¬ HidesNoMemory fault) }
{
    let rules = rules_of(alloc, rules)?;
    let mask = rules.mask;
    judge_numbers(&mask, bars)?;
    let given = ready_by(alloc, layout, kernels, rules)?;
    let whole = add_bars(alloc, given, bars)?;
    Ok(whole)
}

/// Refuses numbers of bars that don't suit the mask rules.
fn judge_numbers(rules: &MaskRules, bars: &BarRules) -> Result<(), EngineFault>
    requires { AreBarRules bars.now }
    ensures suited { OnOk result (SuitMask rules.now bars.now) }
    ensures refusal { IfErr result (λ fault. NumbersSuit rules.now bars.now (Err fault)) }
    ensures memory { IfErr result (λ fault. ¬ HidesNoMemory fault) }
{
    match bad_key(rules, bars) {
        Some(key) => Err(EngineFault::BadBars { key }),
        None => Ok(()),
    }
}

/// The first number that doesn't suit the mask rules.
fn bad_key(rules: &MaskRules, bars: &BarRules) -> Option<BarKey>
    requires { AreBarRules bars.now }
    ensures bad { IfSome result (IsBadKey rules.now bars.now) }
    ensures suited { IfNone result (SuitMask rules.now bars.now) }
{
    if bars.gap < rules.space {
        return Some(BarKey::Gap);
    }
    if bars.width < rules.width {
        return Some(BarKey::Width);
    }
    if bars.min - 2 * bars.end < rules.width {
        return Some(BarKey::Min);
    }
    None
}

/// What is ready with the bars of a target, unless there are too many fragments then.
fn add_bars(alloc: Global, given: Ready, bars: &BarRules) -> Result<BarPrepared, EngineFault>
    requires ready { CanOpen given }
    requires few { length given.region ≤ 65536 }
    requires numbers { AreBarRules bars.now }
    requires suited { SuitMask given.rules.mask bars.now }
    ensures bars { IfOk result (HasBars given bars.now) }
    ensures ready { IfOk result CanAssist }
    ensures refusal { IfErr result (λ fault. (fault ≡ EngineFault.NoMemory) ⊎ WholeFails (subject_of given) bars.now fault) }
    ensures memory { IfErr result (λ fault. ¬ HidesNoMemory fault) }
{
    let Ready {
        head,
        region,
        fragments,
        kernels,
        rules,
    } = given;
    // There are few of them.
    let _ = fragments.count();
    let bars = bars_of(alloc, &region, &fragments, &rules.mask, bars)?;
    let both = with_bars(alloc, &region, &bars)?;
    let fragments = fragments_of(alloc, &both, &rules.cut)?;
    let own = own_fragments(alloc, &region, &fragments)?;
    Ok(BarPrepared {
        target: region,
        bars,
        own,
        whole: Ready {
            head,
            region: both,
            fragments,
            kernels,
            rules,
        },
    })
}
