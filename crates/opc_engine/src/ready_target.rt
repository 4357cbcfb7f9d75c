//! The target of a layout with its fragments, once the layout is judged.
ghost use Rattle.std.specs.Prelude.{◌≡◌, ◌⊎◌, ℤ, Ok, Err, All, OnOk, IfOk, IfErr};
ghost use Rattle.opc_base.specs.Plane.{IsRectWithin, cover};
ghost use Rattle.opc_base.specs.Runs.{IsCornerTouch};
ghost use Rattle.mask_rules.specs.TargetRules.{KeepsTarget};
ghost use Rattle.outline_model.specs.Fragmentation.{AreFragments};
ghost use Rattle.opc_engine.specs.Prepare.{CutGives, LayoutPrepares, TargetKeeps};
ghost use Rattle.opc_engine.specs.ReadyTarget.{IsReadyFor, pattern_of};
ghost use Rattle.opc_engine.specs.Wrapped.{HidesNoMemory};

use crate::EngineFault;
use crate::layout::read_layout;
use crate::target::target_of;
use fragment::{Fragments, cut};
use gds_library::Library;
use gds_records::Head;
use mask_rules::check_target;
use opc_base::{Bytes, CutRules, MaskRules, NoMemory, Region, Rules};
use std::alloc::Global;

/// The head of a layout, its target, and the fragments of the target's edges.
#[derive(Drop)]
pub struct ReadyTarget {
    pub head: Head,
    pub region: Region,
    pub fragments: Fragments,
}

/// What a layout gives for these rules, or the first refusal: of its records, of its placement, its number of corners, its
/// target's mask rules and its number of fragments.
pub fn target_from(alloc: Global, layout: &[u8], rules: &Rules) -> Result<ReadyTarget, EngineFault>
    ensures accepted { IfOk result (λ given. LayoutPrepares layout.now rules.now (Ok (pattern_of given))) }
    ensures ready { IfOk result (IsReadyFor rules.now) }
    ensures refusal { IfErr result (λ fault. (fault ≡ EngineFault.NoMemory) ⊎ LayoutPrepares layout.now rules.now (Err fault)) }
    ensures memory { IfErr result (λ fault. ¬ HidesNoMemory fault) }
{
    let library = read_layout(alloc, layout)?;
    let region = target_of(alloc, &library, &rules.pick)?;
    judge_target(alloc, &region, &rules.mask)?;
    let fragments = fragments_of(alloc, &region, &rules.cut)?;
    let head = head_of(alloc, &library)?;
    Ok(ReadyTarget {
        head,
        region,
        fragments,
    })
}

/// Refuses a target that breaks a rule of width, space or corners.
fn judge_target(alloc: Global, region: &Region, rules: &MaskRules) -> Result<(), EngineFault>
    requires within { All (IsRectWithin 1048000) region.now }
    ensures keeps { OnOk result (KeepsTarget rules.now (cover region.now)) }
    ensures refusal { IfErr result (λ fault. (fault ≡ EngineFault.NoMemory)
        ⊎ TargetKeeps rules.now (cover region.now) (Err fault)) }
    ensures memory { IfErr result (λ fault. ¬ HidesNoMemory fault) }
{
    match check_target(alloc, region, rules)? {
        Some(broken) => Err(EngineFault::Target(broken)),
        None => Ok(()),
    }
}

/// The fragments of a target, or that they are too many.
#[tactic(auto, using(crate::proofs::MemoryLaws::cut_hides_nothing))]
pub fn fragments_of(
    alloc: Global,
    region: &Region,
    rules: &CutRules,
) -> Result<Fragments, EngineFault>
    requires no_touch { (x y : ℤ) → ¬ IsCornerTouch (cover region.now) x y }
    requires placed { All (IsRectWithin 1048000) region.now }
    ensures fragments { IfOk result (λ fragments. CutGives rules.now (cover region.now) (Ok fragments)) }
    ensures cut { IfOk result (AreFragments (cover region.now) rules.now) }
    ensures refusal { IfErr result (λ fault. (fault ≡ EngineFault.NoMemory)
        ⊎ CutGives rules.now (cover region.now) (Err fault)) }
    ensures memory { IfErr result (λ fault. ¬ HidesNoMemory fault) }
{
    Ok(cut(alloc, region, rules)?)
}

/// The head of a layout.
fn head_of(alloc: Global, library: &Library) -> Result<Head, NoMemory>
    ensures { IfOk result (λ head. head ≡ library.now.head) }
{
    let head = library.head();
    Ok(Head {
        header: copy_of(alloc, &head.header)?,
        dates: copy_of(alloc, &head.dates)?,
        name: copy_of(alloc, &head.name)?,
        units: copy_of(alloc, &head.units)?,
    })
}

fn copy_of(alloc: Global, bytes: &Bytes) -> Result<Bytes, NoMemory>
    ensures { IfOk result (λ copy. copy ≡ bytes.now) }
{
    Ok(Bytes::from_vec(bytes.as_slice().to_vec(alloc)?))
}
