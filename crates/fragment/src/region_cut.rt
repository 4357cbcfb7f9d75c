//! Cuts the edges of a region into its fragments.
ghost use Rattle.std.specs.Prelude.{◌≡◌, ◌≤◌, ℤ, pos, All, IfErr, IfOk, List, length, replicate};
ghost use Rattle.cutting.specs.Faults.{IsFault};
ghost use Rattle.opc_base.specs.Plane.{IsRectWithin, cover};
ghost use Rattle.opc_base.specs.Runs.{IsCornerTouch};
ghost use Rattle.outline_model.specs.declared.fragment.Fragment.{Fragment};
ghost use Rattle.outline_model.specs.Fragmentation.{AreFragments};
ghost use Rattle.outline_model.specs.Outline.{lines, mask};
ghost use Rattle.outline_model.specs.Target.{IsBoundary};

use crate::fragments::Fragments;
use cutting::{CutFault, find_pieces, join_pieces};
use opc_base::{CutRules, Region};
use std::alloc::Global;

/// The fragments of a region. An edge is a maximal straight segment with the region on one side all along; it is cut
/// into a piece at each end and pieces of about equal length between them, or left whole where it is too short or the
/// end of a line.
///
/// The region nowhere touches itself at a corner only, and its coordinates are within 1,048,000 of 0. More than 32,768
/// fragments are refused with their exact number, before any is made.
pub fn cut(alloc: Global, region: &Region, rules: &CutRules) -> Result<Fragments, CutFault>
    requires no_touch { (x y : ℤ) → ¬ IsCornerTouch (cover region.now) x y }
    requires placed { All (IsRectWithin 1048000) region.now }

    // Each fragment is a piece of an edge, in order, and is joined at each end to the one that meets it there.
    ensures fragments { IfOk result (λ fs. AreFragments (cover region.now) rules.now fs) }

    // No other list is so.
    ensures unique { IfOk result (λ fs. (gs : List Fragment) → AreFragments (cover region.now) rules.now gs → gs ≡ fs) }
    ensures few { IfOk result (λ fs. length fs ≤ 32768) }

    // They cover each edge once.
    ensures boundary { IfOk result (λ fs. IsBoundary (cover region.now) fs) }

    // Where none has moved, their mask is the region.
    ensures unmoved { IfOk result (λ fs. (x y : ℤ) → mask fs (lines fs (replicate (length fs) (pos 0))) x y ≡ cover region.now x y) }

    // A count is that of the pieces, which are too many.
    ensures many { IfErr result (IsFault (cover region.now) rules.now) }
{
    let rects = region.rects();
    let pieces = find_pieces(alloc, rects, rules)?;
    let Ok(items) = join_pieces(alloc, &pieces) else {
        return Err(CutFault::NoMemory);
    };
    Ok(Fragments::from_vec(items))
}
