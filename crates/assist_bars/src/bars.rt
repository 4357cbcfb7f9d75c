//! The bars of a target.

ghost use Rattle.std.specs.Prelude.{◌≡◌, ◌≤◌, ◌≤ℤ◌, ◌||◌, ℤ, List, true, false, All, IfOk, length};
ghost use Rattle.mask_rules.specs.TargetRules.{KeepsTarget};
ghost use Rattle.opc_base.specs.Canonical.{IsSolid};
ghost use Rattle.opc_base.specs.Plane.{IsRectWithin, cover};
ghost use Rattle.opc_base.specs.declared.plane.Rect.{Rect};
ghost use Rattle.outline_model.specs.Ranges.{IsInLayout};
ghost use Rattle.assist_bars.specs.Bars.{AreBarRules, AreBars, AreSomeBars, IsBar, IsCutOf, SuitMask};
ghost use Rattle.assist_bars.specs.Boxes.{IsBoxList};

use crate::bar_rules::BarRules;
use crate::boxes::BoxList;
use crate::proposal::{grown, is_long, is_within, proposed};
use edges::find_edges;
use fragment::Fragments;
use opc_base::{MaskRules, NoMemory, Rect, Region};
use outline_model::Edge;
use std::alloc::Global;

/// The bars of a target that has these fragments, in the order of its edges.
pub fn bars_of(
    alloc: Global,
    region: &Region,
    fragments: &Fragments,
    rules: &MaskRules,
    bars: &BarRules,
) -> Result<Vec<Rect>, NoMemory>
    requires cut { IsCutOf region.now fragments.now }
    requires bars { AreBarRules bars.now }
    requires suited { SuitMask rules.now bars.now }
    ensures bars { IfOk result (λ kept. AreBars rules.now bars.now (cover region.now) kept.items) }

    // They are few, and lie where a target may.
    ensures few { IfOk result (λ kept. length kept.items ≤ length fragments.now) }
    ensures within { IfOk result (λ kept. All (IsRectWithin 1048000) kept.items) }

    // So they are bars by some rules, as `with_bars` wants.
    ensures some { IfOk result (λ kept. AreSomeBars (cover region.now) kept.items) }

    // None of them has a pixel of the target.
    ensures clear { IfOk result (λ kept. (x y : ℤ) → cover kept.items x y ≡ true → cover region.now x y ≡ false) }

    // No other list is so.
    ensures unique { IfOk result (λ kept. (others : List Rect) → AreBars rules.now bars.now (cover region.now) others → others ≡ kept.items) }

    // With them the target keeps the rules that it keeps without.
    ensures kept { IfOk result (λ kept. KeepsTarget rules.now (cover region.now) → KeepsTarget rules.now (λ x y. cover region.now x y || cover kept.items x y)) }
{
    // They are the cut of a region that touches itself nowhere and lies within the limit, which this one is.
    let _ = fragments.count();
    let rects = region.rects();
    let edges = find_edges(alloc, rects)?;
    let target = BoxList::of(alloc, rects)?;
    let mut kept = BoxList::new(alloc);
    for edge in &edges {
        if is_bar(edge, rules, bars, &target, &kept) {
            kept.push(proposed(edge, bars))?;
        }
    }
    Ok(kept.rects)
}

/// Whether the edge's proposal is kept, after these bars.
fn is_bar(edge: &Edge, rules: &MaskRules, bars: &BarRules, target: &BoxList, kept: &BoxList) -> bool
    requires line { IsInLayout edge.now.line }
    requires lo { IsInLayout edge.now.lo }
    requires hi { IsInLayout edge.now.hi }
    requires bars { AreBarRules bars.now }
    requires suited { SuitMask rules.now bars.now }
    requires target { IsBoxList target.now }
    requires kept { IsBoxList kept.now }
    requires solid { All IsSolid target.now.rects.items }
    requires kept_solid { All IsSolid kept.now.rects.items }
    ensures is { result ≡ true → IsBar rules.now bars.now (cover target.now.rects.items) kept.now.rects.items edge.now }
    ensures is_none { result ≡ false → IsBar rules.now bars.now (cover target.now.rects.items) kept.now.rects.items edge.now → ⊥ }
{
    if !is_long(edge, bars) {
        return false;
    }
    let bar = proposed(edge, bars);
    if !is_within(&bar) {
        return false;
    }
    let round = grown(&bar, rules.space);
    !target.meets(&round) && !kept.meets(&round)
}
