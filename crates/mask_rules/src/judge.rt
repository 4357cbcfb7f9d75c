//! The first rule that the move of one fragment breaks: its range, then the ends of its neighbours, then the rules of pixels.

ghost use Rattle.std.specs.Prelude.{◌≡◌, ◌≢◌, ◌<◌, ◌⊎◌, ◌↔◌, ◌≤ℤ◌, IfNone, IfSome, IsNone, IsTrue, length, neg_ℤ, slice_set};
ghost use Rattle.outline_model.specs.Limits.{IsFragmentList};
ghost use Rattle.outline_model.specs.Ranges.{IsWithin};
ghost use Rattle.outline_model.specs.Rules.{IsFirstBroken, IsNearMove, KeepsRules};
ghost use Rattle.mask_rules.specs.Limits.{IsRules};
ghost use Rattle.mask_rules.specs.Placements.{IsNearOffset, IsPlacement, line_of};
ghost use Rattle.mask_rules.specs.Verdicts.{IsJudged, IsOrdered, NoneBreaks, broken_fragment};

use crate::crossing::first_crossing;
use crate::placement::{Placement, is_ordered};
use crate::search::first_found;
use crate::target_check::{at_pixel, verdict};
use fragment::{Fragments, Near};
use opc_base::{Broken, MaskRules, Place, RuleName};

fn is_in_range(rules: &MaskRules, to: i32) -> bool
    requires { IsRules rules.now }
    ensures { IsTrue result ↔ ((neg_ℤ rules.now.max_in ≤ℤ to) × (to ≤ℤ rules.now.max_out)) }
{
    -rules.max_in <= to && to <= rules.max_out
}

/// The lower of two fragments whose ends are out of order.
fn first_disorder(outline: &Placement, a: u32, b: u32) -> Option<u32>
    requires placement { IsPlacement outline.now }
    requires a { a < length outline.now.fragments.now }
    requires b { b < length outline.now.fragments.now }
    ensures none { IfNone result (IsOrdered outline.now.fragments.now (line_of outline.now) a × IsOrdered outline.now.fragments.now (line_of outline.now) b) }
    ensures which { IfSome result (λ k. (k ≡ a) ⊎ (k ≡ b)) }
    ensures broken { IfSome result (λ k. ¬ IsOrdered outline.now.fragments.now (line_of outline.now) k) }
    ensures before_a { IfSome result (λ k. a < k → IsOrdered outline.now.fragments.now (line_of outline.now) a) }
    ensures before_b { IfSome result (λ k. b < k → IsOrdered outline.now.fragments.now (line_of outline.now) b) }
{
    let a_ordered = is_ordered(outline, a);
    let b_ordered = is_ordered(outline, b);
    if a_ordered {
        if b_ordered { None } else { Some(b) }
    } else if b_ordered || a <= b {
        Some(a)
    } else {
        Some(b)
    }
}

fn at_fragment(rule: RuleName, k: u32) -> Broken
    ensures { result ≡ broken_fragment rule k }
{
    Broken {
        rule,
        at: Place::Fragment(k),
    }
}

/// Judges the rules of pixels after a move that keeps M5 and M4.
fn judge_pixels(present: &Placement, near: &Near, to: i32, rules: &MaskRules) -> Option<Broken>
    requires placement { IsPlacement present.now }
    requires near { near.now ≡ present.now.fragments.now }
    requires list { IsFragmentList present.now.fragments.now }
    requires rules { IsRules rules.now }
    requires to { IsWithin 128 to }
    requires to_near { IsNearOffset present.now.reach to }
    requires moves { to ≢ present.now.to }
    requires keeps { KeepsRules rules.now present.now.fragments.now (slice_set present.now.offsets.now present.now.moved present.now.to) }
    requires offset { NoneBreaks rules.now present.now.fragments.now (slice_set present.now.offsets.now present.now.moved to) RuleName.M5 }
    requires ends { NoneBreaks rules.now present.now.fragments.now (slice_set present.now.offsets.now present.now.moved to) RuleName.M4 }
    ensures { IsJudged rules.now present.now.fragments.now (slice_set present.now.offsets.now present.now.moved to) result }
{
    let next = Placement {
        fragments: present.fragments,
        offsets: present.offsets,
        moved: present.moved,
        to,
        reach: present.reach,
    };
    let found = first_found(&next, near, rules);
    match first_crossing(present, near, to, found.meet) {
        Some(crossing) => Some(at_pixel(RuleName::M0, crossing)),
        None => verdict(found.narrow, found.close, found.touch),
    }
}

/// Judges all rules after a move.
fn judge(present: &Placement, near: &Near, to: i32, rules: &MaskRules) -> Option<Broken>
    requires placement { IsPlacement present.now }
    requires near { near.now ≡ present.now.fragments.now }
    requires rules { IsRules rules.now }
    requires reach_in { rules.now.max_in ≤ℤ present.now.reach }
    requires reach_out { rules.now.max_out ≤ℤ present.now.reach }
    requires moves { to ≢ present.now.to }
    requires kept { KeepsRules rules.now present.now.fragments.now present.now.offsets.now }
    requires keeps { KeepsRules rules.now present.now.fragments.now (slice_set present.now.offsets.now present.now.moved present.now.to) }
    ensures judged { IsJudged rules.now present.now.fragments.now (slice_set present.now.offsets.now present.now.moved to) result }
    ensures list { IsFragmentList present.now.fragments.now }
{
    let fragment = present.fragments.get(present.moved);
    if !is_in_range(rules, to) {
        return Some(at_fragment(RuleName::M5, present.moved));
    }
    let next = Placement {
        fragments: present.fragments,
        offsets: present.offsets,
        moved: present.moved,
        to,
        reach: present.reach,
    };
    match first_disorder(&next, fragment.previous(), fragment.next()) {
        Some(k) => Some(at_fragment(RuleName::M4, k)),
        None => judge_pixels(present, near, to, rules),
    }
}

/// The first broken rule after fragment `i` has taken the offset `to`, where the present offsets keep all rules.
pub fn first_broken(
    fragments: &Fragments,
    near: &Near,
    offsets: &[i32],
    i: u32,
    to: i32,
    rules: &MaskRules,
) -> Option<Broken>
    requires fragment { i < length fragments.now }
    requires near { near.now ≡ fragments.now }
    requires offsets { length offsets.now ≡ length fragments.now }
    requires keeps { KeepsRules rules.now fragments.now offsets.now }
    ensures broken { IfSome result (λ b. IsFirstBroken rules.now fragments.now (slice_set offsets.now i to) b.rule b.at) }
    ensures kept { IsNone result ↔ KeepsRules rules.now fragments.now (slice_set offsets.now i to) }

    // Only near the move can a rule come to be broken.
    ensures near { IfSome result (λ b. IsNearMove rules.now fragments.now offsets.now i to b.rule b.at) }
{
    let from = offsets[i as usize];
    if to == from {
        return None;
    }
    let present = Placement {
        fragments,
        offsets,
        moved: i,
        to: from,
        reach: rules.max_in.max(rules.max_out),
    };
    judge(&present, near, to, rules)
}
