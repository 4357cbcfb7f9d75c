//! The first clash of each kind with a stretch that a move can have changed.

ghost use Rattle.std.specs.Prelude.{◌≡◌, ◌<◌, ◌⊎◌, ◌↔◌, IsTrue, length};
ghost use Rattle.fragment.specs.Index.{IsInside};
ghost use Rattle.outline_model.specs.Limits.{IsFragmentList};
ghost use Rattle.mask_rules.specs.Changes.{AreWithin, HasClashes, changed_at, changed_found};
ghost use Rattle.mask_rules.specs.Clashes.{ClashesNow, IsClash, pair_pixel};
ghost use Rattle.mask_rules.specs.Found.{IsFound, pair_found};
ghost use Rattle.mask_rules.specs.Limits.{IsRules, IsStretchWithin};
ghost use Rattle.mask_rules.specs.Placements.{IsPlacement, line_of};
ghost use Rattle.mask_rules.specs.Stretches.{stretch_at};

use crate::clash::{Clash, clash_area};
use crate::first::{Found, earlier, earlier_each, none_found};
use crate::placement::{Placement, stretch, stretch_across};
use crate::stretch::Stretch;
use fragment::Near;
use opc_base::{MaskRules, Pix, Rect};

/// The first pixel of the clashes of two stretches, whichever of them comes first.
fn pair_pixel(clash: Clash, vertical: bool, mine: Stretch, other: Stretch) -> Option<Pix>
    requires clash { IsClash clash }
    requires mine { IsStretchWithin mine }
    requires other { IsStretchWithin other }
    ensures { result ≡ pair_pixel clash vertical mine other }
{
    let first = clash.pixel(vertical, mine, other);
    let second = clash.pixel(vertical, other, mine);
    earlier(first, second)
}

/// Whether the stretches have the inside on the same side, or one is empty, so that they clash in no way.
fn is_apart(mine: Stretch, other: Stretch) -> bool
    ensures { IsTrue result ↔ ((mine.opens ≡ other.opens) ⊎ (mine.low ≡ mine.high) ⊎ (other.low ≡ other.high)) }
{
    mine.opens == other.opens || mine.low == mine.high || other.low == other.high
}

/// The first pixel of each kind of clash of two stretches.
fn pair_found(rules: &MaskRules, vertical: bool, mine: Stretch, other: Stretch) -> Found
    requires rules { IsRules rules.now }
    requires mine { IsStretchWithin mine }
    requires other { IsStretchWithin other }
    ensures { result ≡ pair_found rules.now vertical mine other }
{
    if is_apart(mine, other) {
        return none_found();
    }
    let narrow = Clash::Narrow {
        covered: true,
        least: rules.width,
    };
    let close = Clash::Narrow {
        covered: false,
        least: rules.space,
    };
    Found {
        meet: pair_pixel(Clash::Meet, vertical, mine, other),
        narrow: pair_pixel(narrow, vertical, mine, other),
        close: pair_pixel(close, vertical, mine, other),
        touch: pair_pixel(Clash::Touch, vertical, mine, other),
    }
}

/// Stretches of one direction: the moved fragment's, and those of the fragments before and after it on the walk.
#[derive(Clone, Copy)]
pub struct Changed {
    /// Of the fragment before it.
    pub before: Stretch,
    /// Its own.
    pub beside: Stretch,
    /// Of the fragment after it.
    pub after: Stretch,
}

/// The stretches of one direction that the move can have changed.
fn changed_by(outline: &Placement, vertical: bool) -> Changed
    requires placement { IsPlacement outline.now }
    ensures changed { result ≡ changed_at outline.now.fragments.now (line_of outline.now) vertical outline.now.moved }
    ensures within { AreWithin result }
{
    let i = outline.moved;
    let fragment = outline.fragments.get(i);
    let before = stretch(outline, vertical, fragment.previous());
    let beside = stretch(outline, vertical, i);
    let after = stretch(outline, vertical, fragment.next());
    Changed {
        before,
        beside,
        after,
    }
}

/// The rectangle round two.
fn around(first: &Rect, second: &Rect) -> Rect
    ensures first { IsInside first.now result }
    ensures second { IsInside second.now result }
{
    Rect {
        x0: first.x0.min(second.x0),
        y0: first.y0.min(second.y0),
        x1: first.x1.max(second.x1),
        y1: first.y1.max(second.y1),
    }
}

/// A rectangle that has the places of all stretches that can clash with the changed ones of one direction.
fn changed_area(rules: &MaskRules, vertical: bool, changed: &Changed) -> Rect
    requires rules { IsRules rules.now }
    requires within { AreWithin changed.now }
    ensures { HasClashes rules.now vertical changed.now result }
{
    let reach = rules.width.max(rules.space);
    let before = clash_area(reach, vertical, changed.before);
    let beside = clash_area(reach, vertical, changed.beside);
    let after = clash_area(reach, vertical, changed.after);
    around(&around(&before, &beside), &after)
}

/// The first pixel of each kind of clash of the changed stretches with another.
fn changed_found(rules: &MaskRules, vertical: bool, changed: &Changed, other: Stretch) -> Found
    requires rules { IsRules rules.now }
    requires within { AreWithin changed.now }
    requires other { IsStretchWithin other }
    ensures { result ≡ changed_found rules.now vertical changed.now other }
{
    let before = pair_found(rules, vertical, changed.before, other);
    let beside = pair_found(rules, vertical, changed.beside, other);
    let after = pair_found(rules, vertical, changed.after, other);
    earlier_each(earlier_each(before, beside), after)
}

/// The first pixel of each kind of clash of the changed stretches of one direction with that of fragment `k`.
fn found_with(
    outline: &Placement,
    rules: &MaskRules,
    vertical: bool,
    changed: &Changed,
    area: &Rect,
    k: u32,
) -> Found
    requires placement { IsPlacement outline.now }
    requires rules { IsRules rules.now }
    requires within { AreWithin changed.now }
    requires area { HasClashes rules.now vertical changed.now area.now }
    requires k { k < length outline.now.fragments.now }
    ensures { result ≡ changed_found rules.now vertical changed.now (stretch_at outline.now.fragments.now (line_of outline.now) vertical k) }
{
    match stretch_across(outline, vertical, area, k) {
        Some(other) => changed_found(rules, vertical, changed, other),
        None => none_found(),
    }
}

/// The first pixels of the clashes of the stretches that the move can have changed.
pub fn first_found(outline: &Placement, near: &Near, rules: &MaskRules) -> Found
    requires placement { IsPlacement outline.now }
    requires near { near.now ≡ outline.now.fragments.now }
    requires rules { IsRules rules.now }
    requires list { IsFragmentList outline.now.fragments.now }
    ensures { IsFound rules.now (λ clash. ClashesNow outline.now.fragments.now (line_of outline.now) clash outline.now.moved) result }
{
    let upright = changed_by(outline, true);
    let level = changed_by(outline, false);
    let upright_area = changed_area(rules, true, &upright);
    let level_area = changed_area(rules, false, &level);
    let area = around(&upright_area, &level_area);
    let mut first = none_found();
    for k in near.within(&area, outline.reach) {
        let across = found_with(outline, rules, true, &upright, &area, k);
        let along = found_with(outline, rules, false, &level, &area, k);
        first = earlier_each(first, earlier_each(across, along));
    }
    first
}
