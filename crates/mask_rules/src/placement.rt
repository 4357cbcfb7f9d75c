//! Fragments at their offsets, of which one is given apart, so that a move is judged without a list of its own.

ghost use Rattle.std.specs.Prelude.{◌≡◌, ◌<◌, ◌↔◌, ◌<ℤ◌, IfNone, IfSome, IsTrue, length, not};
ghost use Rattle.outline_model.specs.Limits.{IsFragmentList};
ghost use Rattle.outline_model.specs.Ranges.{IsWithin};
ghost use Rattle.outline_model.specs.Outline.{end_at, high_end, is_vertical, joined, low_end, side_of};
ghost use Rattle.mask_rules.specs.Limits.{IsStretchWithin};
ghost use Rattle.mask_rules.specs.Placements.{IsPlacement, line_of};
ghost use Rattle.mask_rules.specs.Stretches.{IsAcross, StandsIn, stretch_at};

use crate::stretch::{Stretch, is_across, walk};
use fragment::{Fragments, Join};
use opc_base::Rect;
use outline_model::is_vertical;

/// Fragments at their offsets, but for one of them, which has another offset.
#[derive(Clone, Copy)]
pub struct Placement<'a> {
    /// The fragments.
    pub fragments: &'a Fragments,
    /// How far each has moved outward.
    pub offsets: &'a [i32],
    /// The one that has another offset.
    pub moved: u32,
    /// Its offset.
    pub to: i32,
    /// No offset is greater than this.
    pub reach: i32,
}

/// Where the line of a fragment lies.
pub fn line(outline: &Placement, k: u32) -> i32
    requires placement { IsPlacement outline.now }
    requires k { k < length outline.now.fragments.now }
    ensures line { result ≡ line_of outline.now k }
    ensures within { IsWithin 1048128 result }
{
    let offset = if k == outline.moved {
        outline.to
    } else {
        outline.offsets[k as usize]
    };
    outline.fragments.line_at(k, offset)
}

/// Where a fragment ends that has this join there, and on the target this place.
pub fn end(outline: &Placement, join: Join, place: i32) -> i32
    requires placement { IsPlacement outline.now }
    requires join { joined join < length outline.now.fragments.now }
    requires place { IsWithin 1048128 place }
    ensures end { result ≡ end_at (line_of outline.now) join place }
    ensures within { IsWithin 1048128 result }
{
    match join {
        Join::Cut(_) => place,
        Join::Corner(j) => line(outline, j),
    }
}

/// Whether the low end of fragment `k` is below its high end.
pub fn is_ordered(outline: &Placement, k: u32) -> bool
    requires placement { IsPlacement outline.now }
    requires k { k < length outline.now.fragments.now }
    ensures { IsTrue result ↔ (low_end outline.now.fragments.now (line_of outline.now) k <ℤ high_end outline.now.fragments.now (line_of outline.now) k) }
{
    let fragment = outline.fragments.get(k);
    let low = end(outline, fragment.low, fragment.lo);
    let high = end(outline, fragment.high, fragment.hi);
    low < high
}

/// What fragment `k` gives to the outline in one direction.
pub fn stretch(outline: &Placement, vertical: bool, k: u32) -> Stretch
    requires placement { IsPlacement outline.now }
    requires k { k < length outline.now.fragments.now }
    ensures stretch { result ≡ stretch_at outline.now.fragments.now (line_of outline.now) vertical k }
    ensures within { IsStretchWithin result }
    ensures list { IsFragmentList outline.now.fragments.now }
{
    if is_vertical(outline.fragments.get(k).side) == vertical {
        own(outline, vertical, k)
    } else {
        jog(outline, vertical, k)
    }
}

/// The fragment itself.
fn own(outline: &Placement, vertical: bool, k: u32) -> Stretch
    requires placement { IsPlacement outline.now }
    requires k { k < length outline.now.fragments.now }
    requires side { is_vertical (side_of outline.now.fragments.now k) ≡ vertical }
    ensures stretch { result ≡ stretch_at outline.now.fragments.now (line_of outline.now) vertical k }
    ensures within { IsStretchWithin result }
{
    let fragment = outline.fragments.get(k);
    let (start_join, start_place) = fragment.start();
    let (finish_join, finish_place) = fragment.finish();
    let from = end(outline, start_join, start_place);
    let to = end(outline, finish_join, finish_place);
    let at = line(outline, k);
    walk(vertical, at, from, to)
}

/// The jog after the fragment.
fn jog(outline: &Placement, vertical: bool, k: u32) -> Stretch
    requires placement { IsPlacement outline.now }
    requires k { k < length outline.now.fragments.now }
    requires side { is_vertical (side_of outline.now.fragments.now k) ≡ not vertical }
    ensures stretch { result ≡ stretch_at outline.now.fragments.now (line_of outline.now) vertical k }
    ensures within { IsStretchWithin result }
{
    let (join, place) = outline.fragments.get(k).finish();
    let from = line(outline, k);
    match join {
        Join::Cut(j) => {
            let to = line(outline, j);
            walk(vertical, place, from, to)
        }
        Join::Corner(j) => {
            let at = line(outline, j);
            walk(vertical, at, from, from)
        }
    }
}

/// Where fragment `k`'s stretch of one direction lies across it. `None` where there is none: a corner has no jog.
fn place_across(outline: &Placement, vertical: bool, k: u32) -> Option<i32>
    requires placement { IsPlacement outline.now }
    requires k { k < length outline.now.fragments.now }
    ensures place { IfSome result (λ at. (stretch_at outline.now.fragments.now (line_of outline.now) vertical k).at ≡ at) }
    ensures none { IfNone result ((stretch_at outline.now.fragments.now (line_of outline.now) vertical k).low
        ≡ (stretch_at outline.now.fragments.now (line_of outline.now) vertical k).high) }
{
    let fragment = outline.fragments.get(k);
    if is_vertical(fragment.side) == vertical {
        return Some(line(outline, k));
    }
    let (join, place) = fragment.finish();
    match join {
        Join::Cut(_) => Some(place),
        Join::Corner(_) => None,
    }
}

/// Fragment `k`'s stretch of one direction, if its place across it is one of the rectangle's. Where it is not, the ends of
/// the stretch are not looked for.
pub fn stretch_across(outline: &Placement, vertical: bool, rect: &Rect, k: u32) -> Option<Stretch>
    requires placement { IsPlacement outline.now }
    requires k { k < length outline.now.fragments.now }
    ensures stretch { IfSome result (λ s. s ≡ stretch_at outline.now.fragments.now (line_of outline.now) vertical k) }
    ensures within { IfSome result IsStretchWithin }
    ensures none { IfNone result (¬ StandsIn rect.now vertical (stretch_at outline.now.fragments.now (line_of outline.now) vertical k)) }
{
    let at = place_across(outline, vertical, k)?;
    if is_across(vertical, rect, at) {
        Some(stretch(outline, vertical, k))
    } else {
        None
    }
}
