//! The first pixel at which a move makes the outline cross or touch itself along a line.
//!
//! Where it meets itself, a stretch that the move changed is one of the two, so the clashes have the place. Where it
//! crosses itself, the moved line has swept a pixel that was covered already, or that was not, and the count there is
//! neither 0 nor 1.

ghost use Rattle.std.specs.Prelude.{◌≡◌, ◌≢◌, ◌<ℤ◌, None, Some, if◌then◌else◌};
ghost use Rattle.outline_model.specs.Limits.{IsFragmentList};
ghost use Rattle.outline_model.specs.Ranges.{IsWithin};
ghost use Rattle.outline_model.specs.Outline.{high_end, is_vertical, low_end, mask, side_of, swept};
ghost use Rattle.outline_model.specs.Rules.{CrossesAt, NoneCrosses};
ghost use Rattle.mask_rules.specs.declared.clash.Clash.TheVariants.{Meet};
ghost use Rattle.mask_rules.specs.Clashes.{ClashesNow};
ghost use Rattle.mask_rules.specs.First.{IsFirst};
ghost use Rattle.mask_rules.specs.Limits.{IsMaskRect};
ghost use Rattle.mask_rules.specs.Placements.{IsNearOffset, IsPlacement, line_of, line_to};
ghost use Rattle.mask_rules.specs.Spots.{lowest};
ghost use Rattle.mask_rules.specs.Sweeps.{IsBeside, MiscountAt, corner_of};

use crate::first::earlier;
use crate::placement::{Placement, end, line};
use crate::spots::{first_spots, is_ahead};
use fragment::Near;
use opc_base::{Pix, Rect};
use outline_model::{is_vertical, rect_between};

fn corner_if(is_wrong: bool, rect: &Rect) -> Option<Pix>
    ensures { result ≡ (if is_wrong then Some (corner_of rect.now) else None) }
{
    if is_wrong {
        Some(Pix {
            x: rect.x0,
            y: rect.y0,
        })
    } else {
        None
    }
}

/// The first pixel of the rectangle that is covered although a move outward is to add it, or is not covered although a
/// move inward is to remove it.
fn first_miscount(present: &Placement, near: &Near, rect: &Rect, outward: bool) -> Option<Pix>
    requires placement { IsPlacement present.now }
    requires near { near.now ≡ present.now.fragments.now }
    requires list { IsFragmentList present.now.fragments.now }
    requires crosses { NoneCrosses present.now.fragments.now (line_of present.now) }
    requires within { IsMaskRect rect.now }
    requires wide { rect.now.x0 <ℤ rect.now.x1 }
    requires high { rect.now.y0 <ℤ rect.now.y1 }
    requires beside { IsBeside (mask present.now.fragments.now (line_of present.now)) (is_vertical (side_of present.now.fragments.now present.now.moved))
        (lowest (is_vertical (side_of present.now.fragments.now present.now.moved)) rect.now) outward }
    ensures { IsFirst (MiscountAt (mask present.now.fragments.now (line_of present.now)) rect.now outward) result }
{
    let vertical = is_vertical(present.fragments.get(present.moved).side);
    let spots = first_spots(present, near, vertical, rect, outward);
    let corner = corner_if(is_ahead(spots.ends, spots.begins), rect);
    earlier(earlier(spots.across, spots.along), corner)
}

/// The first pixel at which the outline crosses or touches itself where the moved fragment has the offset `to`, and
/// `meeting` is the first at which it then meets itself along a line.
pub fn first_crossing(
    present: &Placement,
    near: &Near,
    to: i32,
    meeting: Option<Pix>,
) -> Option<Pix>
    requires placement { IsPlacement present.now }
    requires near { near.now ≡ present.now.fragments.now }
    requires to { IsWithin 128 to }
    requires to_near { IsNearOffset present.now.reach to }
    requires moves { to ≢ present.now.to }
    requires crosses { NoneCrosses present.now.fragments.now (line_of present.now) }
    requires ordered { low_end present.now.fragments.now (line_of present.now) present.now.moved
        <ℤ high_end present.now.fragments.now (line_of present.now) present.now.moved }
    requires meeting { IsFirst (ClashesNow present.now.fragments.now (line_to present.now to) Meet present.now.moved) meeting }
    ensures { IsFirst (λ p. CrossesAt present.now.fragments.now (line_to present.now to) p.x p.y) result }
{
    let i = present.moved;
    let next = Placement {
        fragments: present.fragments,
        offsets: present.offsets,
        moved: i,
        to,
        reach: present.reach,
    };
    let rect = swept(present, line(&next, i));
    let miscount = first_miscount(present, near, &rect, present.to < to);
    earlier(meeting, miscount)
}

/// The rectangle between the moved fragment's line and another line.
fn swept(present: &Placement, to: i32) -> Rect
    requires placement { IsPlacement present.now }
    requires to { IsWithin 1048128 to }
    ensures swept { result ≡ swept present.now.fragments.now (line_of present.now) present.now.moved to }
    ensures within { IsMaskRect result }
    ensures list { IsFragmentList present.now.fragments.now }
{
    let from = line(present, present.moved);
    let fragment = present.fragments.get(present.moved);
    let low = end(present, fragment.low, fragment.lo);
    let high = end(present, fragment.high, fragment.hi);
    rect_between(fragment.side, from, to, low, high)
}
