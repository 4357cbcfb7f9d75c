//! The first pixels of a rectangle after the stretches inside it.

ghost use Rattle.std.specs.Prelude.{◌≡◌, ◌<◌, ◌<ℤ◌, true, false, if◌then◌else◌, length, not};
ghost use Rattle.outline_model.specs.Limits.{IsFragmentList};
ghost use Rattle.mask_rules.specs.Limits.{IsMaskRect};
ghost use Rattle.mask_rules.specs.Placements.{IsPlacement, line_of};
ghost use Rattle.mask_rules.specs.Spots.{AreFirstSpots, is_ahead, is_inside, lowest, spot_of, spot_pixel};
ghost use Rattle.mask_rules.specs.Stretches.{stretch_at};

use crate::clash::of_colour;
use crate::first::{comes_before, earlier};
use crate::placement::{Placement, stretch_across};
use crate::stretch::{Stretch, pixel_at};
use fragment::Near;
use opc_base::{Pix, Rect};

/// Whether the stretch lies inside a band, which has x across the stretch and y along it.
fn is_inside(band: &Rect, opens: bool, stretch: Stretch) -> bool
    ensures { result ≡ is_inside band.now opens stretch }
{
    of_colour(opens, stretch.opens)
        & (band.x0 < stretch.at)
        & (stretch.at < band.x1)
        & (stretch.low.max(band.y0) < stretch.high.min(band.y1))
}

/// The first pixel of the band after the stretch.
fn spot_pixel(vertical: bool, band: &Rect, opens: bool, stretch: Stretch) -> Option<Pix>
    ensures { result ≡ spot_pixel vertical band.now opens stretch }
{
    if is_inside(band, opens, stretch) {
        Some(pixel_at(vertical, stretch.at, stretch.low.max(band.y0)))
    } else {
        None
    }
}

/// The first pixel of the band after the stretch, if there is one.
fn spot_of(vertical: bool, band: &Rect, opens: bool, stretch: Option<Stretch>) -> Option<Pix>
    ensures { result ≡ spot_of vertical band.now opens stretch }
{
    match stretch {
        Some(found) => spot_pixel(vertical, band, opens, found),
        None => None,
    }
}

/// The first pixels of a rectangle after stretches inside it that have the inside there, or the outside.
#[derive(Clone, Copy)]
pub struct FirstSpots {
    /// After upright stretches.
    pub across: Option<Pix>,
    /// After level stretches, in the column of least x.
    pub along: Option<Pix>,
    /// After stretches of one direction, among the pixels of lowest place along.
    pub begins: Option<Pix>,
    /// The same, after stretches that have the other side there.
    pub ends: Option<Pix>,
}

fn choose(vertical: bool, upright: Option<Stretch>, level: Option<Stretch>) -> Option<Stretch>
    ensures { result ≡ (if vertical then upright else level) }
{
    if vertical { upright } else { level }
}

/// The first pixels of the rectangle after fragment `k`'s stretches.
fn spots_of(outline: &Placement, vertical: bool, rect: &Rect, opens: bool, k: u32) -> FirstSpots
    requires placement { IsPlacement outline.now }
    requires within { IsMaskRect rect.now }
    requires wide { rect.now.x0 <ℤ rect.now.x1 }
    requires high { rect.now.y0 <ℤ rect.now.y1 }
    requires k { k < length outline.now.fragments.now }
    ensures across { result.across ≡ spot_pixel true rect.now opens (stretch_at outline.now.fragments.now (line_of outline.now) true k) }
    ensures along { result.along ≡ spot_pixel false (lowest false rect.now) opens (stretch_at outline.now.fragments.now (line_of outline.now) false k) }
    ensures begins { result.begins ≡ spot_pixel vertical (lowest vertical rect.now) opens (stretch_at outline.now.fragments.now (line_of outline.now) vertical k) }
    ensures ends { result.ends ≡ spot_pixel vertical (lowest vertical rect.now) (not opens) (stretch_at outline.now.fragments.now (line_of outline.now) vertical k) }
{
    let upright = stretch_across(outline, true, rect, k);
    let level = stretch_across(outline, false, rect, k);
    let mine = choose(vertical, upright, level);
    let left = lowest(false, rect);
    let band = lowest(vertical, rect);
    let across = spot_of(true, rect, opens, upright);
    let along = spot_of(false, &left, opens, level);
    let begins = spot_of(vertical, &band, opens, mine);
    let ends = spot_of(vertical, &band, !opens, mine);
    FirstSpots {
        across,
        along,
        begins,
        ends,
    }
}

/// The first pixels of the rectangle after all stretches inside it.
pub fn first_spots(
    outline: &Placement,
    near: &Near,
    vertical: bool,
    rect: &Rect,
    opens: bool,
) -> FirstSpots
    requires placement { IsPlacement outline.now }
    requires near { near.now ≡ outline.now.fragments.now }
    requires list { IsFragmentList outline.now.fragments.now }
    requires within { IsMaskRect rect.now }
    requires wide { rect.now.x0 <ℤ rect.now.x1 }
    requires high { rect.now.y0 <ℤ rect.now.y1 }
    ensures { AreFirstSpots outline.now.fragments.now (line_of outline.now) vertical rect.now opens result }
{
    let mut across = None;
    let mut along = None;
    let mut begins = None;
    let mut ends = None;
    for k in near.within(rect, outline.reach) {
        let found = spots_of(outline, vertical, rect, opens, k);
        across = earlier(across, found.across);
        along = earlier(along, found.along);
        begins = earlier(begins, found.begins);
        ends = earlier(ends, found.ends);
    }
    FirstSpots {
        across,
        along,
        begins,
        ends,
    }
}

/// Whether there is a first pixel, and it comes before the other.
pub fn is_ahead(first: Option<Pix>, other: Option<Pix>) -> bool
    ensures { result ≡ is_ahead first other }
{
    match (first, other) {
        (Some(p), Some(q)) => comes_before(p, q),
        (Some(_), None) => true,
        (None, _) => false,
    }
}

/// The pixels of lowest place along, as a band.
pub fn lowest(vertical: bool, rect: &Rect) -> Rect
    requires { IsMaskRect rect.now }
    ensures { result ≡ lowest vertical rect.now }
{
    if vertical {
        Rect {
            x0: rect.x0,
            y0: rect.y0,
            x1: rect.x1,
            y1: rect.y0 + 1,
        }
    } else {
        Rect {
            x0: rect.y0,
            y0: rect.x0,
            x1: rect.y1,
            y1: rect.x0 + 1,
        }
    }
}
