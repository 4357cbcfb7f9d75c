//! The union of rectangles, swept in vertical strips.
//!
//! A sweep costs its rows times the columns that are active in a row, and a strip has few of both: a row begins where a
//! rectangle of the strip begins or ends. What ends at a strip's right border is swept again with the next strip.

ghost use Rattle.std.specs.Prelude.{◌≡◌, ◌≤ℤ◌, ◌<ℤ◌, ℤ, true, ◌||◌, ◌&&◌, ◌+◌, ◌<◌, ◌^◌, int_le, int_lt, IfNone, IfOk, IfSome, OnOk};
ghost use Rattle.std.specs.Int.{int_max, int_min};
ghost use Rattle.opc_base.specs.Canonical.{AreCanonical, IsSolid};
ghost use Rattle.opc_base.specs.Plane.{IsRectWithin, PixelSet, cover, rect_cover};
ghost use Rattle.opc_base.specs.Target.{HasMoreCornersThan};
ghost use Rattle.rect_union.specs.Strips.{AreInPlane, AreParted, AreStrips, IsApartList, IsInLimit, Widens};
ghost use Rattle.rect_union.specs.Sweeps.{IfSwept, IfTooLong, IfTooMany};

use crate::outlines::add_path;
use crate::quadrants::sort_rows;
use crate::sweep::{SweepEnd, region_of_quadrants};
use opc_base::Rect;
use std::alloc::{AllocError, Global};

/// Right of all rectangles, which are within 1,048,576 of 0.
const RIGHT_OF_ALL: i32 = 1_048_577;

/// What the rectangles cover left of a border.
#[derive(Debug, Drop)]
pub struct Strips {
    /// The rectangles that end left of the border.
    pub done: Vec<Rect>,
    /// Those that end at it.
    pub reaching: Vec<Rect>,
    pub border: i32,
}

/// The canonical rectangles of the pixels that these rectangles cover, swept from border to border.
pub fn striped_rects(
    alloc: Global,
    rects: &[Rect],
    borders: &[i32],
) -> Result<Vec<Rect>, AllocError>
    requires placed { AreInPlane rects.now }
    ensures canonical { IfOk result (λ striped. AreCanonical striped.items) }
    ensures pixels { IfOk result (λ striped. (x y : ℤ) → cover striped.items x y ≡ cover rects.now x y) }
{
    match striped_up_to(alloc, rects, borders, usize::MAX)? {
        Some(striped) => Ok(striped),
        None => Ok(Vec::new(alloc)),
    }
}

/// The same, or none where these have more corners than `most`: the sweep stops once more rectangles are done.
pub fn striped_up_to(
    alloc: Global,
    rects: &[Rect],
    borders: &[i32],
    most: usize,
) -> Result<Option<Vec<Rect>>, AllocError>
    requires placed { AreInPlane rects.now }
    ensures canonical { IfOk result (λ found. IfSome found (λ striped. AreCanonical striped.items)) }
    ensures pixels { IfOk result (λ found. IfSome found (λ striped. (x y : ℤ) → cover striped.items x y ≡ cover rects.now x y)) }
    ensures stopped { IfOk result (λ found. IfNone found (HasMoreCornersThan most (cover rects.now))) }
    ensures limit { IfOk result (λ found. IfNone found (most + 1 < 2 ^ 64)) }
{
    match striped_within(alloc, rects, borders, most, usize::MAX)? {
        SweepEnd::Swept(striped) => Ok(Some(striped)),
        SweepEnd::TooMany => Ok(None),
        SweepEnd::TooLong => Ok(None),
    }
}

/// The same, as long as no more rectangles than `again` reach the borders in all, each of which is swept again with the
/// next strip.
pub fn striped_within(
    alloc: Global,
    rects: &[Rect],
    borders: &[i32],
    most: usize,
    again: usize,
) -> Result<SweepEnd, AllocError>
    requires placed { AreInPlane rects.now }
    ensures canonical { IfOk result (λ end. IfSwept end AreCanonical) }
    ensures pixels { IfOk result (λ end. IfSwept end (λ striped. (x y : ℤ) → cover striped x y ≡ cover rects.now x y)) }
    ensures stopped { IfOk result (λ end. IfTooMany end (HasMoreCornersThan most (cover rects.now))) }
    ensures limit { IfOk result (λ end. IfTooMany end (most + 1 < 2 ^ 64)) }
    ensures long { IfOk result (λ end. IfTooLong end (again + 1 < 2 ^ 64)) }
{
    let mut strips = Strips::new(alloc);
    let mut met: usize = 0;
    for border in borders {
        strips.widen(alloc, rects, *border)?;
        if strips.done.len() > most {
            return Ok(SweepEnd::TooMany);
        }
        met = met.saturating_add(strips.reaching.len());
        if met > again {
            return Ok(SweepEnd::TooLong);
        }
    }
    strips.widen(alloc, rects, RIGHT_OF_ALL)?;
    sort_starts(&mut strips.done);
    Ok(SweepEnd::Swept(strips.done))
}

/// Puts rectangles that are apart into canonical order.
pub fn sort_starts(rects: &mut Vec<Rect>)
    requires apart { IsApartList rects.old.items }
    ensures canonical { AreCanonical rects.new.items }
    ensures pixels { (x y : ℤ) → cover rects.new.items x y ≡ cover rects.old.items x y }
{
    rects.sort_unstable_by_key(|rect| (rect.y0, rect.x0));
}

impl Strips {
    pub fn new(alloc: Global) -> Self
        ensures valid { (whole : PixelSet) → ((x y : ℤ) → whole x y ≡ true → IsInLimit 1048576 x y) → AreStrips whole result }
    {
        Strips {
            done: Vec::new(alloc),
            reaching: Vec::new(alloc),
            border: -RIGHT_OF_ALL,
        }
    }

    /// Adds what the rectangles cover from the border to this one, if it is further right.
    pub fn widen(&mut self, alloc: Global, rects: &[Rect], border: i32) -> Result<(), AllocError>
        requires placed { AreInPlane rects.now }
        requires parted { AreParted self.old.done.items self.old.reaching.items self.old.border }
        ensures widened { OnOk result (Widens rects.now self.old self.new) }
        ensures reached { OnOk result (border ≤ℤ self.new.border) }
        ensures ends { OnOk result (self.old.border <ℤ border → self.new.border ≡ border) }
    {
        if border <= self.border {
            return Ok(());
        }
        let seen = strip_of(alloc, &self.reaching, rects, self.border, border)?;
        let swept = swept_path(alloc, seen)?;
        self.reaching = Vec::new(alloc);
        self.border = border;
        for rect in &swept {
            if rect.x1 < border {
                self.done.push(*rect)?;
            } else {
                self.reaching.push(*rect)?;
            }
        }
        Ok(())
    }
}

/// The rectangles that reach the left border, and what the others cover from `left` up to but not including `right`.
fn strip_of(
    alloc: Global,
    reaching: &[Rect],
    rects: &[Rect],
    left: i32,
    right: i32,
) -> Result<Vec<Rect>, AllocError>
    requires reaching { AreInPlane reaching.now }
    requires placed { AreInPlane rects.now }
    ensures placed { IfOk result (λ seen. AreInPlane seen.items) }
    ensures pixels { IfOk result (λ seen. (x y : ℤ) → cover seen.items x y ≡ (cover reaching.now x y || (int_le left x && int_lt x right && cover rects.now x y))) }
{
    let mut seen = Vec::from_slice(alloc, reaching)?;
    for rect in rects {
        push_part(&mut seen, rect, left, right)?;
    }
    Ok(seen)
}

/// Adds what the rectangle covers from `left` up to but not including `right`.
fn push_part(seen: &mut Vec<Rect>, rect: &Rect, left: i32, right: i32) -> Result<(), AllocError>
    requires seen { AreInPlane seen.old.items }
    requires solid { IsSolid rect.now }
    requires within { IsRectWithin 1048576 rect.now }
    ensures placed { OnOk result (AreInPlane seen.new.items) }
    ensures pixels { OnOk result ((x y : ℤ) → cover seen.new.items x y ≡ (cover seen.old.items x y || (int_le left x && int_lt x right && rect_cover rect.now x y))) }
{
    let part = part_of(rect, left, right);
    if part.x0 < part.x1 {
        seen.push(part)?;
    }
    Ok(())
}

/// The rectangle from `left` up to but not including `right`; its sides are not in order where nothing is left.
fn part_of(rect: &Rect, left: i32, right: i32) -> Rect
    ensures left { result.x0 ≡ int_max rect.now.x0 left }
    ensures right { result.x1 ≡ int_min rect.now.x1 right }
    ensures low { result.y0 ≡ rect.now.y0 }
    ensures high { result.y1 ≡ rect.now.y1 }
{
    Rect {
        x0: rect.x0.max(left),
        x1: rect.x1.min(right),
        ..*rect
    }
}

/// The canonical rectangles of the pixels that these rectangles cover, by one sweep.
fn swept_path(alloc: Global, rects: Vec<Rect>) -> Result<Vec<Rect>, AllocError>
    requires placed { AreInPlane rects.items }
    ensures canonical { IfOk result (λ swept. AreCanonical swept.items) }
    ensures placed { IfOk result (λ swept. AreInPlane swept.items) }
    ensures pixels { IfOk result (λ swept. (x y : ℤ) → cover swept.items x y ≡ cover rects.items x y) }
{
    let mut quadrants = Vec::new(alloc);
    add_path(&mut quadrants, 0, &rects)?;
    sort_rows(&mut quadrants);
    let swept = region_of_quadrants(alloc, 1, &quadrants)?;
    Ok(swept)
}
