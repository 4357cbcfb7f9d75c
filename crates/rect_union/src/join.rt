//! The union of many outlines: at once, in strips, or a few at a time.
//!
//! A sweep costs its rows times the columns that are active in a row. Where neither all rectangles at once nor strips are
//! cheap, outlines are first joined by fours, and what these cover again by fours, until few are left: what many that
//! overlap cover has few sides.

ghost use Rattle.std.specs.Prelude.{◌≡◌, ℤ, All, IfNone, IfOk, IfSome};
ghost use Rattle.opc_base.specs.Canonical.{AreCanonical};
ghost use Rattle.opc_base.specs.Cover.{AreRectangles, IsPlaced};
ghost use Rattle.opc_base.specs.Plane.{IsRectWithin, cover};
ghost use Rattle.opc_base.specs.Target.{HasMoreCornersThan, target};
ghost use Rattle.rect_union.specs.Joins.{IsJoinOf, JoinsTo};

use crate::load::Load;
use crate::once::swept_at_once;
use crate::spread::{are_many_in_rows, outline_size, rects_of};
use crate::strips::{striped_up_to, striped_within};
use crate::sweep::SweepEnd;
use crate::swept::swept_up_to;
use opc_base::{Outline, Rect, Rects};
use std::alloc::{AllocError, Global};

const GROUP: usize = 4;

/// Outlines with no more points or rectangles than this are swept at once.
const SMALL: usize = 256;

/// A group that has more rectangles than this is not joined, and the others then stay as they are too.
const MOST_IN_GROUP: usize = 262_144;

/// The canonical rectangles of the pixels that some outline covers, or none where these have more corners than `most`.
pub fn joined_up_to(
    alloc: Global,
    outlines: &[Outline],
    most: usize,
) -> Result<Option<Vec<Rect>>, AllocError>
    requires placed { All IsPlaced outlines.now }
    ensures canonical { IfOk result (λ found. IfSome found (λ rects. AreCanonical rects.items)) }
    ensures within { IfOk result (λ found. IfSome found (λ rects. All (IsRectWithin 1048000) rects.items)) }
    ensures pixels { IfOk result (λ found. IfSome found (λ rects. (x y : ℤ) → cover rects.items x y ≡ target outlines.now x y)) }
    ensures stopped { IfOk result (λ found. IfNone found (HasMoreCornersThan most (target outlines.now))) }
{
    let rects = rects_of(alloc, outlines)?;
    let end = swept_at_once(alloc, &rects, most)?;
    match end {
        SweepEnd::Swept(swept) => Ok(Some(swept)),
        SweepEnd::TooMany => Ok(None),
        SweepEnd::TooLong => parted_up_to(alloc, outlines, &rects, most),
    }
}

/// The same, given rectangles that cover what the outlines do: in strips, or by groups where that is much work or turns out
/// to be.
fn parted_up_to(
    alloc: Global,
    outlines: &[Outline],
    rects: &[Rect],
    most: usize,
) -> Result<Option<Vec<Rect>>, AllocError>
    requires placed { All IsPlaced outlines.now }
    requires rects { AreRectangles rects.now }
    requires same { (x y : ℤ) → cover rects.now x y ≡ target outlines.now x y }
    ensures canonical { IfOk result (λ found. IfSome found (λ rects. AreCanonical rects.items)) }
    ensures within { IfOk result (λ found. IfSome found (λ rects. All (IsRectWithin 1048000) rects.items)) }
    ensures pixels { IfOk result (λ found. IfSome found (λ rects. (x y : ℤ) → cover rects.items x y ≡ target outlines.now x y)) }
    ensures stopped { IfOk result (λ found. IfNone found (HasMoreCornersThan most (target outlines.now))) }
{
    let load = Load::of(alloc, rects)?;
    if !load.is_little() {
        return joined_in_groups(alloc, outlines, most);
    }
    let borders = load.borders(alloc)?;
    let again = load.most_again();
    let end = striped_within(alloc, rects, &borders, most, again)?;
    match end {
        SweepEnd::Swept(striped) => Ok(Some(striped)),
        SweepEnd::TooMany => Ok(None),
        SweepEnd::TooLong => joined_in_groups(alloc, outlines, most),
    }
}

/// The same by groups.
fn joined_in_groups(
    alloc: Global,
    outlines: &[Outline],
    most: usize,
) -> Result<Option<Vec<Rect>>, AllocError>
    requires placed { All IsPlaced outlines.now }
    ensures canonical { IfOk result (λ found. IfSome found (λ rects. AreCanonical rects.items)) }
    ensures within { IfOk result (λ found. IfSome found (λ rects. All (IsRectWithin 1048000) rects.items)) }
    ensures pixels { IfOk result (λ found. IfSome found (λ rects. (x y : ℤ) → cover rects.items x y ≡ target outlines.now x y)) }
    ensures stopped { IfOk result (λ found. IfNone found (HasMoreCornersThan most (target outlines.now))) }
{
    let first = join_groups(alloc, outlines)?;
    let Some(groups) = first else {
        return target_up_to(alloc, outlines, most);
    };
    let mut joined = groups;
    for _ in 0..10 {
        joined = join_again(alloc, joined)?;
    }
    let found = target_up_to(alloc, &joined, most)?;
    Ok(found)
}

/// The same without joining groups: by one sweep, or in strips where many rectangles lie in a row.
fn target_up_to(
    alloc: Global,
    outlines: &[Outline],
    most: usize,
) -> Result<Option<Vec<Rect>>, AllocError>
    requires placed { All IsPlaced outlines.now }
    ensures canonical { IfOk result (λ found. IfSome found (λ rects. AreCanonical rects.items)) }
    ensures within { IfOk result (λ found. IfSome found (λ rects. All (IsRectWithin 1048000) rects.items)) }
    ensures pixels { IfOk result (λ found. IfSome found (λ rects. (x y : ℤ) → cover rects.items x y ≡ target outlines.now x y)) }
    ensures stopped { IfOk result (λ found. IfNone found (HasMoreCornersThan most (target outlines.now))) }
{
    if outline_size(outlines) <= SMALL {
        return swept_up_to(alloc, outlines, most);
    }
    let rects = rects_of(alloc, outlines)?;
    if !are_many_in_rows(alloc, &rects)? {
        return swept_up_to(alloc, outlines, most);
    }
    let borders = Load::of(alloc, &rects)?.borders(alloc)?;
    let found = striped_up_to(alloc, &rects, &borders, most)?;
    Ok(found)
}

/// Outlines that cover the same, fewer where there are many.
fn join_again(alloc: Global, outlines: Vec<Outline>) -> Result<Vec<Outline>, AllocError>
    requires placed { All IsPlaced outlines.items }
    ensures joined { IfOk result (λ joined. JoinsTo outlines.items joined.items) }
{
    if outlines.len() <= GROUP {
        return Ok(outlines);
    }
    match join_groups(alloc, &outlines)? {
        Some(joined) => Ok(joined),
        None => Ok(outlines),
    }
}

/// One outline for each group of outlines, which covers what they do, or none where some group has too many rectangles.
fn join_groups(alloc: Global, outlines: &[Outline]) -> Result<Option<Vec<Outline>>, AllocError>
    requires placed { All IsPlaced outlines.now }
    ensures joined { IfOk result (λ found. IfSome found (λ joined. JoinsTo outlines.now joined.items)) }
{
    let mut joined = Vec::new(alloc);
    let mut rest = outlines;
    while rest.len() > 0 {
        let count = rest.len().min(GROUP);
        let (group, later) = rest.split_at(count);
        let found = join_group(alloc, group)?;
        let Some(outline) = found else {
            return Ok(None);
        };
        joined.push(outline)?;
        rest = later;
    }
    Ok(Some(joined))
}

fn join_group(alloc: Global, outlines: &[Outline]) -> Result<Option<Outline>, AllocError>
    requires placed { All IsPlaced outlines.now }
    ensures joined { IfOk result (λ found. IfSome found (IsJoinOf outlines.now)) }
{
    let found = target_up_to(alloc, outlines, MOST_IN_GROUP)?;
    match found {
        Some(rects) => Ok(Some(Outline::Path(Rects::from_vec(rects)))),
        None => Ok(None),
    }
}
