//! The corners of a set that is given by canonical rectangles.

ghost use Rattle.std.specs.Prelude.{◌≡◌, ◌⊎◌, ◌+ℤ◌, ◌<◌, ◌^◌, ℤ, pos, negsuc, true, false, length, All, IfOk, OnOk, OnErr, IfSome, IfNone};
ghost use Rattle.opc_base.specs.Canonical.{AreCanonical, IsSolid};
ghost use Rattle.opc_base.specs.Corners.{quadrant_sum};
ghost use Rattle.opc_base.specs.Plane.{IsRectWithin, cover};
ghost use Rattle.rect_union.specs.CornerCount.{HasCornerCount};
ghost use Rattle.rect_union.specs.CornerSets.{IsCornerWithin, corner, four_corners, rect_sign};
ghost use Rattle.rect_union.specs.Merging.{AreCornersIn, AreMerged, EndsPoint, GoesOn, IsAtPointOf, PushesSigned, Settles};
ghost use Rattle.rect_union.specs.Outlines.{path_count};
ghost use Rattle.rect_union.specs.Quadrants.{AreInRows, quadrant_weight};
ghost use Rattle.rect_union.specs.Touches.{IsDouble, IsFirstDouble, IsFirstTouch, IsNearPoint};

use crate::columns::Column;
use crate::corners::corner_quadrants;
use crate::quadrants::{Quadrant, sort_rows};
use opc_base::{Corner, NoMemory, Pix, Rect};
use std::alloc::Global;

/// How many corners the set has. A point with two covered pixels across it counts once.
pub fn count_corners(alloc: Global, rects: &[Rect]) -> Result<usize, NoMemory>
    requires canonical { AreCanonical rects.now }
    ensures counted { IfOk result (HasCornerCount (cover rects.now)) }
{
    let merged = merged_corners(alloc, rects)?;
    Ok(merged.len())
}

/// The first block of two by two pixels, by its lower left one, that has exactly two covered pixels, which meet at a
/// corner only: the lowest, and in its row the leftmost.
pub fn first_touch(alloc: Global, rects: &[Rect]) -> Result<Option<Pix>, NoMemory>
    requires canonical { AreCanonical rects.now }
    requires within { All (IsRectWithin 1048576) rects.now }
    ensures touch { IfOk result (IsFirstTouch (cover rects.now)) }
{
    let merged = merged_corners(alloc, rects)?;
    Ok(first_double(&merged))
}

/// The signed corners of the set, by rows from the bottom, each point once.
fn merged_corners(alloc: Global, rects: &[Rect]) -> Result<Vec<Quadrant>, NoMemory>
    requires canonical { AreCanonical rects.now }
    ensures corners { IfOk result (λ merged. AreCornersIn (cover rects.now) merged.items) }
{
    let corners = rect_corners(alloc, rects)?;
    let mut quadrants = corner_quadrants(alloc, &corners)?;
    sort_rows(&mut quadrants);
    let merged = merge_points(alloc, &quadrants)?;
    Ok(merged)
}

/// The lower left pixel of the block round the first point whose sign is 2 or -2.
fn first_double(merged: &[Quadrant]) -> Option<Pix>
    requires near { All IsNearPoint merged.now }
    ensures found { IfSome result (IsFirstDouble merged.now) }
    ensures none { IfNone result (All (λ q. ¬ IsDouble q.column.sign) merged.now) }
{
    for quadrant in merged {
        if is_double(quadrant.column.sign) {
            return Some(Pix {
                x: quadrant.column.x - 1,
                y: quadrant.y - 1,
            });
        }
    }
    None
}

fn is_double(sign: i128) -> bool
    ensures double { result ≡ true → IsDouble sign }
    ensures other { result ≡ false → IsDouble sign → ⊥ }
{
    sign == 2 || sign == -2
}

/// Four signed corners for each rectangle.
fn rect_corners(alloc: Global, rects: &[Rect]) -> Result<Vec<Corner>, NoMemory>
    requires solid { All IsSolid rects.now }
    ensures sums { IfOk result (λ corners. (x y : ℤ) → quadrant_sum corners.items x y ≡ path_count rects.now x y) }
{
    let mut corners = Vec::new(alloc);
    for rect in rects {
        push_corners(&mut corners, rect, 1)?;
    }
    Ok(corners)
}

/// Adds the four corners of a rectangle, which add this sign at each of its pixels.
pub fn push_corners(corners: &mut Vec<Corner>, rect: &Rect, sign: i8) -> Result<(), NoMemory>
    requires solid { IsSolid rect.now }
    requires sign { (sign ≡ pos 1) ⊎ (sign ≡ negsuc 0) }
    ensures sums { OnOk result ((x y : ℤ) → quadrant_sum corners.new.items x y ≡ quadrant_sum corners.old.items x y +ℤ rect_sign sign rect.now x y) }
    ensures within { OnOk result (All (IsCornerWithin 1048576) corners.old.items → IsRectWithin 1048576 rect.now → All (IsCornerWithin 1048576) corners.new.items) }
    ensures unchanged { OnErr result (corners.new.items ≡ corners.old.items) }
{
    corners.extend_from_slice(&four_corners(rect, sign))?;
    Ok(())
}

/// The corners of a rectangle, which add this sign at each of its pixels.
fn four_corners(rect: &Rect, sign: i8) -> [Corner; 4]
    requires sign { (sign ≡ pos 1) ⊎ (sign ≡ negsuc 0) }
    ensures { result ≡ four_corners sign rect.now }
{
    [
        corner(rect.x0, rect.y0, sign),
        corner(rect.x1, rect.y0, -sign),
        corner(rect.x0, rect.y1, -sign),
        corner(rect.x1, rect.y1, sign),
    ]
}

fn corner(x: i32, y: i32, sign: i8) -> Corner
    ensures { result ≡ corner x y sign }
{
    Corner { x, y, sign }
}

/// The quadrants with those at one point made one, whose sign is their sum, and without those whose sign is then 0.
fn merge_points(alloc: Global, quadrants: &[Quadrant]) -> Result<Vec<Quadrant>, NoMemory>
    requires rows { AreInRows quadrants.now }
    requires small { quadrant_weight quadrants.now < 2 ^ 126 }
    ensures merged { IfOk result (λ merged. AreMerged quadrants.now merged.items) }
{
    let mut merged = Vec::new(alloc);
    let mut sign = 0;
    for (index, quadrant) in quadrants.iter().enumerate() {
        let sum = sign + quadrant.column.sign;
        sign = settle(&mut merged, quadrants, index, sum)?;
    }
    Ok(merged)
}

/// Adds a quadrant of this sign at the point of the given one, if that is the last one there and the sign is not 0.
/// The answer is the sign that is left for the next quadrant.
fn settle(
    merged: &mut Vec<Quadrant>,
    quadrants: &[Quadrant],
    index: usize,
    sign: i128,
) -> Result<i128, NoMemory>
    requires within { index < length quadrants.now }
    ensures settled { IfOk result (Settles merged.old.items merged.new.items quadrants.now index sign) }
{
    if !ends_point(quadrants, index) {
        return Ok(sign);
    }
    push_signed(merged, &quadrants[index], sign)?;
    Ok(0)
}

/// Adds a quadrant of this sign at the point of another one, if the sign is not 0.
fn push_signed(merged: &mut Vec<Quadrant>, quadrant: &Quadrant, sign: i128) -> Result<(), NoMemory>
    ensures pushed { OnOk result (PushesSigned merged.old.items merged.new.items quadrant.now sign) }
{
    if sign != 0 {
        merged.push(Quadrant {
            y: quadrant.y,
            column: Column {
                sign,
                ..quadrant.column
            },
        })?;
    }
    Ok(())
}

/// Whether the next quadrant, if there is one, stands at another point.
fn ends_point(quadrants: &[Quadrant], index: usize) -> bool
    requires within { index < length quadrants.now }
    ensures ends { result ≡ true → EndsPoint quadrants.now index }
    ensures goes_on { result ≡ false → GoesOn quadrants.now index }
{
    index + 1 == quadrants.len() || !share_point(&quadrants[index + 1], &quadrants[index])
}

/// Whether both quadrants stand at one point.
fn share_point(first: &Quadrant, second: &Quadrant) -> bool
    ensures same { result ≡ true → IsAtPointOf first.now second.now }
    ensures other { result ≡ false → IsAtPointOf first.now second.now → ⊥ }
{
    first.y == second.y && first.column.x == second.column.x
}
