//! The rows and the columns of a set of pixels, and of what is not in it.

ghost use Rattle.std.specs.Prelude.{◌≡◌, ℤ, All, IfOk};
ghost use Rattle.opc_base.specs.Canonical.{AreCanonical};
ghost use Rattle.opc_base.specs.Corners.{quadrant_sum};
ghost use Rattle.opc_base.specs.Plane.{IsRectWithin, cover};
ghost use Rattle.rect_union.specs.CornerSets.{AreCornersOfSet, IsCornerWithin, corner_set};
ghost use Rattle.mask_rules.specs.LineSets.{field_rect, field_sign, line_set, sign_of, turned_rect};

use opc_base::{Corner, NoMemory, Rect, Region};
use rect_union::{push_corners, region_of};
use std::alloc::Global;

/// No pixel of a target is further from 0.
pub const LIMIT: i32 = 1_048_576;

/// The canonical rectangles of the set, or of the pixels within the limit that are not in it; where they are turned,
/// with rows for columns.
pub fn line_rects(alloc: Global, rects: &[Rect], turn: bool, out: bool) -> Result<Region, NoMemory>
    requires canonical { AreCanonical rects.now }
    requires within { All (IsRectWithin 1048576) rects.now }
    ensures within { IfOk result (All (IsRectWithin 1048576)) }
    ensures pixels { IfOk result (λ lines. (x y : ℤ) → cover lines x y ≡ line_set turn out (cover rects.now) x y) }
{
    let corners = line_corners(alloc, rects, turn, out)?;
    let lines = region_of(alloc, &corners)?;
    Ok(lines)
}

/// The signed corners of these rectangles.
fn line_corners(
    alloc: Global,
    rects: &[Rect],
    turn: bool,
    out: bool,
) -> Result<Vec<Corner>, NoMemory>
    requires canonical { AreCanonical rects.now }
    requires within { All (IsRectWithin 1048576) rects.now }
    ensures set { IfOk result (λ corners. AreCornersOfSet corners.items) }
    ensures pixels { IfOk result (λ corners. (x y : ℤ) → corner_set corners.items x y ≡ line_set turn out (cover rects.now) x y) }
{
    let mut corners = field_corners(alloc, out)?;
    let sign = sign_of(out);
    for rect in rects {
        let line = turned_rect(rect, turn);
        push_corners(&mut corners, &line, sign)?;
    }
    Ok(corners)
}

/// The corners of all pixels within the limit, or none.
fn field_corners(alloc: Global, out: bool) -> Result<Vec<Corner>, NoMemory>
    ensures sums { IfOk result (λ corners. (x y : ℤ) → quadrant_sum corners.items x y ≡ field_sign out x y) }
    ensures within { IfOk result (λ corners. All (IsCornerWithin 1048576) corners.items) }
{
    let mut corners = Vec::new(alloc);
    if !out {
        return Ok(corners);
    }
    let field = field_rect();
    push_corners(&mut corners, &field, 1)?;
    Ok(corners)
}

fn field_rect() -> Rect
    ensures { result ≡ field_rect }
{
    Rect {
        x0: -LIMIT,
        y0: -LIMIT,
        x1: LIMIT,
        y1: LIMIT,
    }
}

fn sign_of(out: bool) -> i8
    ensures { result ≡ sign_of out }
{
    if out { -1 } else { 1 }
}

fn turned_rect(rect: &Rect, turn: bool) -> Rect
    ensures { result ≡ turned_rect turn rect.now }
{
    if turn {
        Rect {
            x0: rect.y0,
            y0: rect.x0,
            x1: rect.y1,
            y1: rect.x1,
        }
    } else {
        *rect
    }
}
