//! Rectangles that lie beside one another in the same rows, made one while they are listed.

ghost use Rattle.std.specs.Prelude.{◌≡◌, ◌<◌, ℤ, true, ◌||◌, IfSome, OnOk, length};
ghost use Rattle.std.specs.Int.{int_max, int_min};
ghost use Rattle.opc_base.specs.Canonical.{IsSolid};
ghost use Rattle.opc_base.specs.Cover.{AreRectangles};
ghost use Rattle.opc_base.specs.Plane.{IsRectWithin, cover, rect_cover};
ghost use Rattle.rect_union.specs.Beside.{IsBeside, IsBesideAt};

use opc_base::Rect;
use std::alloc::AllocError;

/// A rectangle is compared with no more than so many of the list's last ones: those of an array's copy lie beside those of
/// the copy before it.
const LATEST: usize = 8;

/// Adds a rectangle to the list: one of the latest grows where it lies beside that or overlaps it in the same rows.
pub fn add_beside(rects: &mut Vec<Rect>, rect: Rect) -> Result<(), AllocError>
    requires solid { IsSolid rect }
    requires within { IsRectWithin 1048000 rect }
    requires rects { AreRectangles rects.old.items }
    ensures placed { OnOk result (AreRectangles rects.new.items) }
    ensures pixels { OnOk result ((x y : ℤ) → cover rects.new.items x y ≡ (cover rects.old.items x y || rect_cover rect x y)) }
{
    match latest_beside(rects, &rect) {
        Some(place) => {
            let wider = joined(&rects[place], &rect);
            rects[place] = wider;
        }
        None => rects.push(rect)?,
    }
    Ok(())
}

/// The place of one of the latest rectangles that lies beside this one.
fn latest_beside(rects: &[Rect], rect: &Rect) -> Option<usize>
    ensures within { IfSome result (λ place. place < length rects.now) }
    ensures beside { IfSome result (λ place. IsBesideAt rects.now place rect.now) }
{
    let first = rects.len().saturating_sub(LATEST);
    for place in first..rects.len() {
        if is_beside(&rects[place], rect) {
            return Some(place);
        }
    }
    None
}

/// Whether both have the same rows, and no column lies between them.
fn is_beside(first: &Rect, second: &Rect) -> bool
    ensures { result ≡ true → IsBeside first.now second.now }
{
    share_rows(first, second) && first.x0 <= second.x1 && second.x0 <= first.x1
}

fn share_rows(first: &Rect, second: &Rect) -> bool
    ensures low { result ≡ true → first.now.y0 ≡ second.now.y0 }
    ensures high { result ≡ true → first.now.y1 ≡ second.now.y1 }
{
    first.y0 == second.y0 && first.y1 == second.y1
}

/// The rectangle that two make which lie beside one another.
fn joined(first: &Rect, second: &Rect) -> Rect
    requires beside { IsBeside first.now second.now }
    requires first { IsSolid first.now }
    requires second { IsSolid second.now }
    requires first_within { IsRectWithin 1048000 first.now }
    requires second_within { IsRectWithin 1048000 second.now }
    ensures solid { IsSolid result }
    ensures within { IsRectWithin 1048000 result }
    ensures pixels { (x y : ℤ) → rect_cover result x y ≡ (rect_cover first.now x y || rect_cover second.now x y) }
{
    widened(first, second)
}

/// The first rectangle with the columns from the leftmost to the rightmost of both.
fn widened(first: &Rect, second: &Rect) -> Rect
    ensures left { result.x0 ≡ int_min first.now.x0 second.now.x0 }
    ensures right { result.x1 ≡ int_max first.now.x1 second.now.x1 }
    ensures low { result.y0 ≡ first.now.y0 }
    ensures high { result.y1 ≡ first.now.y1 }
{
    Rect {
        x0: first.x0.min(second.x0),
        x1: first.x1.max(second.x1),
        ..*first
    }
}
