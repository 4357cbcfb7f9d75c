//! Which rectangles share a side.

ghost use Rattle.std.specs.Prelude.{◌≡◌, ℕ, ◌+◌, ◌<◌, ◌≤◌, length, slice_index_or, IfOk, OnOk};
ghost use Rattle.std.specs.Bool.{Decides};
ghost use Rattle.opc_base.specs.declared.plane.Rect.{Rect};
ghost use Rattle.opc_base.specs.Canonical.{AreCanonical};
ghost use Rattle.mask_polygons.specs.Links.{AreLinks, AreLinksTo, LiesBefore, IsOver, linked};
ghost use Rattle.mask_polygons.specs.Loops.{lists};

use crate::rows::{empty_rows, push_to};
use opc_base::Rect;
use std::alloc::{AllocError, Global};

/// Whether the rectangle lies before those that begin at this height and reach past this column.
fn is_ahead(rect: &Rect, height: i32, column: i32) -> bool
    ensures { Decides result (LiesBefore rect.now height column) }
{
    rect.y0 < height || rect.y0 == height && rect.x1 <= column
}

/// The first rectangle that begins at the height and reaches past the column, or the first behind it.
pub fn first_at(rects: &[Rect], height: i32, column: i32) -> usize
    requires canonical { AreCanonical rects.now }
    ensures within { result ≤ length rects.now }
    ensures ahead { (k : ℕ) (d : Rect) → k < result → LiesBefore (slice_index_or rects.now k d) height column }
    ensures behind { (k : ℕ) (d : Rect) → result ≤ k → k < length rects.now → ¬ LiesBefore (slice_index_or rects.now k d) height column }
{
    let mut low = 0;
    let mut high = rects.len();
    while low < high {
        let middle = low + (high - low) / 2;
        if is_ahead(&rects[middle], height, column) {
            low = middle + 1;
        } else {
            high = middle;
        }
    }
    low
}

/// Whether the other rectangle begins on the upper side of this one, and left of its right end.
fn is_over(rect: &Rect, other: &Rect) -> bool
    ensures { Decides result (IsOver rect.now other.now) }
{
    other.y0 == rect.y1 && other.x0 < rect.x1
}

/// Links two rectangles, both ways round.
fn link(links: &mut Vec<Vec<usize>>, one: usize, other: usize) -> Result<(), AllocError>
    requires one { one < length links.old.items }
    requires other { other < length links.old.items }
    ensures { OnOk result (lists links.new.items ≡ linked (lists links.old.items) one other) }
{
    push_to(links, one, other)?;
    push_to(links, other, one)?;
    Ok(())
}

/// Links this rectangle with each that lies on its upper side.
fn push_links(links: &mut Vec<Vec<usize>>, rects: &[Rect], number: usize) -> Result<(), AllocError>
    requires canonical { AreCanonical rects.now }
    requires number { number < length rects.now }
    requires links { AreLinksTo rects.now (lists links.old.items) number 0 }
    ensures { OnOk result (AreLinksTo rects.now (lists links.new.items) (number + 1) 0) }
{
    let rect = rects[number];
    for above in first_at(rects, rect.y1, rect.x0)..rects.len() {
        if !is_over(&rect, &rects[above]) {
            return Ok(());
        }
        link(links, number, above)?;
    }
    Ok(())
}

/// For each rectangle those that share a side with it. Canonical rectangles share no upright side.
pub fn find_links(alloc: Global, rects: &[Rect]) -> Result<Vec<Vec<usize>>, AllocError>
    requires { AreCanonical rects.now }
    ensures { IfOk result (λ links. AreLinks rects.now (lists links.items)) }
{
    let mut links = empty_rows(alloc, rects.len())?;
    for number in 0..rects.len() {
        push_links(&mut links, rects, number)?;
    }
    Ok(links)
}
