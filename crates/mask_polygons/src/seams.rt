//! The seams of a component.

ghost use Rattle.std.specs.Prelude.{◌≡◌, ◌<◌, ◌≤◌, ℕ, ℤ, length, All, IfOk};
ghost use Rattle.std.specs.Bool.{Decides};
ghost use Rattle.opc_base.specs.Canonical.{AreCanonical};
ghost use Rattle.opc_base.specs.Plane.{IsPixWithin, cover};
ghost use Rattle.outline_model.specs.MaskRange.{mask_limit};
ghost use Rattle.outline_model.specs.Outline.{fragment_at};
ghost use Rattle.mask_polygons.specs.Border.{AreInOrder, IsBorder};
ghost use Rattle.mask_polygons.specs.Loops.{lists};
ghost use Rattle.mask_polygons.specs.Scripts.{AreHung};
ghost use Rattle.mask_polygons.specs.Seams.{EndRight, EndsOn, HasPlace, IsHoleCorner, BeginsBy, IsSplit};
ghost use Rattle.mask_polygons.specs.Walks.{pix_at};

use crate::links::first_at;
use crate::rows::{empty_rows, push_to};
use opc_base::{Pix, Rect};
use outline_model::{Fragment, is_vertical};
use std::alloc::{AllocError, Global};

/// How many of the edges are horizontal: they come first.
fn count_level(border: &[Fragment]) -> usize
    requires { AreInOrder border.now }
    ensures { IsSplit border.now result }
{
    let mut low = 0;
    let mut high = border.len();
    while low < high {
        let middle = low + (high - low) / 2;
        if is_vertical(border[middle].side) {
            high = middle;
        } else {
            low = middle + 1;
        }
    }
    low
}

/// Whether the edge begins at this place of this line, or before it.
fn is_reached(edge: &Fragment, line: i32, place: i32) -> bool
    ensures { Decides result (BeginsBy edge.now line place) }
{
    edge.edge < line || edge.edge == line && edge.lo <= place
}

/// The upright edge that has this place of this line: the last one that begins there or before.
fn edge_on(border: &[Fragment], first: usize, line: i32, place: i32) -> usize
    requires order { AreInOrder border.now }
    requires first { IsSplit border.now first }
    ensures { (k : ℕ) → first ≤ k → k < length border.now → HasPlace (fragment_at border.now k) line place → result ≡ k }
{
    let mut low = first;
    let mut high = border.len();
    while high - low > 1 {
        let middle = low + (high - low) / 2;
        if is_reached(&border[middle], line, place) {
            low = middle;
        } else {
            high = middle;
        }
    }
    low
}

/// The edge at which the seam of a hole ends: at the left end of the covered run of the seam corner's row that ends at
/// the corner. The run begins a rectangle.
fn seam_edge(rects: &[Rect], border: &[Fragment], first: usize, corner: Pix) -> usize
    requires canonical { AreCanonical rects.now }
    requires border { IsBorder (cover rects.now) border.now }
    requires first { IsSplit border.now first }
    requires near { IsPixWithin mask_limit corner }
    requires hole { IsHoleCorner (cover rects.now) corner }
    ensures edge { result < length border.now }
    ensures ends { EndsOn (cover rects.now) (fragment_at border.now result) corner }
{
    let number = first_at(rects, corner.y, corner.x - 1);
    edge_on(border, first, rects[number].x0, corner.y)
}

/// The holes whose seams end on each edge, from above. A loop that starts higher has a greater number.
pub fn hang_holes(
    alloc: Global,
    rects: &[Rect],
    border: &[Fragment],
    starts: &[Pix],
) -> Result<Vec<Vec<usize>>, AllocError>
    requires canonical { AreCanonical rects.now }
    requires border { IsBorder (cover rects.now) border.now }
    requires some { 0 < length starts.now }
    requires near { All (IsPixWithin mask_limit) starts.now }
    requires holes { (h : ℕ) → 0 < h → h < length starts.now → IsHoleCorner (cover rects.now) (pix_at starts.now h) }
    ensures hung { IfOk result (λ hung. AreHung border.now starts.now (lists hung.items)) }
    ensures right { IfOk result (λ hung. EndRight (cover rects.now) border.now starts.now (lists hung.items)) }
{
    let first = count_level(border);
    let mut hung = empty_rows(alloc, border.len())?;
    for k in 1..starts.len() {
        let hole = starts.len() - k;
        let edge = seam_edge(rects, border, first, starts[hole]);
        push_to(&mut hung, edge, hole)?;
    }
    Ok(hung)
}
