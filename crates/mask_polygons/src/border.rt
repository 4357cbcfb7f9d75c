//! The border of a set of pixels.

ghost use Rattle.std.specs.Prelude.{◌≡◌, ◌≤◌, ◌++◌, ℤ, [], ◌∷◌, if◌then◌else◌, List, length, All, IfOk, IfNone, IfSome, OnOk};
ghost use Rattle.std.specs.List.{flat_map};
ghost use Rattle.opc_base.specs.Canonical.{AreCanonical};
ghost use Rattle.opc_base.specs.Plane.{IsRectWithin, cover};
ghost use Rattle.opc_base.specs.Runs.{IsCornerTouch};
ghost use Rattle.outline_model.specs.MaskRange.{mask_limit};
ghost use Rattle.outline_model.specs.declared.edge.Edge.{Edge};
ghost use Rattle.outline_model.specs.Edges.{AreEdges};
ghost use Rattle.mask_polygons.specs.Border.{AreNear, IsBorder, whole, whole_if};
ghost use Rattle.mask_polygons.specs.Walk.{most_points};

use cutting::join_pieces;
use edges::find_edges;
use opc_base::Rect;
use outline_model::{Edge, EdgePiece, Fragment, is_vertical};
use std::alloc::{AllocError, Global};

/// A walk has a point for each edge and one more, and at most 8,191 points.
const MAX_EDGES: usize = 8190;

/// Adds the edge as one piece, if the test holds.
fn push_if(pieces: &mut Vec<EdgePiece>, test: bool, edge: &Edge) -> Result<(), AllocError>
    ensures { OnOk result (pieces.new.items ≡ pieces.old.items ++ (if test then whole edge.now ∷ [] else [])) }
{
    if test {
        pieces.push(EdgePiece {
            side: edge.side,
            line: edge.line,
            lo: edge.lo,
            hi: edge.hi,
        })?;
    }
    Ok(())
}

/// Adds the edges of one direction, each as one piece.
fn push_whole(pieces: &mut Vec<EdgePiece>, edges: &[Edge], upright: bool) -> Result<(), AllocError>
    ensures { OnOk result (pieces.new.items ≡ pieces.old.items ++ flat_map (whole_if upright) edges.now) }
{
    for edge in edges {
        let is_upright = is_vertical(edge.side);
        let test = if upright { is_upright } else { !is_upright };
        push_if(pieces, test, edge)?;
    }
    Ok(())
}

/// The edges of the pixels that the rectangles cover, as fragments that are joined at their ends: the horizontal ones by
/// their lines from below, then the vertical ones. Of more than 8,190 edges there is no polygon.
pub fn find_border(alloc: Global, rects: &[Rect]) -> Result<Option<Vec<Fragment>>, AllocError>
    requires canonical { AreCanonical rects.now }
    requires within { All (IsRectWithin mask_limit) rects.now }
    requires no_touch { (x y : ℤ) → ¬ IsCornerTouch (cover rects.now) x y }
    ensures border { IfOk result (λ found. IfSome found (λ fs. IsBorder (cover rects.now) fs.items)) }
    ensures near { IfOk result (λ found. IfSome found (λ fs. AreNear fs.items)) }
    ensures many { IfOk result (λ found. IfNone found ((es : List Edge) × AreEdges (cover rects.now) es × (most_points ≤ length es))) }
{
    let edges = find_edges(alloc, rects)?;
    if edges.len() > MAX_EDGES {
        return Ok(None);
    }
    let mut pieces = Vec::new(alloc);
    push_whole(&mut pieces, &edges, false)?;
    push_whole(&mut pieces, &edges, true)?;
    let border = join_pieces(alloc, &pieces)?;
    Ok(Some(border))
}
