//! Cuts the edges of the pixels that rectangles cover.

ghost use Rattle.std.specs.Prelude.{◌≤◌, ℤ, All, IfErr, IfOk, length};
ghost use Rattle.outline_model.specs.Fragmentation.{ArePieces};
ghost use Rattle.cutting.specs.Faults.{IsFault};
ghost use Rattle.outline_model.specs.Lengths.{AreRules};
ghost use Rattle.opc_base.specs.Plane.{IsRectWithin, cover};
ghost use Rattle.edges.specs.Disjoint.{AreSolidAndApart};
ghost use Rattle.opc_base.specs.Runs.{IsCornerTouch};

use crate::run_pieces::{count_pieces, cut_edges};
use edges::find_edges;
use opc_base::{CutRules, Rect};
use outline_model::EdgePiece;
use std::alloc::Global;

/// The most fragments of a layout.
pub const MAX_FRAGMENTS: u64 = 32768;

/// Why edges are not cut.
#[derive(Debug, Drop)]
pub enum CutFault {
    /// There are more than 32,768 pieces.
    TooManyFragments {
        /// So many.
        count: u64,
    },
    /// No memory was left.
    NoMemory,
}

/// The pieces of the edges of the pixels that the rectangles cover.
pub fn find_pieces(
    alloc: Global,
    rects: &[Rect],
    rules: &CutRules,
) -> Result<Vec<EdgePiece>, CutFault>
    requires rules { AreRules rules.now }
    requires disjoint { AreSolidAndApart rects.now }
    requires placed { All (IsRectWithin 1048000) rects.now }
    requires no_touch { (x y : ℤ) → ¬ IsCornerTouch (cover rects.now) x y }
    ensures pieces { IfOk result (λ ps. ArePieces (cover rects.now) rules.now ps.items) }
    ensures few { IfOk result (λ ps. length ps.items ≤ 32768) }

    // The count is that of the pieces, which are not made.
    ensures many { IfErr result (IsFault (cover rects.now) rules.now) }
{
    let Ok(edges) = find_edges(alloc, rects) else {
        return Err(CutFault::NoMemory);
    };
    let count = count_pieces(&edges, rules);
    if count > MAX_FRAGMENTS {
        return Err(CutFault::TooManyFragments { count });
    }
    let Ok(pieces) = cut_edges(alloc, &edges, rules) else {
        return Err(CutFault::NoMemory);
    };
    Ok(pieces)
}
