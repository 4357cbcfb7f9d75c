//! The outline of a mask, as a definition: what fragments, edges and pieces are, how fragments at their offsets form
//! closed walks, which pixels these enclose, and which rules a mask keeps.
//!
//! A fragment lies on an edge of the target, moved outward by its offset. It is walked with the inside on the left hand,
//! so it starts and finishes, and at each end meets one other fragment: at a cut of the same edge, or at a corner. A
//! pixel's count is that of the vertical pieces at or left of its left side, downward 1 and upward -1; the mask has the
//! pixels whose count is 1.
//!
//! `proofs/` has the laws: a move changes each count by its swept rectangle alone (`count-move`), the mask at offsets 0
//! is the target (`mask-at_rest`), and a rule can come to be broken only near a move (`broken_near`).
#![tactic(auto)]

mod edge;
mod fragment;
mod piece;
mod side;

pub use edge::Edge;
pub use fragment::{Fragment, Join};
pub use piece::EdgePiece;
pub use side::{is_rising, is_vertical, moved, rect_between};
