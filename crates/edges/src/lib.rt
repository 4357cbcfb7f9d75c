//! The edges of a set of pixels that is given by rectangles of which no two overlap.
//!
//! Each rectangle has four signed corners. Sorted by line and place, with those at one point made one, they are the
//! corners of the set, and without a corner touch each second one starts an edge that the next one ends.
#![tactic(auto)]

mod rect_corners;
mod rect_edges;

pub use rect_corners::find_corners;
pub use rect_edges::find_edges;
/// A corner of a set of pixels, as it is met along the vertical or the horizontal lines.
///
/// Its sign is 1 or -1: the pixels up right and down left of it less those up left and down right.
pub use signed_points::Point as Corner;
