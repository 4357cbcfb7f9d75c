//! The signed corners of what rectangles cover in a window (Cobb 1998).
//!
//! The sign of a lattice point is what the pixel up right of it and the one down left of it have more than the two
//! others: not 0 exactly where the border of the set turns. The signs of all corners at or left of a pixel and at or
//! below it sum to 1 where the pixel is covered, and to 0 elsewhere.
//!
//! Each rectangle has four signed points. Sorted by rows, with those at one place made one, they are the corners, so the
//! area never counts.
//!
//! ```text
//! let corners = corners_of(alloc, &rects, Rect { x0: -50, y0: -50, x1: 50, y1: 50 })?;
//! ```
#![tactic(auto)]

mod points;
mod window_corners;

pub use window_corners::corners_of;
