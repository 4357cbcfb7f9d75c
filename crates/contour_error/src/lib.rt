//! The edge error: how far the printed contour lies from where the target has its edge.
//!
//! Across an edge the intensity is sampled at the centres of pixels. Sample -1 is the last pixel inside the edge, and
//! sample 0 the first outside. A sample is printed where its intensity is at least the threshold. The contour lies
//! between the nearest two samples of which the inner one is printed and the outer one isn't, at the place where a
//! straight line between their intensities meets the threshold. The error counts sixteenths of a pixel outward.
//!
//! ```
//! let error = edge_error(&[36, 9], 37); // -9: the line from 36 to 9
//! ```
#![tactic(auto)]

mod contour;
#[cfg(test)]
mod tests;

pub use contour::edge_error;
