//! The wish: how far a fragment is to move for its error.
//!
//! A fragment whose error lies outward wishes to move inward, and the other way round, by the error times the gain. A wish
//! is a whole number of pixels. It is at most a step of the rules, and never takes an offset out of its range.
//!
//! ```
//! let delta = wish(-9, 0, &rules); // 1: the nearest whole number to 9 / 16, outward
//! ```
#![tactic(auto)]

mod mover;
#[cfg(test)]
mod tests;

pub use mover::wish;
