//! Signed lattice points, merged so that each place has one.
//!
//! The sum of the signs over any set of places stays the same.
#![tactic(auto)]

mod points;

pub use points::{Point, merge_points};
