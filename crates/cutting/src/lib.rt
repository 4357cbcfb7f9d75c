//! Cuts the edges of a set of pixels into the pieces that become its fragments, and joins these at their ends.
//!
//! The pieces are counted before any is made, so a set that has too many is refused without the memory for them.
#![tactic(auto)]

mod piece_ends;
mod region_pieces;
mod run_pieces;

pub use piece_ends::join_pieces;
pub use region_pieces::{CutFault, MAX_FRAGMENTS, find_pieces};
