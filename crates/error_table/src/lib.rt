//! The lines of an error table, which is a text: two head lines, a line for each round or move, a line for each fragment,
//! and an end line. Each call appends its lines to the bytes so far. Where memory runs out, the bytes are as they were.
//!
//! ```
//! put_head(alloc, &mut table, 4, 1, 1, 2, 37)?; // opc table 2, and: fragments 4 kernels 1 reach 1 samples 2 threshold 37
//! put_summary(alloc, &mut table, &totals, true, 1)?; // end worst 7 total 28 settled yes rectangles 1
//! ```
#![tactic(auto)]

mod fragment_line;
mod lines;
#[cfg(test)]
mod tests;

pub use fragment_line::FragmentLine;
pub use lines::{put_counts, put_fragment, put_head, put_move, put_round, put_summary};
