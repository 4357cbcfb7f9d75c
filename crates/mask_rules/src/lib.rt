//! The rules that a mask keeps: the first of them that a target breaks, and the first that the move of one fragment does.
//!
//! A covered run of a row or a column has the least width (M1), an uncovered run between covered pixels the least space
//! (M2), and no two pixels meet at a corner only (M3). Outlines neither cross nor touch along a line (M0), each fragment's
//! low end is less than its high end (M4), and offsets are within their limits (M5).
//!
//! `check_target` judges a region. `first_broken` judges a move, and scans no pixel: a stretch is what a fragment gives to
//! the outline in one direction, itself or the jog after it. Two stretches of one direction clash where they meet, or where
//! too few pixels lie between them, or where they touch at a corner, and each clash has one first pixel. Before the move no
//! two clash; only three fragments' stretches change, and those that can clash with them are near them on the target. So
//! the first broken rule is found by the least pixel over the clashes of three fragments with those that `Near` gives.
//!
//! ```text
//! if let Some(broken) = check_target(alloc, &region, &rules.mask)? { .. }
//! if let Some(broken) = first_broken(&fragments, &near, &offsets, i, to, &rules.mask) { .. }
//! ```
#![tactic(auto)]

mod clash;
mod crossing;
mod first;
mod judge;
mod line_sets;
mod placement;
mod search;
mod short_lines;
mod spots;
mod stretch;
mod target_check;

pub use judge::first_broken;
pub use target_check::check_target;

#[cfg(test)]
mod tests;
