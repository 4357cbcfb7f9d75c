//! Which structures references reach, whether some of them reach themselves, and in which order they can be expanded.
//!
//! A graph is a list of rows: row s has the numbers of the structures that structure s references. No function recurses,
//! so structures may be nested to any depth, and each goes through structures and references a few times at most. The lowest
//! structure on a cycle is told by levels, along which no reference rises. They are found with nothing proved of them, and
//! then checked; levels that failed the check would cost a search from each structure, and no wrong answer.
#![tactic(auto)]

mod cycle;
mod depth_search;
mod falls;
mod levels;
mod reach;
#[cfg(test)]
mod tests;

pub use cycle::lowest_on_cycle;
pub use depth_search::bottom_up;
pub use reach::reached_by_reference;
