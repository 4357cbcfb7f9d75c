//! Tables of prefix blocks (Cobb 1998): for each place of a kernel's window the sum of all entries at most as far right
//! and up, for all kernels of a set at once.
//!
//! A lane is the real or the imaginary part of one kernel, so a set of J kernels has 2 J lanes: lane 2 j is the real
//! part of kernel j, and lane 2 j + 1 its imaginary part. The lanes of one place lie side by side.
//!
//! What the tables sum are the entries times the difference of the two transmissions of the mask. So the sum over a set
//! of covered pixels is what they add to the ground, the amplitude where no pixel is covered.
//!
//! ```text
//! let tables = Tables::build(alloc, &kernels)?;
//! let block = tables.block(x - corner.x, y - corner.y, &mut steps);
//! ```
//!
//! Contracts see tables as the set of kernels that they were built from. The clauses that matter: `build` gives the
//! tables of the given set, each number of `block` is that lane's block for every pair of distances, and each number of
//! `ground` is that lane's ground.
#![tactic(auto)]

mod entries;
mod ground_sums;
mod tables;
#[cfg(test)]
mod tests;

pub use tables::Tables;
