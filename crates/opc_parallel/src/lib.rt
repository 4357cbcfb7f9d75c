//! Adds swept rectangles to the sums that are stored for the samples of fragments, in parts that run side by side.
//!
//! The sums lie tile by tile, and the tiles are divided into parts. Each part has one owner, who adds each rectangle of
//! the list to those of its tiles that the rectangle reaches; no part waits for another.
//!
//! ```text
//! apply_all(rt, workers, samples, &mut sums, &index, &fragments, &tables, &swept, &NoWatch, &mut steps);
//! ```
//!
//! The clauses that matter: `adds` says that each lane of each sample rises by what all rectangles of the list add there,
//! for every number of workers; and `cost` that the steps are the pairs of a rectangle and a tile that it reaches.
//! `apply_one` adds one rectangle alone, and counts every look into the tables.
#![tactic(auto)]

mod fragment_sums;
mod one;
mod parts;
mod tile_sums;
mod work;

pub use one::apply_one;
pub use parts::apply_all;
