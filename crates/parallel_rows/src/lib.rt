//! Tests of tiles and of the parallel phase, on targets that are cut by the crates below.
//!
//! `scene` makes fragments, tables and tiles of some rectangles, and `sums` adds swept rectangles to sums of 0. `targets`
//! has what several tests cut, and `plain_sums` what the plain pixel sum gives. The other modules have the tests, with
//! numbers that were worked out by hand.
#![tactic(auto)]

#[cfg(test)]
mod part_tests;
#[cfg(test)]
mod plain_sums;
#[cfg(test)]
mod plain_tests;
pub mod scene;
pub mod sums;
#[cfg(test)]
mod targets;
#[cfg(test)]
mod tile_tests;
