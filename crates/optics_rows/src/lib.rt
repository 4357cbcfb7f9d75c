//! Worked examples of the image without a look at pixels, as tests: tables, signed corners and lanes by direct calls.
//!
//! `sets` makes sets of kernels, `seeds` sets and rectangles from a seed, `regions` the regions of rectangles, and
//! `images` sums the image of a region from tables. Each other module has the rows of one subject, with numbers that were
//! found by hand, or by the plain pixel sum.
#![tactic(auto)]

#[cfg(test)]
mod corner_rows;
#[cfg(test)]
mod image_rows;
#[cfg(test)]
mod images;
#[cfg(test)]
mod lane_rows;
#[cfg(test)]
mod regions;
#[cfg(test)]
mod seeded_rows;
pub mod seeds;
#[cfg(test)]
mod sets;
