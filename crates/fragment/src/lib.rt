//! The fragments of a target: its edges, cut into pieces that a correction moves one by one.
//!
//! `Fragments` is the list of a region's fragments, numbered edge by edge: where each lies at given offsets (`line`,
//! `ends`), where its error is measured (`site`), and what its move adds to the mask or takes from it (`swept`). A
//! list of offsets has one number for each fragment, how far it has moved outward, in pixels from -128 to 128.
//!
//! ```text
//! let before = fragments.line(i, &offsets);
//! let swept = fragments.swept(i, &offsets, offsets[i as usize] + 1);
//! ```
//!
//! The clause `counts` of `swept` is the law of a move: the count of each pixel changes by the swept rectangle and its
//! sign, whatever the fragment's neighbours did before.
#![tactic(auto)]

mod area;
mod area_tree;
mod curve;
mod fragments;
mod near;
mod region_cut;
mod shared;
mod site;
#[cfg(test)]
mod tests;

pub use cutting::{CutFault, MAX_FRAGMENTS};
pub use fragments::Fragments;
pub use near::{Meets, Near, Within};
pub use outline_model::{Fragment, Join};
pub use region_cut::cut;
