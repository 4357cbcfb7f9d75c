//! The shapes that the chosen layer of a library places, in pixels.
//!
//! A reference puts a copy of a structure somewhere, and an array many. `expand` goes through five stages, each of which may
//! refuse the layer, and recurses nowhere:
//!
//! ```text
//! top ─ references of what it reaches ─ an order from the bottom up ─ points by products ─ plan ─ walk ─ outlines
//!  └ NoTop     └ the lowest wrong one        └ the lowest cycle          └ too many                  └ the first wrong shape
//! ```
//!
//! - A plan has, by structure, a list of steps, each a shape or a copy of what another structure places. A structure that
//!   places nothing has no step, and one that only copies another is passed through: so a plan that places few points has
//!   few steps, and its walk takes few turns.
//! - A path is drawn by its rectangles, in halves of database units.
//!
//! The definitions stand in gds_model.
#![tactic(auto)]

mod bases;
mod copies;
#[cfg(test)]
mod expand_tests;
mod parts;
mod path;
mod placement;
mod plans;
mod points;
mod reached;
mod references;
mod rows;
mod shapes;
mod stages;
#[cfg(test)]
mod tests;
mod walk;
mod wrong;

pub use gds_model::PlaceFault;
pub use opc_base::{Outline, Placed};
pub use stages::expand;
