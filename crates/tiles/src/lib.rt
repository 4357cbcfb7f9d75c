//! The fragments of a target in square tiles.
//!
//! What is stored for fragments lies tile by tile. A swept rectangle changes only what is stored in the tiles that it
//! reaches, and tiles can be divided among workers that share nothing that changes. A tile is a square of one side, and a
//! fragment stands in the tile of its sample -1. To find what a tile sees, its square is grown by a halo on all sides.
//!
//! ```text
//! let index = TileIndex::build(alloc, &fragments, side, reach + samples)?;
//! for tile in index.touched(&rect) {
//!     let square = index.square(tile);
//! }
//! ```
//!
//! Contracts see an index as its side, its halo and the list of its tiles. The clauses that matter: `build` gives the
//! tiling of the fragments, each of which stands in one tile, once; and `touched` gives exactly the tiles whose grown
//! square meets the rectangle, as `first_met` gives the first of some of them.
#![tactic(auto)]

mod groups;
mod index;
mod key;
mod places;
#[cfg(test)]
mod tests;
mod touched;

pub use index::{Tile, TileIndex};
pub use touched::{Touched, meet};
