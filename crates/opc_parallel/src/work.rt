//! What the parts of the work share.

use fragment::Fragments;
use prefix_tables::Tables;
use tiles::TileIndex;

/// Fragments in tiles, the tables of the kernels, and how many samples each fragment has to a side. Nobody changes them.
#[derive(Clone, Copy)]
pub struct Work<'a> {
    pub index: &'a TileIndex,
    pub fragments: &'a Fragments,
    pub tables: &'a Tables,
    pub samples: u32,
}
