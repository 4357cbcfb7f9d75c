//! What a table says of a fragment.

use opc_base::Side;

/// A fragment as it stands: its line and its ends in pixels, its offset, the intensities at the last sample inside and the
/// first outside its target edge, and its error in sixteenths of a pixel.
#[derive(Clone, Copy, Debug, PartialEq, Eq)]
pub struct FragmentLine {
    pub number: u32,
    pub side: Side,
    pub line: i32,
    pub from: i32,
    pub to: i32,
    pub offset: i32,
    pub inside: i64,
    pub outside: i64,
    pub error: i32,
}
