//! References, single and in arrays.
use crate::Points;
use opc_base::Name;

/// The columns and rows of an AREF.
#[derive(Clone, Copy, Debug, PartialEq, Eq)]
pub struct Grid {
    pub columns: i16,
    pub rows: i16,
}

/// An SREF, which has one point, or an AREF, which has a grid and three points. The offset is that of its first record.
/// `flip` is the leftmost bit of STRANS; `mag` and `angle` are the reals of MAG and ANGLE, where these are present.
#[derive(Debug, Drop)]
pub struct Reference {
    pub offset: usize,
    pub name: Name,
    pub flip: bool,
    pub mag: Option<[u8; 8]>,
    pub angle: Option<[u8; 8]>,
    pub array: Option<Grid>,
    pub points: Points,
}
