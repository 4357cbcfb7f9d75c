//! Shapes, as a file has them.
use crate::Points;

/// What a shape is. The four numbers of a path are those of its PATHTYPE, WIDTH, BGNEXTN and ENDEXTN records, each 0
/// where the record is absent.
#[derive(Clone, Copy, Debug, PartialEq, Eq)]
pub enum ShapeKind {
    Boundary,
    Path {
        ends: i16,
        width: i32,
        begin: i32,
        end: i32,
    },
    Box,
}

/// A BOUNDARY, PATH or BOX. The offset is that of its first record, the datatype of a BOX is its BOXTYPE.
#[derive(Debug, Drop)]
pub struct Shape {
    pub offset: usize,
    pub kind: ShapeKind,
    pub layer: u16,
    pub datatype: u16,
    pub points: Points,
}
