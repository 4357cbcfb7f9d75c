//! Pixels, rectangles of pixels, and the corners of sets of pixels.

/// A pixel, or the lattice point at its lower left. Coordinates are in pixels.
#[derive(Clone, Copy, Debug, PartialEq, Eq)]
pub struct Pix {
    pub x: i32,
    pub y: i32,
}

/// The pixels from `x0` up to but not including `x1`, in the rows from `y0` up to but not including `y1`.
#[derive(Clone, Copy, Debug, PartialEq, Eq)]
pub struct Rect {
    pub x0: i32,
    pub y0: i32,
    pub x1: i32,
    pub y1: i32,
}

/// A lattice point at which the border of a set of pixels turns, with its sign.
#[derive(Clone, Copy, Debug, PartialEq, Eq)]
pub struct Corner {
    pub x: i32,
    pub y: i32,
    pub sign: i8,
}

/// The way that points outward from an edge.
#[derive(Clone, Copy, Debug, PartialEq, Eq)]
pub enum Side {
    Left,
    Right,
    Down,
    Up,
}
