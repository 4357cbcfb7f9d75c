use opc_base::Side;

/// A piece of an edge: a fragment that is not joined yet.
#[derive(Clone, Copy, PartialEq, Eq, Debug)]
pub struct EdgePiece {
    /// The side of the set on which the edge lies.
    pub side: Side,
    /// The edge's line, in pixels.
    pub line: i32,
    /// The low end along the line.
    pub lo: i32,
    /// The high end along the line.
    pub hi: i32,
}
