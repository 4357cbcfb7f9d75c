use opc_base::Side;

/// A maximal straight segment between a set of pixels and the pixels outside.
///
/// An end is convex where one of the four pixels round it is in the set, and concave where three are.
#[derive(Clone, Copy, PartialEq, Eq, Debug)]
pub struct Edge {
    /// The side of the set on which the edge lies.
    pub side: Side,
    /// Its x where it is vertical, its y where it is horizontal, in pixels.
    pub line: i32,
    /// Its low end along the line.
    pub lo: i32,
    /// Its high end along the line.
    pub hi: i32,
    /// Whether its low end is convex.
    pub low_convex: bool,
    /// Whether its high end is convex.
    pub high_convex: bool,
}
