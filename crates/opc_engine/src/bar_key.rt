//! Which number of scatter bars doesn't suit the mask rules.

/// A number of scatter bars.
#[derive(Clone, Copy, Debug, PartialEq, Eq)]
pub enum BarKey {
    /// The distance of a bar from its edge.
    Gap,
    /// The width of a bar.
    Width,
    /// The least length of an edge that has a bar.
    Min,
}
