//! A mask rule that is broken, and where.

use crate::plane::Pix;

/// The mask rules.
#[derive(Clone, Copy, Debug, PartialEq, Eq)]
pub enum RuleName {
    /// Outlines neither cross nor touch along a line.
    M0,
    /// A covered run in a row or a column has the least width.
    M1,
    /// An uncovered run between covered pixels has the least space.
    M2,
    /// No two covered pixels meet at a corner only.
    M3,
    /// A fragment's low end is less than its high end.
    M4,
    /// An offset is within its greatest inward and outward one.
    M5,
}

/// Where a rule is broken: at a pixel, or at a fragment's number.
#[derive(Clone, Copy, Debug, PartialEq, Eq)]
pub enum Place {
    Pixel(Pix),
    Fragment(u32),
}

/// A broken rule.
#[derive(Clone, Copy, Debug, PartialEq, Eq)]
pub struct Broken {
    pub rule: RuleName,
    pub at: Place,
}
