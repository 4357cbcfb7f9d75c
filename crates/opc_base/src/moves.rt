//! Moves of fragments, what they sweep, and what a round makes of them.

use crate::broken::Broken;
use crate::plane::Rect;

/// A move of a fragment by so many pixels, outward where positive.
#[derive(Clone, Copy, Debug, PartialEq, Eq)]
pub struct Move {
    pub fragment: u32,
    pub delta: i32,
}

/// The answer to a move.
#[derive(Clone, Copy, Debug, PartialEq, Eq)]
pub enum Moved {
    Done,
    /// Nothing changed: this rule would be broken.
    Refused(Broken),
}

/// The pixels that a move adds to the mask (sign 1) or takes from it (sign -1).
#[derive(Clone, Copy, Debug, PartialEq, Eq)]
pub struct Swept {
    pub rect: Rect,
    pub sign: i8,
}

/// A round: the greatest size and the sum of the sizes of the errors at its start, in sixteenths of a pixel, and how many
/// fragments moved.
#[derive(Clone, Copy, Debug, PartialEq, Eq)]
pub struct RoundSummary {
    pub worst: i32,
    pub total: i64,
    pub moved: u32,
}

/// The greatest size and the sum of the sizes of all errors, in sixteenths of a pixel.
#[derive(Clone, Copy, Debug, PartialEq, Eq)]
pub struct Totals {
    pub worst: i32,
    pub total: i64,
}
