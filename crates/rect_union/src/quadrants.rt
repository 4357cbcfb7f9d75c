//! Signed quadrants.

ghost use Rattle.std.specs.List.Sorted.{IsPermutation};
ghost use Rattle.rect_union.specs.Quadrants.{AreInRows};

use crate::columns::Column;

/// The pixels of the column in the rows from `y` up.
#[derive(Clone, Copy, Debug, PartialEq, Eq, PartialOrd, Ord)]
pub struct Quadrant {
    pub y: i32,
    pub column: Column,
}

/// Puts the quadrants into rows from the bottom, each from left to right.
pub fn sort_rows(quadrants: &mut Vec<Quadrant>)
    ensures permutation { IsPermutation quadrants.old.items quadrants.new.items }
    ensures rows { AreInRows quadrants.new.items }
{
    quadrants.sort_unstable();
}
