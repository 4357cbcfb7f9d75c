//! What it costs to sweep rectangles in strips.

use crate::spread::{column_sides, every, rects_met, row_ends};
use opc_base::Rect;
use std::alloc::{AllocError, Global};

/// The work is estimated for no more strips than 2 to this power.
const MOST_DOUBLINGS: usize = 10;

/// To sort a part takes as long as so many columns of a row.
const SORTING: usize = 50;

/// A part has so many rows and columns for each rectangle that its rows have, as two rows begin with it and two columns.
const COLUMNS: usize = 8;

/// Little work is so many columns for each rectangle, and for each of so many more.
const LITTLE_WORK: usize = 1024;

const SMALL: usize = 65_536;

/// Strips are given up where more than so many times the parts that are expected reach their borders.
const TIMES_EXPECTED: usize = 2;

/// How many rectangles there are, and how they lie.
#[derive(Debug, Drop)]
pub struct Load {
    /// The columns in which one begins or ends, and whether it begins.
    sides: Vec<(i32, bool)>,
    count: usize,
    /// How many rectangles a row has, on the average of the rows in which one begins or ends.
    in_row: usize,
    /// How many a column has.
    in_column: usize,
}

impl Load {
    /// That of these rectangles.
    pub fn of(alloc: Global, rects: &[Rect]) -> Result<Self, AllocError> {
        let ends = row_ends(alloc, rects)?;
        let in_row = rects_met(&ends) / ends.len().max(1);
        let sides = column_sides(alloc, rects)?;
        let in_column = rects_met(&sides) / sides.len().max(1);
        Ok(Load {
            sides,
            count: rects.len(),
            in_row,
            in_column,
        })
    }

    /// Whether a sweep in strips is little work.
    pub fn is_little(&self) -> bool {
        let most = self.count.saturating_add(SMALL);
        self.work(self.best_strips()) <= most.saturating_mul(LITTLE_WORK)
    }

    /// How many rectangles may reach the borders in all, each of which is swept again with the next strip: some times as
    /// many as the parts that the rectangles are expected to be cut into. More show that strips are much work: of stairs,
    /// each step that was swept reaches all later borders, which no average tells.
    pub fn most_again(&self) -> usize {
        let expected = self.parts(self.best_strips());
        expected.saturating_mul(TIMES_EXPECTED)
    }

    /// Borders from the left, with equally many vertical sides from each to the next, for about as many strips as are least
    /// work. The first stands at the first side, with nothing left of it. Since the sides from one to the next are rounded
    /// down, there may be more borders than such strips, but fewer than twice as many.
    pub fn borders(&self, alloc: Global) -> Result<Vec<i32>, AllocError> {
        let step = self.sides.len() / self.best_strips().max(1);
        let borders = every(alloc, &self.sides, step.max(1))?;
        Ok(borders)
    }

    fn best_strips(&self) -> usize {
        let mut best = 1;
        let mut strips: usize = 1;
        for _ in 0..MOST_DOUBLINGS {
            strips = strips.saturating_mul(2);
            if self.work(strips) < self.work(best) {
                best = strips;
            }
        }
        best
    }

    /// About how many columns of rows a sweep in so many strips takes: the more strips, the more parts are sorted, and the
    /// fewer columns their rows have.
    fn work(&self, strips: usize) -> usize {
        let columns = self.in_row.saturating_mul(COLUMNS) / strips.max(1);
        let parts = self.parts(strips);
        parts.saturating_mul(columns.saturating_add(SORTING))
    }

    /// About how many parts so many strips have: each rectangle, and one more for each border that it reaches across.
    fn parts(&self, strips: usize) -> usize {
        let cut = strips.saturating_mul(self.in_column);
        self.count.saturating_add(cut)
    }
}
