//! A plain judge of flaws, who looks at every pixel of a square.

use opc_base::{NoMemory, Pix, Region};
use print_check::{Flaw, FlawKind, Line};
use std::alloc::Global;

/// The square goes so far from the origin.
const FAR: i32 = 24;

/// A row or a column of two regions.
#[derive(Clone, Copy)]
pub struct Lines<'a> {
    pub target: &'a Region,
    pub printed: &'a Region,
    pub line: Line,
    pub place: i32,
}

impl Lines<'_> {
    fn at(&self, s: i32) -> Pix {
        match self.line {
            Line::Row => Pix {
                x: s,
                y: self.place,
            },
            Line::Column => Pix {
                x: self.place,
                y: s,
            },
        }
    }

    fn is_printed(&self, s: i32) -> bool {
        self.printed.covers(self.at(s))
    }

    fn is_wanted(&self, s: i32) -> bool {
        self.target.covers(self.at(s))
    }

    /// Where the run ends that begins here.
    fn end(&self, from: i32) -> i32 {
        for to in from..FAR {
            if !self.is_printed(to) {
                return to;
            }
        }
        FAR
    }

    /// How many runs of the target a run of printed pixels has, or parts of such.
    fn wanted_runs(&self, from: i32, to: i32) -> u32 {
        let mut runs = 0u32;
        let mut was = false;
        for s in from..to {
            let is = self.is_wanted(s);
            if is && !was {
                runs = runs.saturating_add(1);
            }
            was = is;
        }
        runs
    }

    fn flaw(&self, kind: FlawKind, from: i32, to: i32) -> Flaw {
        Flaw {
            kind,
            line: self.line,
            place: self.place,
            from,
            to,
        }
    }

    fn push_flaws(&self, list: &mut Vec<Flaw>, from: i32, width: i32) -> Result<(), NoMemory> {
        let to = self.end(from);
        let runs = self.wanted_runs(from, to);
        if runs > 0 && i64::from(to) - i64::from(from) < i64::from(width) {
            list.push(self.flaw(FlawKind::Pinch, from, to))?;
        }
        if runs > 1 {
            list.push(self.flaw(FlawKind::Bridge, from, to))?;
        }
        Ok(())
    }

    fn push_line(&self, list: &mut Vec<Flaw>, width: i32) -> Result<(), NoMemory> {
        let mut was = false;
        for from in -FAR..FAR {
            let is = self.is_printed(from);
            if is && !was {
                self.push_flaws(list, from, width)?;
            }
            was = is;
        }
        Ok(())
    }
}

/// The flaws of regions within the square.
pub fn plain_flaws(
    alloc: Global,
    target: &Region,
    printed: &Region,
    width: i32,
) -> Result<Vec<Flaw>, NoMemory> {
    let mut list = Vec::new(alloc);
    for line in [Line::Row, Line::Column] {
        for place in -FAR..FAR {
            let lines = Lines {
                target,
                printed,
                line,
                place,
            };
            lines.push_line(&mut list, width)?;
        }
    }
    Ok(list)
}
