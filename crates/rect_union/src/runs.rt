//! The covered runs of a row.

ghost use Rattle.std.specs.Prelude.{◌≡◌, ◌<ℤ◌, ℤ, false, int_le, is_some, if◌then◌else◌, OnOk};
ghost use Rattle.rect_union.specs.RowRuns.{EndsBefore, IsRunBuilder, is_on};

use crate::run::Run;
use std::alloc::{AllocError, Global};

/// Collects the runs of a row from left to right.
#[derive(Debug, Drop)]
pub struct RunBuilder {
    pub runs: Vec<Run>,
    pub started: Option<i32>,
}

impl RunBuilder {
    /// A row without runs.
    pub fn new(alloc: Global) -> Self
        ensures valid { IsRunBuilder result }
        ensures fresh { (at : ℤ) → EndsBefore result at }
        ensures closed { result.started ≡ None }
        ensures off { (x : ℤ) → is_on result x ≡ false }
    {
        RunBuilder {
            runs: Vec::new(alloc),
            started: None,
        }
    }

    /// Turns the row on or off from `at` to the right.
    pub fn switch(&mut self, at: i32, on: bool) -> Result<(), AllocError>
        requires valid { IsRunBuilder self.old }
        requires later { EndsBefore self.old at }
        ensures valid { OnOk result (IsRunBuilder self.new) }
        ensures upto { OnOk result ((next : ℤ) → at <ℤ next → EndsBefore self.new next) }
        ensures state { OnOk result (is_some self.new.started ≡ on) }
        ensures set { OnOk result ((x : ℤ) → is_on self.new x ≡ (if int_le at x then on else is_on self.old x)) }
    {
        match self.started {
            None => {
                if on {
                    self.started = Some(at);
                }
            }
            Some(first) => {
                if !on {
                    self.runs.push(Run { first, past: at })?;
                    self.started = None;
                }
            }
        }
        Ok(())
    }
}
