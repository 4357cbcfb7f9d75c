//! The signed columns of a row, and the runs that they cover.

ghost use Rattle.std.specs.Prelude.{◌≡◌, ◌≢◌, ℕ, ◌+◌, ◌<◌, ◌^◌, ◌↔◌, ◌⊎◌, ℤ, length, get_or, vec_len, IsTrue, IfOk, OnOk};
ghost use Rattle.rect_union.specs.Columns.{AreClosed, AreInOrder, EndsColumn, HaveOwnersBelow, row_cover, weight_of};
ghost use Rattle.rect_union.specs.RowRuns.{AreRuns, in_runs};
ghost use Rattle.rect_union.specs.Windings.{AreZero};

use crate::run::Run;
use crate::runs::RunBuilder;
use crate::windings::Windings;
use std::alloc::{AllocError, Global};

/// The pixels of a row from `x` to the right, counted `sign` times for the owner.
#[derive(Clone, Copy, Debug, PartialEq, Eq, PartialOrd, Ord)]
pub struct Column {
    pub x: i32,
    pub owner: usize,
    pub sign: i128,
}

/// The runs of a row in which some owner's count is not 0. The counts are 0 before and after.
pub fn runs_of(
    alloc: Global,
    columns: &[Column],
    windings: &mut Windings,
) -> Result<Vec<Run>, AllocError>
    requires order { AreInOrder columns.now }
    requires owners { HaveOwnersBelow (vec_len windings.old.counts) columns.now }
    requires closed { AreClosed columns.now }
    requires small { weight_of columns.now < 2 ^ 126 }
    requires zero { AreZero windings.old.counts.items }
    ensures size { vec_len windings.new.counts ≡ vec_len windings.old.counts }
    ensures zero { OnOk result (AreZero windings.new.counts.items) }
    ensures runs { IfOk result (λ runs. AreRuns runs.items) }
    ensures pixels { IfOk result (λ runs. (x : ℤ) → in_runs runs.items x ≡ row_cover (vec_len windings.old.counts) columns.now x) }
{
    let mut builder = RunBuilder::new(alloc);
    for (index, column) in columns.iter().enumerate() {
        windings.add(column.owner, column.sign);
        if ends_column(columns, index) {
            builder.switch(column.x, windings.is_covered())?;
        }
    }
    Ok(builder.runs)
}

/// Whether the next column, if there is one, stands at another x.
fn ends_column(columns: &[Column], index: usize) -> bool
    requires { index < length columns.now }
    ensures { IsTrue result ↔ EndsColumn columns.now index }
{
    index + 1 == columns.len() || columns[index + 1].x != columns[index].x
}
