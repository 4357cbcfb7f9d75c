//! Lists of columns, merged.

ghost use Rattle.std.specs.Prelude.{◌≡◌, ◌⊎◌, ◌+◌, ◌<◌, ◌≤◌, ◌≤ℤ◌, ◌^◌, ◌++◌, ◌∷◌, [], true, false, length, unsigned_abs, OnOk, IfOk};
ghost use Rattle.rect_union.specs.Columns.{AreInOrder, weight_of};
ghost use Rattle.rect_union.specs.Merges.{Compacts, IsMergeOf, IsNext};

use crate::columns::Column;
use std::alloc::{AllocError, Global};

/// The columns of both lists from left to right; of one owner and one x there is one at most, if the lists have no two.
pub fn merged(alloc: Global, first: &[Column], second: &[Column]) -> Result<Vec<Column>, AllocError>
    requires first { AreInOrder first.now }
    requires second { AreInOrder second.now }
    requires small { weight_of first.now + weight_of second.now < 2 ^ 126 }
    ensures { IfOk result (λ columns. IsMergeOf first.now second.now columns.items) }
{
    let mut columns = Vec::with_capacity(alloc, first.len() + second.len())?;
    let mut i = 0;
    let mut j = 0;
    while i < first.len() || j < second.len() {
        if takes_first(first, i, second, j) {
            push_column(&mut columns, first[i])?;
            i += 1;
        } else {
            push_column(&mut columns, second[j])?;
            j += 1;
        }
    }
    Ok(columns)
}

/// Whether the first list's column is the next one: it is further left, or of the lower owner.
fn takes_first(first: &[Column], i: usize, second: &[Column], j: usize) -> bool
    requires first { i ≤ length first.now }
    requires second { j ≤ length second.now }
    requires some { (i < length first.now) ⊎ (j < length second.now) }
    ensures first { result ≡ true → IsNext first.now i second.now j }
    ensures second { result ≡ false → IsNext second.now j first.now i }
{
    j == second.len() || (i < first.len() && comes_first(&first[i], &second[j]))
}

fn comes_first(first: &Column, second: &Column) -> bool
    ensures left { result ≡ true → first.now.x ≤ℤ second.now.x }
    ensures right { result ≡ false → second.now.x ≤ℤ first.now.x }
{
    first.x < second.x || (first.x == second.x && first.owner <= second.owner)
}

/// Adds a column at the end, together with the last one where that has the same x and owner.
fn push_column(columns: &mut Vec<Column>, column: Column) -> Result<(), AllocError>
    requires { weight_of columns.old.items + unsigned_abs column.sign < 2 ^ 126 }
    ensures { OnOk result (Compacts (columns.old.items ++ column ∷ []) columns.new.items) }
{
    match columns.last() {
        Some(last) if last.x == column.x => push_at_last(columns, column)?,
        _ => columns.push(column)?,
    }
    Ok(())
}

/// The same, which takes the last column off first.
fn push_at_last(columns: &mut Vec<Column>, column: Column) -> Result<(), AllocError>
    requires { weight_of columns.old.items + unsigned_abs column.sign < 2 ^ 126 }
    ensures { OnOk result (Compacts (columns.old.items ++ column ∷ []) columns.new.items) }
{
    match columns.pop() {
        Some(last) if last.x == column.x && last.owner == column.owner => {
            let sign = last.sign + column.sign;
            if sign != 0 {
                columns.push(Column { sign, ..last })?;
            }
        }
        Some(last) => {
            columns.push(last)?;
            columns.push(column)?;
        }
        None => columns.push(column)?,
    }
    Ok(())
}
