//! Where references place their copies.

ghost use Rattle.std.specs.Prelude.{◌≡◌, ℕ, ◌^◌, ◌<◌, ◌≤◌, ◌≤ℤ◌, pos, unsigned_abs, None, Some, unwrap_or, map, OnOk};
ghost use Rattle.std.specs.List.{range_with_len};
ghost use Rattle.gds_model.specs.PlaceFaults.{own_fault};
ghost use Rattle.gds_model.specs.PlacedList.{columns_of, copy_map, copy_maps, rows_of, shift_at, steps, turns_of};
ghost use Rattle.gds_model.specs.Placement.{IsPositionWithin};
ghost use Rattle.gds_expand.specs.Copies.{AddsCopies};
ghost use Rattle.gds_expand.specs.Placement.{placed};

use crate::placement::Placement;
use crate::references::{Count, displacement, point_of, turns_of};
use crate::shapes::position_of;
use crate::walk::Step;
use gds_model::{Grid, Position, Reference};
use std::alloc::AllocError;

/// So many of the equal steps that a displacement is made of.
fn steps(number: u16, count: &Count, displacement: &Position) -> Position
    requires number { number ≤ unsigned_abs count.now.steps }
    requires near { IsPositionWithin (2 ^ 32) displacement.now }
    ensures value { result ≡ steps number count.now.steps displacement.now }
    ensures near { IsPositionWithin (2 ^ 32) result }
{
    let (x, y) = (displacement.x / count.steps, displacement.y / count.steps);
    Position {
        x: i64::from(number) * x,
        y: i64::from(number) * y,
    }
}

/// Where a copy of an array has the origin of its structure.
fn shift_in(reference: &Reference, grid: &Grid, row: u16, column: u16) -> Position
    requires columns { pos 1 ≤ℤ grid.now.columns }
    requires rows { pos 1 ≤ℤ grid.now.rows }
    requires row { row ≤ unsigned_abs grid.now.rows }
    requires column { column ≤ unsigned_abs grid.now.columns }
    ensures value { result ≡ shift_at reference.now (Some grid.now) row column }
    ensures near { IsPositionWithin (2 ^ 34) result }
{
    let columns = Count {
        steps: i64::from(grid.columns),
    };
    let rows = Count {
        steps: i64::from(grid.rows),
    };
    let along = steps(column, &columns, &displacement(reference, 1));
    let up = steps(row, &rows, &displacement(reference, 2));
    position_of(point_of(reference, 0))
        .shifted(up)
        .shifted(along)
}

fn shift_at(reference: &Reference, array: Option<Grid>, row: u16, column: u16) -> Position
    requires right { own_fault reference.now ≡ None }
    requires same { reference.now.array ≡ array }
    requires row { row < unsigned_abs (rows_of array) }
    requires column { column < unsigned_abs (columns_of array) }
    ensures value { result ≡ shift_at reference.now array row column }
    ensures near { IsPositionWithin (2 ^ 34) result }
{
    match array {
        None => position_of(point_of(reference, 0)),
        Some(grid) => shift_in(reference, &grid, row, column),
    }
}

/// How the copy of a right reference in this row and column is placed.
pub(crate) fn copy_placement(reference: &Reference, row: u16, column: u16) -> Placement
    requires right { own_fault reference.now ≡ None }
    requires row { row < unsigned_abs (rows_of reference.now.array) }
    requires column { column < unsigned_abs (columns_of reference.now.array) }
    ensures value { (p : Position) → placed result p ≡ copy_map reference.now row column p }
    ensures near { IsPositionWithin (2 ^ 34) result.shift }
{
    Placement {
        flip: reference.flip,
        turns: turns_of(reference.angle).unwrap_or(0),
        shift: shift_at(reference, reference.array, row, column),
    }
}

/// The structure that copies of another are made of, and how that other places it.
#[derive(Clone, Copy, Debug)]
pub(crate) struct Base {
    pub target: usize,
    pub placement: Placement,
}

/// Adds the copies of one row of a reference.
fn push_row(
    reference: &Reference,
    row: u16,
    columns: u16,
    base: &Base,
    steps: &mut Vec<Step<'_>>,
) -> Result<(), AllocError>
    requires right { own_fault reference.now ≡ None }
    requires in_array { row < unsigned_abs (rows_of reference.now.array) }
    requires columns { columns ≤ unsigned_abs (columns_of reference.now.array) }
    requires near { IsPositionWithin (2 ^ 61) base.now.placement.shift }
    ensures { OnOk result (AddsCopies (map (λ column. copy_map reference.now row column) (range_with_len 0 columns)) base.now steps.old.items steps.new.items) }
{
    for column in 0..columns {
        let placement = copy_placement(reference, row, column).after(&base.placement);
        steps.push(Step::Copy(base.target, placement))?;
    }
    Ok(())
}

fn columns_of(array: Option<Grid>) -> u16
    ensures { result ≡ unsigned_abs (columns_of array) }
{
    match array {
        None => 1,
        Some(grid) => grid.columns.unsigned_abs(),
    }
}

fn rows_of(array: Option<Grid>) -> u16
    ensures { result ≡ unsigned_abs (rows_of array) }
{
    match array {
        None => 1,
        Some(grid) => grid.rows.unsigned_abs(),
    }
}

/// Adds the copies of a right reference, row by row.
pub(crate) fn push_copies(
    reference: &Reference,
    base: &Base,
    steps: &mut Vec<Step<'_>>,
) -> Result<(), AllocError>
    requires right { own_fault reference.now ≡ None }
    requires near { IsPositionWithin (2 ^ 61) base.now.placement.shift }
    ensures { OnOk result (AddsCopies (copy_maps reference.now) base.now steps.old.items steps.new.items) }
{
    let columns = columns_of(reference.array);
    for row in 0..rows_of(reference.array) {
        push_row(reference, row, columns, base, steps)?;
    }
    Ok(())
}
