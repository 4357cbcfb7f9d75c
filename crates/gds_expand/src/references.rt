//! What is wrong with references, and where they place their copies.

ghost use Rattle.std.specs.Prelude.{◌≡◌, ◌^◌, ◌<◌, ◌≤ℤ◌, pos, Some, IfSome};
ghost use Rattle.std.specs.Int.RustNames.{int_rem};
ghost use Rattle.std.specs.Ordering.{int_eq};
ghost use Rattle.gds_model.specs.Outlines.{position_of};
ghost use Rattle.gds_model.specs.PlaceFaults.{are_steps, is_regular, is_unit, own_fault};
ghost use Rattle.gds_model.specs.PlacedList.{displacement, point_of, turns_of};
ghost use Rattle.gds_model.specs.Placement.{IsPositionWithin};

use crate::shapes::position_of;
use gds_model::{Grid, PlaceFault, Position, Reference};
use gds_records::{Point, is_one, quarter_turns};

fn is_unit(mag: Option<[u8; 8]>) -> bool
    ensures { result ≡ is_unit mag }
{
    match mag {
        None => true,
        Some(real) => is_one(real),
    }
}

/// The quarter turns of a reference with this angle: none where it has no angle.
pub(crate) fn turns_of(angle: Option<[u8; 8]>) -> Option<u8>
    ensures value { result ≡ turns_of angle }
    ensures few { IfSome result (λ turns. turns < 4) }
{
    match angle {
        None => Some(0),
        Some(real) => quarter_turns(real),
    }
}

pub(crate) fn point_of(reference: &Reference, i: usize) -> Point
    ensures { result ≡ point_of reference.now i }
{
    match reference.points.as_slice().get(i) {
        Some(point) => *point,
        None => Point { x: 0, y: 0 },
    }
}

/// From the first point of an array to another.
pub(crate) fn displacement(reference: &Reference, i: usize) -> Position
    ensures value { result ≡ displacement reference.now i }
    ensures near { IsPositionWithin (2 ^ 32) result }
{
    let from = position_of(point_of(reference, 0));
    let to = position_of(point_of(reference, i));
    Position {
        x: to.x - from.x,
        y: to.y - from.y,
    }
}

/// How many steps an array has in one of its directions.
#[derive(Clone, Copy, Debug)]
pub(crate) struct Count {
    pub steps: i64,
    pub ghost positive: { pos 1 ≤ℤ steps },
}

fn is_multiple(n: i64, count: &Count) -> bool
    ensures { result ≡ int_eq (int_rem n count.now.steps) (pos 0) }
{
    n % count.steps == 0
}

/// Whether a displacement is so many equal whole steps.
fn are_steps(count: &Count, displacement: &Position) -> bool
    ensures { result ≡ are_steps count.now.steps displacement.now }
{
    is_multiple(displacement.x, count) && is_multiple(displacement.y, count)
}

/// What is wrong with a reference that names a structure.
pub(crate) fn own_fault(reference: &Reference) -> Option<PlaceFault>
    ensures { result ≡ own_fault reference.now }
{
    let offset = reference.offset;
    if !is_unit(reference.mag) {
        Some(PlaceFault::BadMag { offset })
    } else if turns_of(reference.angle).is_none() {
        Some(PlaceFault::BadAngle { offset })
    } else if !is_regular(reference, reference.array) {
        Some(PlaceFault::BadArray { offset })
    } else {
        None
    }
}

/// Whether an array has columns and rows, with whole steps between them.
fn is_regular(reference: &Reference, array: Option<Grid>) -> bool
    ensures { result ≡ is_regular reference.now array }
{
    match array {
        None => true,
        Some(grid) => is_regular_grid(reference, &grid),
    }
}

fn is_regular_grid(reference: &Reference, grid: &Grid) -> bool
    ensures { result ≡ is_regular reference.now (Some grid.now) }
{
    if grid.columns < 1 || grid.rows < 1 {
        return false;
    }
    let columns = Count {
        steps: i64::from(grid.columns),
    };
    let rows = Count {
        steps: i64::from(grid.rows),
    };
    are_steps(&columns, &displacement(reference, 1))
        && are_steps(&rows, &displacement(reference, 2))
}
