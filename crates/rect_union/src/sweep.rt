//! A sweep over the rows of signed quadrants, from the bottom.

ghost use Rattle.std.specs.Prelude.{◌≡◌, ◌<◌, ◌+◌, ◌^◌, ◌<ℤ◌, ◌+ℤ◌, ℕ, ℤ, pos, length, get_or, vec_len, [], IfOk, IfNone, IfSome, OnOk};
ghost use Rattle.rect_union.specs.declared.quadrants.Quadrant.{Quadrant};
ghost use Rattle.opc_base.specs.Canonical.{AreCanonical};
ghost use Rattle.rect_union.specs.Columns.{AreInOrder, HaveOwnersBelow, owner_total, weight_of};
ghost use Rattle.opc_base.specs.Plane.{cover};
ghost use Rattle.rect_union.specs.Quadrants.{AreInRows, HaveQuadrantOwnersBelow, column_total, is_wound, quadrant_weight, row_total};
ghost use Rattle.opc_base.specs.Target.{HasMoreCornersThan};
ghost use Rattle.rect_union.specs.Sweeps.{IfSwept, IfTooLong, IfTooMany, IsSweepAt, Raises};

use crate::columns::{Column, runs_of};
use crate::merge::merged;
use crate::quadrants::Quadrant;
use crate::stack::{Growing, add_slab};
use crate::windings::Windings;
use opc_base::Rect;
use std::alloc::{AllocError, Global};

/// The state of a sweep at a height: the columns of the row below it, and the rectangles so far.
#[derive(Debug, Drop)]
pub struct Sweep {
    pub windings: Windings,
    pub columns: Vec<Column>,
    pub rects: Vec<Rect>,
    pub growing: Vec<Growing>,
}

/// How a sweep came out.
#[derive(Debug, Drop)]
pub enum SweepEnd {
    /// With all rectangles.
    Swept(Vec<Rect>),
    /// The set has more corners than were asked for.
    TooMany,
    /// The rows have more columns than were asked for, or more rectangles reach the borders of strips.
    TooLong,
}

/// The canonical rectangles of the pixels round which the quadrants of some owner do not cancel.
pub fn region_of_quadrants(
    alloc: Global,
    owners: usize,
    quadrants: &[Quadrant],
) -> Result<Vec<Rect>, AllocError>
    requires order { AreInRows quadrants.now }
    requires owners { HaveQuadrantOwnersBelow owners quadrants.now }
    requires small { quadrant_weight quadrants.now < 2 ^ 126 }

    // far right and far up nothing is left
    requires closed_right { (owner : ℕ) (y : ℤ) → row_total quadrants.now owner y ≡ pos 0 }
    requires closed_above { (owner : ℕ) (x : ℤ) → column_total quadrants.now owner x ≡ pos 0 }

    ensures canonical { IfOk result (λ rects. AreCanonical rects.items) }
    ensures pixels { IfOk result (λ rects. (x y : ℤ) → cover rects.items x y ≡ is_wound owners quadrants.now x y) }
{
    match region_up_to(alloc, owners, quadrants, usize::MAX)? {
        Some(rects) => Ok(rects),
        None => Ok(Vec::new(alloc)),
    }
}

/// The same, or none where the set has more corners than `most`.
pub fn region_up_to(
    alloc: Global,
    owners: usize,
    quadrants: &[Quadrant],
    most: usize,
) -> Result<Option<Vec<Rect>>, AllocError>
    requires order { AreInRows quadrants.now }
    requires owners { HaveQuadrantOwnersBelow owners quadrants.now }
    requires small { quadrant_weight quadrants.now < 2 ^ 126 }
    requires closed_right { (owner : ℕ) (y : ℤ) → row_total quadrants.now owner y ≡ pos 0 }
    requires closed_above { (owner : ℕ) (x : ℤ) → column_total quadrants.now owner x ≡ pos 0 }
    ensures canonical { IfOk result (λ found. IfSome found (λ rects. AreCanonical rects.items)) }
    ensures pixels { IfOk result (λ found. IfSome found (λ rects. (x y : ℤ) → cover rects.items x y ≡ is_wound owners quadrants.now x y)) }
    ensures stopped { IfOk result (λ found. IfNone found (HasMoreCornersThan most (is_wound owners quadrants.now))) }
    ensures limit { IfOk result (λ found. IfNone found (most + 1 < 2 ^ 64)) }
{
    match region_within(alloc, owners, quadrants, most, usize::MAX)? {
        SweepEnd::Swept(rects) => Ok(Some(rects)),
        SweepEnd::TooMany => Ok(None),
        SweepEnd::TooLong => Ok(None),
    }
}

/// The same, as long as the rows have no more columns than `columns` in all. The sweep stops once more rectangles than
/// `most` stand, each of which has a corner of its own on its lower side.
pub fn region_within(
    alloc: Global,
    owners: usize,
    quadrants: &[Quadrant],
    most: usize,
    columns: usize,
) -> Result<SweepEnd, AllocError>
    requires order { AreInRows quadrants.now }
    requires owners { HaveQuadrantOwnersBelow owners quadrants.now }
    requires small { quadrant_weight quadrants.now < 2 ^ 126 }
    requires closed_right { (owner : ℕ) (y : ℤ) → row_total quadrants.now owner y ≡ pos 0 }
    requires closed_above { (owner : ℕ) (x : ℤ) → column_total quadrants.now owner x ≡ pos 0 }
    ensures canonical { IfOk result (λ end. IfSwept end AreCanonical) }
    ensures pixels { IfOk result (λ end. IfSwept end (λ rects. (x y : ℤ) → cover rects x y ≡ is_wound owners quadrants.now x y)) }
    ensures stopped { IfOk result (λ end. IfTooMany end (HasMoreCornersThan most (is_wound owners quadrants.now))) }
    ensures limit { IfOk result (λ end. IfTooMany end (most + 1 < 2 ^ 64)) }
    ensures long { IfOk result (λ end. IfTooLong end (columns + 1 < 2 ^ 64)) }
{
    let mut state = Sweep::new(alloc, owners)?;
    let mut row = Vec::new(alloc);
    let mut bottom = first_row(quadrants);
    let mut met: usize = 0;
    for quadrant in quadrants {
        if quadrant.y != bottom {
            state.raise(alloc, &row, bottom, quadrant.y)?;
            if state.rects.len() > most {
                return Ok(SweepEnd::TooMany);
            }
            met = met.saturating_add(state.columns.len());
            if met > columns {
                return Ok(SweepEnd::TooLong);
            }
            row.clear();
            bottom = quadrant.y;
        }
        row.push(quadrant.column)?;
    }
    Ok(SweepEnd::Swept(state.rects))
}

fn first_row(quadrants: &[Quadrant]) -> i32
    ensures { (d : Quadrant) → 0 < length quadrants.now → result ≡ (get_or quadrants.now 0 d).y }
{
    match quadrants.first() {
        Some(first) => first.y,
        None => 0,
    }
}

impl Sweep {
    fn new(alloc: Global, owners: usize) -> Result<Self, AllocError>
        ensures valid { IfOk result (λ state. (y : ℤ) → IsSweepAt state y) }
        ensures size { IfOk result (λ state. vec_len state.windings.counts ≡ owners) }
        ensures columns { IfOk result (λ state. state.columns.items ≡ []) }
        ensures rects { IfOk result (λ state. state.rects.items ≡ []) }
    {
        Ok(Sweep {
            windings: Windings::new(alloc, owners)?,
            columns: Vec::new(alloc),
            rects: Vec::new(alloc),
            growing: Vec::new(alloc),
        })
    }

    /// Adds the columns of a row, and the pixels that all columns cover from there to the next row.
    fn raise(
        &mut self,
        alloc: Global,
        row: &[Column],
        bottom: i32,
        top: i32,
    ) -> Result<(), AllocError>
        requires valid { IsSweepAt self.old bottom }
        requires high { bottom <ℤ top }
        requires order { AreInOrder row.now }
        requires owners { HaveOwnersBelow (vec_len self.old.windings.counts) row.now }
        requires closed { (owner : ℕ) → owner_total self.old.columns.items owner +ℤ owner_total row.now owner ≡ pos 0 }
        requires small { weight_of self.old.columns.items + weight_of row.now < 2 ^ 126 }
        ensures valid { OnOk result (IsSweepAt self.new top) }
        ensures pixels { OnOk result (Raises self.old self.new row.now bottom top) }
    {
        self.columns = merged(alloc, &self.columns, row)?;
        let runs = runs_of(alloc, &self.columns, &mut self.windings)?;
        self.growing = add_slab(alloc, &mut self.rects, &self.growing, bottom, top, &runs)?;
        Ok(())
    }
}
