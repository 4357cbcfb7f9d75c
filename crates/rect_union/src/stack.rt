//! Slabs of rows, stacked into canonical rectangles.

ghost use Rattle.std.specs.Prelude.{◌≡◌, ◌≤◌, ◌<ℤ◌, ℤ, ◌||◌, length, All, IfOk};
ghost use Rattle.opc_base.specs.Plane.{cover};
ghost use Rattle.rect_union.specs.RowRuns.{AreRuns};
ghost use Rattle.rect_union.specs.Stacks.{AreStacked, HasColumns, IsFirstFrom, PlacesRun, slab_cover};

use crate::run::Run;
use opc_base::Rect;
use std::alloc::{AllocError, Global};

/// A rectangle that may still grow upward: its columns, and its place in the list.
#[derive(Clone, Copy, Debug)]
pub struct Growing {
    pub run: Run,
    pub place: usize,
}

/// Adds the rows from `bottom` up to but not including `top`, in which these runs are covered.
/// Of the rectangles that end at `bottom` those with the same columns grow. The answer has those that end at `top`.
pub fn add_slab(
    alloc: Global,
    rects: &mut Vec<Rect>,
    growing: &[Growing],
    bottom: i32,
    top: i32,
    runs: &[Run],
) -> Result<Vec<Growing>, AllocError>
    requires stacked { AreStacked rects.old.items growing.now bottom }
    requires high { bottom <ℤ top }
    requires runs { AreRuns runs.now }
    ensures stacked { IfOk result (λ grown. AreStacked rects.new.items grown.items top) }
    ensures pixels { IfOk result (λ _. (x y : ℤ) → cover rects.new.items x y ≡ (cover rects.old.items x y || slab_cover bottom top runs.now x y)) }
{
    let mut grown = Vec::with_capacity(alloc, runs.len())?;
    let mut next = 0;
    for run in runs {
        next = first_from(growing, next, run.first);
        let place = place_run(rects, growing, next, bottom, top, *run)?;
        grown.push(Growing { run: *run, place })?;
    }
    Ok(grown)
}

/// Grows the rectangle with the run's columns, if it is the next one, or else adds one; the answer is its place.
fn place_run(
    rects: &mut Vec<Rect>,
    growing: &[Growing],
    next: usize,
    bottom: i32,
    top: i32,
    run: Run,
) -> Result<usize, AllocError>
    requires { All (HasColumns rects.old.items) growing.now }
    ensures { IfOk result (PlacesRun rects.old.items rects.new.items growing.now next bottom top run) }
{
    if next < growing.len() && growing[next].run == run {
        let place = growing[next].place;
        rects[place].y1 = top;
        Ok(place)
    } else {
        let place = rects.len();
        rects.push(Rect {
            x0: run.first,
            y0: bottom,
            x1: run.past,
            y1: top,
        })?;
        Ok(place)
    }
}

/// The first place from `next` on whose columns do not begin left of `x`.
fn first_from(growing: &[Growing], next: usize, x: i32) -> usize
    requires { next ≤ length growing.now }
    ensures { IsFirstFrom growing.now next x result }
{
    let mut place = next;
    while place < growing.len() && growing[place].run.first < x {
        place += 1;
    }
    place
}
