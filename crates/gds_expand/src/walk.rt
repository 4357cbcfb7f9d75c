//! The shapes that a structure places, without recursion.

ghost use Rattle.std.specs.Prelude.{◌≡◌, ℕ, ◌^◌, ◌<◌, length, map, All, IfOk};
ghost use Rattle.gds_model.specs.Placement.{IsPositionWithin};
ghost use Rattle.gds_expand.specs.Steps.{IsRanked, mapped, plan_places};

use crate::placement::Placement;
use gds_model::{Position, Shape};
use std::alloc::{AllocError, Global};

/// What a structure places: a shape, or a copy of what another structure places.
#[derive(Clone, Copy, Debug)]
pub(crate) enum Step<'a> {
    Shape(&'a Shape),
    Copy(usize, Placement),
}

/// A shape, as a chain of references places it.
#[derive(Clone, Copy, Debug)]
pub(crate) struct PlacedShape<'a> {
    pub shape: &'a Shape,
    pub placement: Placement,
}

/// The steps of a structure from `next` on are still to be placed.
#[derive(Clone, Copy, Debug)]
struct Task {
    structure: usize,
    next: usize,
    placement: Placement,
}

/// The shapes that the top places, in order.
pub(crate) fn placed_shapes<'a>(
    alloc: Global,
    plan: &[Vec<Step<'a>>],
    top: usize,
) -> Result<Vec<PlacedShape<'a>>, AllocError>
    requires ranked { (rank : ℕ → ℕ) × IsRanked plan.now rank × (rank top < 2 ^ 16) }
    requires top { top < length plan.now }
    ensures placed { IfOk result (λ shapes. map mapped shapes.items ≡ plan_places plan.now (2 ^ 16) top) }
    ensures near { IfOk result (λ shapes. All (λ x. IsPositionWithin (2 ^ 50) x.placement.shift) shapes.items) }
{
    let mut shapes = Vec::new(alloc);
    let mut tasks = Vec::new(alloc);
    let placement = Placement {
        flip: false,
        turns: 0,
        shift: Position { x: 0, y: 0 },
    };
    tasks.push(Task {
        structure: top,
        next: 0,
        placement,
    })?;
    'walk: while let Some(task) = tasks.pop() {
        let Task {
            structure,
            next,
            placement,
        } = task;
        if let Some(step) = plan[structure].get(next) {
            tasks.push(Task {
                structure,
                next: next + 1,
                placement,
            })?;
            match *step {
                Step::Shape(shape) => shapes.push(PlacedShape { shape, placement })?,
                Step::Copy(target, inner) => tasks.push(Task {
                    structure: target,
                    next: 0,
                    placement: placement.after(&inner),
                })?,
            }
        }
    }
    Ok(shapes)
}
