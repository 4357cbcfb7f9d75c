//! What copies of a structure are made of.

ghost use Rattle.std.specs.Prelude.{◌≡◌, ℕ, ◌^◌, None, List, [], ◌∷◌, Contains, OnOk};
ghost use Rattle.gds_expand.specs.declared.walk.Step.{Step as StepRead};
ghost use Rattle.gds_model.specs.PlaceFaults.{own_fault};
ghost use Rattle.gds_model.specs.Placement.{IsPositionWithin};
ghost use Rattle.gds_expand.specs.declared.placement.Placement.{Placement as PlacementRead};
ghost use Rattle.gds_expand.specs.declared.walk.Step.TheVariants.{Copy};
ghost use Rattle.gds_expand.specs.Bases.{AddsReference, IsBaseFor};

use crate::copies::{Base, push_copies};
use crate::placement::Placement;
use crate::walk::Step;
use gds_model::{Position, Reference};
use std::alloc::AllocError;

/// The structure itself.
fn own_base(target: usize) -> Base
    ensures { (row : List StepRead) → IsBaseFor row target result }
{
    Base {
        target,
        placement: Placement {
            flip: false,
            turns: 0,
            shift: Position { x: 0, y: 0 },
        },
    }
}

/// What copies of a structure of one step are made of.
fn base_of_step(target: usize, step: Step<'_>) -> Base
    ensures { IsBaseFor (step.entry ∷ []) target result }
{
    match step {
        Step::Shape(_) => own_base(target),
        Step::Copy(through, placement) => Base {
            target: through,
            placement,
        },
    }
}

/// What copies of the structure with this row are made of: the structure that it only copies, or else itself.
fn base_of(target: usize, row: &[Step<'_>]) -> Base
    ensures { IsBaseFor row.now target result }
{
    match row {
        [step] => base_of_step(target, *step),
        _ => own_base(target),
    }
}

/// Adds what a right reference places, from the row of the structure that it names.
pub(crate) fn push_reference(
    reference: &Reference,
    target: usize,
    row: &[Step<'_>],
    steps: &mut Vec<Step<'_>>,
) -> Result<(), AllocError>
    requires right { own_fault reference.now ≡ None }
    requires near { (t : ℕ) (m : PlacementRead) → Contains row.now (Copy t m) → IsPositionWithin (2 ^ 61) m.shift }
    ensures { OnOk result (AddsReference reference.now target row.now steps.old.items steps.new.items) }
{
    if row.is_empty() {
        return Ok(());
    }
    push_copies(reference, &base_of(target, row), steps)
}
