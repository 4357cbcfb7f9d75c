//! The steps of a structure, from those of the structures that it references.

ghost use Rattle.std.specs.Prelude.{◌≡◌, ℕ, ◌^◌, Bool, List, Contains, All, IfOk, OnOk, length};
ghost use Rattle.gds_model.specs.declared.elements.Structure.{Structure};
ghost use Rattle.gds_model.specs.declared.shape.Shape.{Shape as ShapeRead};
ghost use Rattle.gds_model.specs.declared.elements.Element.TheVariants as element_kind;
ghost use Rattle.gds_model.specs.PlacedList.{is_on};
ghost use Rattle.gds_model.specs.Placement.{IsPositionWithin};
ghost use Rattle.gds_expand.specs.declared.placement.Placement.{Placement as PlacementRead};
ghost use Rattle.gds_expand.specs.declared.walk.Step.TheVariants.{Copy};
ghost use Rattle.gds_expand.specs.Rows.{AddsElement, IsRight, IsRow};
ghost use Rattle.gds_expand.specs.Steps.{Plan, steps_of};

use crate::bases::push_reference;
use crate::parts::{is_chosen, number_of};
use crate::walk::Step;
use gds_library::Library;
use gds_model::{Element, Reference, Shape};
use opc_base::Pick;
use std::alloc::{AllocError, Global};

/// Adds a shape, where it is on the chosen layer.
fn push_shape<'a>(
    pick: &Pick,
    shape: &'a Shape,
    steps: &mut Vec<Step<'a>>,
) -> Result<(), AllocError>
    ensures { OnOk result ((library : List Structure) (plan : Plan) → AddsElement library (is_on pick.now.layer pick.now.datatype) plan (element_kind.Shape shape.now) steps.old.items steps.new.items) }
{
    if is_chosen(pick, shape) {
        steps.push(Step::Shape(shape))?;
    }
    Ok(())
}

/// Adds what a right reference places.
fn push_named(
    library: &Library,
    plan: &[Vec<Step<'_>>],
    reference: &Reference,
    steps: &mut Vec<Step<'_>>,
) -> Result<(), AllocError>
    requires right { IsRight library.now.structures (element_kind.Reference reference.now) }
    requires sized { length plan.now ≡ length library.now.structures }
    requires near { (s t : ℕ) (m : PlacementRead) → Contains (steps_of plan.now s) (Copy t m) → IsPositionWithin (2 ^ 61) m.shift }
    ensures { OnOk result ((chosen : ShapeRead → Bool) → AddsElement library.now.structures chosen plan.now (element_kind.Reference reference.now) steps.old.items steps.new.items) }
{
    match number_of(library, &reference.name) {
        None => Ok(()),
        Some(target) => push_reference(reference, target, &plan[target], steps),
    }
}

/// Adds what an element places.
fn push_element<'a>(
    library: &Library,
    pick: &Pick,
    plan: &[Vec<Step<'_>>],
    element: &'a Element,
    steps: &mut Vec<Step<'a>>,
) -> Result<(), AllocError>
    requires right { IsRight library.now.structures element.now }
    requires sized { length plan.now ≡ length library.now.structures }
    requires near { (s t : ℕ) (m : PlacementRead) → Contains (steps_of plan.now s) (Copy t m) → IsPositionWithin (2 ^ 61) m.shift }
    ensures { OnOk result (AddsElement library.now.structures (is_on pick.now.layer pick.now.datatype) plan.now element.now steps.old.items steps.new.items) }
{
    match element {
        Element::Shape(shape) => push_shape(pick, shape, steps),
        Element::Reference(reference) => push_named(library, plan, reference, steps),
    }
}

/// The row of a structure with these elements, from the rows of the structures that they reference.
pub(crate) fn row_of<'a>(
    alloc: Global,
    library: &Library,
    pick: &Pick,
    plan: &[Vec<Step<'_>>],
    elements: &'a [Element],
) -> Result<Vec<Step<'a>>, AllocError>
    requires right { All (IsRight library.now.structures) elements.now }
    requires sized { length plan.now ≡ length library.now.structures }
    requires near { (s t : ℕ) (m : PlacementRead) → Contains (steps_of plan.now s) (Copy t m) → IsPositionWithin (2 ^ 61) m.shift }
    ensures { IfOk result (λ row. IsRow library.now.structures (is_on pick.now.layer pick.now.datatype) plan.now elements.now row.items) }
{
    let mut row = Vec::new(alloc);
    for element in elements {
        push_element(library, pick, plan, element, &mut row)?;
    }
    Ok(row)
}
