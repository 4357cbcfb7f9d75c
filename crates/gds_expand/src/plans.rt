//! The plan of a library, made from the bottom up.

ghost use Rattle.std.specs.Prelude.{◌≡◌, ℕ, ◌^◌, All, Contains, IfOk, [], map, vec_len};
ghost use Rattle.gds_model.specs.PlacedList.{is_on};
ghost use Rattle.gds_model.specs.Placement.{IsPositionWithin};
ghost use Rattle.gds_model.specs.PlaceFaults.{chosen_list};
ghost use Rattle.gds_model.specs.Reach.{elements_at};
ghost use Rattle.gds_expand.specs.Orders.{IsOrder, IsPlanOf};
ghost use Rattle.gds_expand.specs.Rows.{IsRight};
ghost use Rattle.gds_expand.specs.Steps.{mapped, steps_of};

use crate::rows::row_of;
use crate::walk::{PlacedShape, Step, placed_shapes};
use gds_library::Library;
use opc_base::Pick;
use std::alloc::{AllocError, Global};

/// A plan in which no structure places anything.
fn empty_plan<'a>(alloc: Global, count: u32) -> Result<Vec<Vec<Step<'a>>>, AllocError>
    ensures sized { IfOk result (λ plan. vec_len plan ≡ count) }
    ensures empty { IfOk result (λ plan. (s : ℕ) → steps_of plan.items s ≡ []) }
{
    let mut plan = Vec::with_capacity(alloc, count as usize)?;
    for _ in 0..count {
        plan.push(Vec::new(alloc))?;
    }
    Ok(plan)
}

/// What the structures of an order place; the others place nothing.
fn step_plan<'a>(
    alloc: Global,
    library: &'a Library,
    pick: &Pick,
    order: &[usize],
) -> Result<Vec<Vec<Step<'a>>>, AllocError>
    requires order { IsOrder library.now.structures order.now }
    requires right { (s : ℕ) → Contains order.now s → All (IsRight library.now.structures) (elements_at library.now.structures s) }
    ensures { IfOk result (λ plan. IsPlanOf library.now.structures (is_on pick.now.layer pick.now.datatype) order.now plan.items) }
{
    let mut plan = empty_plan(alloc, library.count())?;
    for number in order {
        let structure = library.structure(*number as u32);
        let row = row_of(alloc, library, pick, &plan, structure.elements.as_slice())?;
        plan[*number] = row;
    }
    Ok(plan)
}

/// The chosen shapes that the top places, in order.
pub(crate) fn chosen_shapes<'a>(
    alloc: Global,
    library: &'a Library,
    pick: &Pick,
    order: &[usize],
    top: usize,
) -> Result<Vec<PlacedShape<'a>>, AllocError>
    requires order { IsOrder library.now.structures order.now }
    requires top { Contains order.now top }
    requires right { (s : ℕ) → Contains order.now s → All (IsRight library.now.structures) (elements_at library.now.structures s) }
    ensures chosen { IfOk result (λ shapes. map mapped shapes.items ≡ chosen_list library.now.structures pick.now top) }
    ensures near { IfOk result (λ shapes. All (λ x. IsPositionWithin (2 ^ 50) x.placement.shift) shapes.items) }
{
    let plan = step_plan(alloc, library, pick, order)?;
    placed_shapes(alloc, &plan, top)
}
