//! The stages of an expansion, each of which answers its fault.

ghost use Rattle.std.specs.Prelude.{◌≡◌, ℕ, ◌⊎◌, ◌<◌, ◌≤◌, All, Contains, IfOk, IfErr, IsOk, IsErrOf, OnOk, Some, List, length};
ghost use Rattle.opc_base.specs.Cover.{IsPlaced};
ghost use Rattle.opc_base.specs.declared.outline.Outline.{Outline};
ghost use Rattle.gds_model.specs.Library.{HasAscendingOffsets};
ghost use Rattle.gds_model.specs.declared.place_fault.PlaceFault.TheVariants as faults;
ghost use Rattle.gds_model.specs.PlaceFaults.{AreReferencesRight, IsFaultFrom, IsPlaceFault, IsPlacement, IsReferenceFault, PlacesAll, saturated};
ghost use Rattle.gds_model.specs.Reach.{number_of};
ghost use Rattle.gds_expand.specs.Orders.{IsGraphOf, IsOrderFrom};
ghost use Rattle.gds_expand.specs.Points.{IsOrderOf, points_in};
ghost use Rattle.structure_graph.specs.Graph.{IsClosed, IsLowestOnCycle, Reaches, ReachesByReference};

use crate::parts::{graph_of, number_of, part_plan};
use crate::plans::chosen_shapes;
use crate::points::{Part, point_counts};
use crate::reached::reached_from;
use crate::shapes::outlines_of;
use crate::wrong::lowest_wrong;
use gds_library::Library;
use gds_model::PlaceFault;
use opc_base::{Pick, Placed};
use std::alloc::{AllocError, Global};
use structure_graph::{bottom_up, lowest_on_cycle};

/// The most points that placed shapes may have.
const MAX_POINTS: u64 = 1_048_576;

/// The shapes on the chosen layer and datatype that the chosen top places, in pixels of the chosen grid, or the fault of
/// the first of five stages that has one: no top, a wrong reference, a cycle, too many points, a wrong shape.
///
/// Elements go in the order of the file, and the copies of an array row by row. A reference counts where the top reaches
/// its structure. Offsets are those of elements in the file.
pub fn expand(alloc: Global, library: &Library, pick: &Pick) -> Result<Placed, PlaceFault>
    ensures placement { IfOk result (λ placed. IsPlacement library.now.structures pick.now placed) }
    ensures whole { IfOk result (λ placed. PlacesAll library.now.structures pick.now placed) }
    ensures placed { IfOk result (λ placed. All IsPlaced placed) }
    ensures fault { IfErr result (λ fault. (fault ≡ faults.NoMemory) ⊎ IsPlaceFault library.now.structures pick.now fault) }
    ensures places { (outlines : List Outline) → IsPlacement library.now.structures pick.now outlines
        → IsOk result ⊎ IsErrOf result faults.NoMemory }
    ensures refuses { (fault : PlaceFault) → IsPlaceFault library.now.structures pick.now fault
        → IsErrOf result fault ⊎ IsErrOf result faults.NoMemory }
{
    expand_top(alloc, library, pick)
}

/// The five stages. The offsets of the library's elements ascend.
fn expand_top(alloc: Global, library: &Library, pick: &Pick) -> Result<Placed, PlaceFault>
    ensures placement { IfOk result (λ placed. IsPlacement library.now.structures pick.now placed) }
    ensures placed { IfOk result (λ placed. All IsPlaced placed) }
    ensures fault { IfErr result (λ fault. (fault ≡ faults.NoMemory) ⊎ IsPlaceFault library.now.structures pick.now fault) }
    ensures offsets { HasAscendingOffsets library.now.structures }
{
    match number_of(library, &pick.top) {
        None => Err(PlaceFault::NoTop),
        Some(top) => expand_from(alloc, library, pick, top),
    }
}

/// The stages after the first.
fn expand_from(
    alloc: Global,
    library: &Library,
    pick: &Pick,
    top: usize,
) -> Result<Placed, PlaceFault>
    requires top { number_of library.now.structures pick.now.top ≡ Some top }
    ensures placement { IfOk result (λ placed. IsPlacement library.now.structures pick.now placed) }
    ensures placed { IfOk result (λ placed. All IsPlaced placed) }
    ensures fault { IfErr result (λ fault. (fault ≡ faults.NoMemory) ⊎ IsFaultFrom library.now.structures pick.now fault top) }
{
    let parts = part_plan(alloc, library, pick)?;
    let graph = graph_of(alloc, &parts)?;
    judge_references(alloc, library, &graph, top)?;
    let order = order_from(alloc, &graph, top)?;
    judge_points(alloc, &parts, &order, top)?;
    let shapes = chosen_shapes(alloc, library, pick, &order, top)?;
    let outlines = outlines_of(alloc, pick, &shapes)?;
    Ok(Placed::from_outlines(outlines))
}

/// Refuses the wrong reference of the lowest offset in the structures that the top reaches.
fn judge_references(
    alloc: Global,
    library: &Library,
    graph: &[Vec<usize>],
    top: usize,
) -> Result<(), PlaceFault>
    requires graph { IsGraphOf library.now.structures graph.now }
    requires top { top < length library.now.structures }
    ensures right { OnOk result (AreReferencesRight library.now.structures top) }
    ensures wrong { IfErr result (λ fault. (fault ≡ faults.NoMemory) ⊎ IsReferenceFault library.now.structures top fault) }
{
    let marks = reached_from(alloc, graph, top)?;
    match lowest_wrong(library, &marks) {
        None => Ok(()),
        Some(wrong) => Err(wrong.fault),
    }
}

/// The structures that the top reaches, from the bottom up, or the lowest of them that reaches itself.
fn order_from(alloc: Global, graph: &[Vec<usize>], top: usize) -> Result<Vec<usize>, PlaceFault>
    requires closed { IsClosed graph.now }
    requires top { top < length graph.now }
    requires few { length graph.now ≤ 65535 }
    ensures order { IfOk result (λ order. IsOrderFrom graph.now top order.items) }
    ensures cycle { IfErr result (λ fault. (fault ≡ faults.NoMemory) ⊎ ((s : ℕ) × (fault ≡ faults.Cycle s) × IsLowestOnCycle graph.now top s)) }
{
    match bottom_up(alloc, graph, top)? {
        Some(order) => Ok(order),
        None => Err(cycle_fault(alloc, graph, top)?),
    }
}

/// What is wrong where one of the reached structures reaches itself.
fn cycle_fault(alloc: Global, graph: &[Vec<usize>], top: usize) -> Result<PlaceFault, AllocError>
    requires closed { IsClosed graph.now }
    requires top { top < length graph.now }
    requires few { length graph.now ≤ 65535 }
    requires cycle { (s : ℕ) × Reaches graph.now top s × ReachesByReference graph.now s s }
    ensures { IfOk result (λ fault. (s : ℕ) × (fault ≡ faults.Cycle s) × IsLowestOnCycle graph.now top s) }
{
    match lowest_on_cycle(alloc, graph, top)? {
        Some(structure) => Ok(PlaceFault::Cycle {
            structure: structure as u32,
        }),
        None => unreachable!(),
    }
}

/// Refuses a top that places too many points.
fn judge_points(
    alloc: Global,
    parts: &[Vec<Part>],
    order: &[usize],
    top: usize,
) -> Result<(), PlaceFault>
    requires order { IsOrderOf parts.now order.now }
    requires in_range { All (λ s. s < length parts.now) order.now }
    requires few { length order.now ≤ length parts.now }
    requires top { Contains order.now top }
    ensures few { OnOk result (points_in parts.now (length parts.now) top ≤ 1048576) }
    ensures many { IfErr result (λ fault. (fault ≡ faults.NoMemory) ⊎ ((1048576 < points_in parts.now (length parts.now) top) × (fault ≡ faults.TooManyPoints (saturated (points_in parts.now (length parts.now) top))))) }
{
    let counts = point_counts(alloc, parts, order)?;
    let count = counts[top];
    if count > MAX_POINTS {
        Err(PlaceFault::TooManyPoints { count })
    } else {
        Ok(())
    }
}
