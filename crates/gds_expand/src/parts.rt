//! What the structures of a library place, as parts.

ghost use Rattle.std.specs.Prelude.{◌≡◌, ◌≤◌, ◌*◌, ◌++◌, unsigned_abs, if◌then◌else◌, Bool, IfOk, OnOk, length, map, vec_len, [], ◌∷◌};
ghost use Rattle.gds_model.specs.PlacedList.{columns_of, is_on, rows_of};
ghost use Rattle.gds_model.specs.Library.{HasAscendingOffsets};
ghost use Rattle.gds_model.specs.Reach.{number_of};
ghost use Rattle.gds_expand.specs.Parts.{parts_by, parts_in};
ghost use Rattle.gds_expand.specs.Points.{targets_of};

use crate::points::Part;
use gds_library::Library;
use gds_model::{Element, Grid, Shape};
use opc_base::{Name, Pick};
use std::alloc::{AllocError, Global};

/// The number of the structure with this name.
pub(crate) fn number_of(library: &Library, name: &Name) -> Option<usize>
    ensures number { result ≡ number_of library.now.structures name.now }
    ensures offsets { HasAscendingOffsets library.now.structures }
{
    match library.number_of(name) {
        None => None,
        Some(number) => Some(number as usize),
    }
}

/// Whether the shape is on the chosen layer and datatype.
pub(crate) fn is_chosen(pick: &Pick, shape: &Shape) -> bool
    ensures { result ≡ is_on pick.now.layer pick.now.datatype shape.now }
{
    shape.layer == pick.layer && shape.datatype == pick.datatype
}

/// The copies of a reference, by the size of its columns and rows.
fn copies_of(array: Option<Grid>) -> u64
    ensures { result ≡ unsigned_abs (rows_of array) * unsigned_abs (columns_of array) }
{
    match array {
        None => 1,
        Some(grid) => copies_in(&grid),
    }
}

fn copies_in(grid: &Grid) -> u64
    ensures { result ≡ unsigned_abs grid.now.rows * unsigned_abs grid.now.columns }
{
    u64::from(grid.rows.unsigned_abs()) * u64::from(grid.columns.unsigned_abs())
}

/// Adds what an element places.
fn push_parts(
    library: &Library,
    pick: &Pick,
    element: &Element,
    parts: &mut Vec<Part>,
) -> Result<(), AllocError>
    ensures { OnOk result (parts.new.items ≡ parts.old.items ++ parts_by library.now.structures (is_on pick.now.layer pick.now.datatype) element.now) }
{
    match element {
        Element::Shape(shape) => {
            if is_chosen(pick, shape) {
                parts.push(Part::Points(shape.points.as_slice().len() as u64))?;
            }
        }
        Element::Reference(reference) => {
            if let Some(target) = number_of(library, &reference.name) {
                parts.push(Part::Copies(copies_of(reference.array), target))?;
            }
        }
    }
    Ok(())
}

/// What these elements place.
fn parts_in(
    alloc: Global,
    library: &Library,
    pick: &Pick,
    elements: &[Element],
) -> Result<Vec<Part>, AllocError>
    ensures { IfOk result (λ parts. parts.items ≡ parts_in library.now.structures (is_on pick.now.layer pick.now.datatype) elements.now) }
{
    let mut parts = Vec::new(alloc);
    for element in elements {
        push_parts(library, pick, element, &mut parts)?;
    }
    Ok(parts)
}

/// What each structure of the library places.
pub(crate) fn part_plan(
    alloc: Global,
    library: &Library,
    pick: &Pick,
) -> Result<Vec<Vec<Part>>, AllocError>
    ensures few { IfOk result (λ plan. vec_len plan ≤ 65535) }
    ensures parts { IfOk result (λ plan. map (λ row. row.items) plan.items ≡ map (λ s. parts_in library.now.structures (is_on pick.now.layer pick.now.datatype) s.elements) library.now.structures) }
{
    let mut plan = Vec::with_capacity(alloc, library.count() as usize)?;
    for i in 0..library.count() {
        let structure = library.structure(i);
        let row = parts_in(alloc, library, pick, structure.elements.as_slice())?;
        plan.push(row)?;
    }
    Ok(plan)
}

/// Adds the structure that a part copies.
fn push_target(part: &Part, targets: &mut Vec<usize>) -> Result<(), AllocError>
    ensures { OnOk result (targets.new.items ≡ targets.old.items ++ targets_of (part.now ∷ [])) }
{
    if let Part::Copies(_, structure) = part {
        targets.push(*structure)?;
    }
    Ok(())
}

/// The structures that these parts copy.
fn targets_of(alloc: Global, parts: &[Part]) -> Result<Vec<usize>, AllocError>
    ensures { IfOk result (λ targets. targets.items ≡ targets_of parts.now) }
{
    let mut targets = Vec::new(alloc);
    for part in parts {
        push_target(part, &mut targets)?;
    }
    Ok(targets)
}

/// By structure the structures that its parts copy.
pub(crate) fn graph_of(alloc: Global, plan: &[Vec<Part>]) -> Result<Vec<Vec<usize>>, AllocError>
    ensures { IfOk result (λ graph. map (λ row. row.items) graph.items ≡ map (λ row. targets_of row.items) plan.now) }
{
    let mut graph = Vec::with_capacity(alloc, plan.len())?;
    for row in plan {
        let targets = targets_of(alloc, row)?;
        graph.push(targets)?;
    }
    Ok(graph)
}
