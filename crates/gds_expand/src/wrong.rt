//! The wrong reference of the lowest offset.

ghost use Rattle.std.specs.Prelude.{◌≡◌, Some, length, fold};
ghost use Rattle.gds_model.specs.PlaceFaults.{reference_fault};
ghost use Rattle.gds_expand.specs.Wrong.{IsLowest, IsMarkedBelow, lower, lower_by};

use crate::parts::number_of;
use crate::references::own_fault;
use gds_library::Library;
use gds_model::{Element, PlaceFault, Reference};

/// What is wrong with a reference, and its offset.
#[derive(Clone, Copy, Debug)]
pub(crate) struct Wrong {
    pub offset: usize,
    pub fault: PlaceFault,
}

fn reference_fault(library: &Library, reference: &Reference) -> Option<PlaceFault>
    ensures { result ≡ reference_fault library.now.structures reference.now }
{
    match number_of(library, &reference.name) {
        None => Some(PlaceFault::Missing {
            offset: reference.offset,
        }),
        Some(_) => own_fault(reference),
    }
}

/// Of two wrong references the one of the lower offset.
fn lower(best: Option<Wrong>, wrong: Wrong) -> Option<Wrong>
    ensures { result ≡ lower best wrong.offset (Some wrong.fault) }
{
    match best {
        None => Some(wrong),
        Some(old) => {
            if wrong.offset < old.offset {
                Some(wrong)
            } else {
                Some(old)
            }
        }
    }
}

fn lower_by(library: &Library, best: Option<Wrong>, element: &Element) -> Option<Wrong>
    ensures { result ≡ lower_by library.now.structures best element.now }
{
    match element {
        Element::Shape(_) => best,
        Element::Reference(reference) => match reference_fault(library, reference) {
            None => best,
            Some(fault) => lower(
                best,
                Wrong {
                    offset: reference.offset,
                    fault,
                },
            ),
        },
    }
}

/// The lowest of `best` and what is wrong among these elements.
fn lowest_in(library: &Library, elements: &[Element], best: Option<Wrong>) -> Option<Wrong>
    ensures { result ≡ fold (lower_by library.now.structures) best elements.now }
{
    let mut lowest = best;
    for element in elements {
        lowest = lower_by(library, lowest, element);
    }
    lowest
}

/// The wrong reference of the lowest offset in the marked structures.
pub(crate) fn lowest_wrong(library: &Library, marks: &[bool]) -> Option<Wrong>
    requires { length marks.now ≡ length library.now.structures }
    ensures { IsLowest library.now.structures (IsMarkedBelow library.now.structures marks.now (length library.now.structures)) result }
{
    let mut lowest = None;
    for i in 0..library.count() {
        if marks[i as usize] {
            lowest = lowest_in(library, library.structure(i).elements.as_slice(), lowest);
        }
    }
    lowest
}
