//! A layout that was read.
ghost use Rattle.std.specs.Prelude.{◌≡◌, ◌<◌, ◌↔◌, length, slice_get, IfSome, IsSome, Some};

use crate::name_numbers::NameNumbers;
use gds_model::Structure;
use gds_records::Head;
use opc_base::Name;
use std::marker::Model;

/// A layout: its head, and its structures in file order, no two of one name. A shape has at least one point, a reference one,
/// and three where it is an array. The offsets of elements ascend in file order, so no two have the same.
#[derive(Drop)]
pub struct Library {
    head: Head,
    structures: Vec<Structure>,
    names: NameNumbers,
}

impl Model for Library {
    ghost use Rattle.gds_model.specs.Library.{StreamLibrary};

    ghost Value = { StreamLibrary };

    ghost use Rattle.gds_library.specs.Held.{library_held, IsHeld};

    ghost view = { library_held };

    ghost invariant = { IsHeld };
}

impl Library {
    ghost use Rattle.std.specs.Prelude.{Option};
    ghost use Rattle.std.specs.List.{Contains};
    ghost use Rattle.gds_model.specs.Library.{IsLayout, names};

    /// The library with this head and these structures, whose names are these.
    pub(crate) fn from_parts(
        head: Head,
        structures: Vec<Structure>,
        numbers: NameNumbers,
    ) -> Library
        requires layout { IsLayout (record { head = head; structures = structures.items }) }
        requires named { numbers ≡ names structures.items }
        ensures { result ≡ record { head = head; structures = structures.items } }
    {
        Library {
            head,
            structures,
            names: numbers,
        }
    }

    /// The bodies of HEADER, BGNLIB, LIBNAME and UNITS.
    pub fn head(&self) -> &Head
        ensures head { result.now ≡ self.now.head }
        ensures layout { IsLayout self.now }
    {
        &self.head
    }

    /// The number of structures, at most 65,535.
    pub fn count(&self) -> u32
        ensures count { result ≡ length self.now.structures }
        ensures layout { IsLayout self.now }
    {
        self.structures.len() as u32
    }

    /// The structure of this number, counted from 0 in file order.
    pub fn structure(&self, i: u32) -> &Structure
        requires { i < length self.now.structures }
        ensures structure { slice_get self.now.structures i ≡ Some result.now }
        ensures layout { IsLayout self.now }
    {
        &self.structures[i as usize]
    }

    /// The number of the structure of this name, or `None` where no structure has it.
    pub fn number_of(&self, name: &Name) -> Option<u32>
        ensures number { IfSome result (λ i. slice_get (names self.now.structures) i ≡ Some name.now) }
        ensures found { IsSome result ↔ Contains (names self.now.structures) name.now }
        ensures layout { IsLayout self.now }
    {
        match self.names.number_of(name.as_slice()) {
            Some(i) => Some(i as u32),
            None => None,
        }
    }
}
