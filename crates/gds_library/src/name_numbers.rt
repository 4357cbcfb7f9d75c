//! Names and their numbers.
ghost use Rattle.std.specs.Prelude.{◌≡◌, ◌∷◌, ◌++◌, false, [], is_some, slice_get, IfSome, OnOk, OnErr, Some};
ghost use Rattle.gds_library.specs.Texts.{has_name};

use opc_base::NoMemory;
use std::alloc::Global;
use std::collections::BTreeMap;
use std::marker::Model;

/// Different names, numbered from 0 in the order in which they came. To look a name up takes as many comparisons as the
/// logarithm of their number, whatever the names are.
#[derive(Drop)]
pub struct NameNumbers {
    numbers: BTreeMap<Vec<u8>, usize>,
}

impl Model for NameNumbers {
    ghost use Rattle.std.specs.Prelude.{ℕ, List};

    ghost Value = { List (List ℕ) };

    ghost use Rattle.gds_library.specs.NameNumbers.{in_order, AreNumbered};

    ghost view = { λ names. in_order names.numbers.entries };

    ghost invariant = { λ names. AreNumbered names.numbers.entries };
}

impl NameNumbers {
    /// No names.
    pub fn new(alloc: Global) -> NameNumbers
        ensures { result ≡ [] }
    {
        NameNumbers {
            numbers: BTreeMap::new(alloc),
        }
    }

    /// The number of this name, if it is one of them.
    pub fn number_of(&self, name: &[u8]) -> Option<usize>
        ensures number { IfSome result (λ i. slice_get self.now i ≡ Some name.now) }
        ensures found { has_name self.now name.now ≡ is_some result }
    {
        self.numbers.get(name).copied()
    }

    /// Adds a name that is none of them. After `NoMemory` they are what they were.
    pub fn push(&mut self, name: Vec<u8>) -> Result<(), NoMemory>
        requires { has_name self.old name.items ≡ false }
        ensures last { OnOk result (self.new ≡ self.old ++ name.items ∷ []) }
        ensures unchanged { OnErr result (self.new ≡ self.old) }
    {
        let number = self.numbers.len();
        self.numbers.insert(name, number)?;
        Ok(())
    }
}
