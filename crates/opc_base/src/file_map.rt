//! Files in memory, which both hosts in memory hold.
ghost use Rattle.std.specs.Prelude.{◌≡◌, ◌↔◌, take, None, Some, OnOk, OnErr, IfOk, IsErrOf};
ghost use Rattle.std.specs.Option.{option_copied, option_map};
ghost use Rattle.std.specs.FinMap.{get, insert, from_entries};

use crate::{Bytes, LoadFault, NoMemory, Text};
use std::alloc::Global;
use std::marker::Model;

/// The bytes of each file. Of two entries with one name the first counts, so a later store is put in front.
#[derive(Drop)]
pub(crate) struct FileMap {
    entries: Vec<(Text, Bytes)>,
}

impl Model for FileMap {
    ghost use Rattle.std.specs.FinMap.{code, from_entries};
    ghost use Rattle.std.specs.Coded.{coded_ℕ, coded_list};
    ghost use Rattle.opc_base.specs.Outside.{Files};

    ghost Value = { Files };

    ghost coded = { code (coded_list coded_ℕ) (coded_list coded_ℕ) };

    ghost view = { λ m. from_entries m.entries.items };
}

impl FileMap {
    pub(crate) fn from_vec(entries: Vec<(Text, Bytes)>) -> Self
        ensures files { result ≡ from_entries entries.items }
    {
        FileMap { entries }
    }

    pub(crate) fn get(&self, name: &str) -> Option<&Bytes>
        ensures file { option_copied result ≡ get self.now name.now }
    {
        for (file, bytes) in &self.entries {
            if file.as_str() == name {
                return Some(bytes);
            }
        }
        None
    }

    /// A copy of a file, of at most so many bytes from its front.
    pub(crate) fn front_of(
        &self,
        alloc: Global,
        name: &str,
        count: usize,
    ) -> Result<Bytes, LoadFault>
        ensures bytes { IfOk result (λ bytes. option_map (take count) (get self.now name.now) ≡ Some bytes) }
        ensures absent { IsErrOf result LoadFault.Absent ↔ (get self.now name.now ≡ None) }
        ensures calm { IsErrOf result LoadFault.Failed → ⊥ }
    {
        let Some(bytes) = self.get(name) else {
            return Err(LoadFault::Absent);
        };
        let bytes = bytes.as_slice();
        let end = bytes.len().min(count);
        let front = bytes[..end].to_vec(alloc).map_err(NoMemory::from)?;
        Ok(Bytes::from_vec(front))
    }

    /// Makes the file, or replaces the whole of it.
    pub(crate) fn insert(&mut self, alloc: Global, name: &str, bytes: &[u8]) -> Result<(), NoMemory>
        ensures inserted { OnOk result (self.new ≡ insert self.old name.now bytes.now) }
        ensures unchanged { OnErr result (self.new ≡ self.old) }
    {
        let name = Text::from_string(String::from_str(alloc, name)?);
        let bytes = Bytes::from_vec(bytes.to_vec(alloc)?);
        self.entries.insert(0, (name, bytes))?;
        Ok(())
    }
}
