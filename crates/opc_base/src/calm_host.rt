//! A host in memory that never fails.
ghost use Rattle.std.specs.Prelude.{◌≡◌, ◌+◌, ◌≤◌, ◌↔◌, ◌++◌, [], map, take, Some, None, OnOk, OnErr, IfOk, IsErrOf};
ghost use Rattle.std.specs.FinMap.{get, insert, from_entries};
ghost use Rattle.std.specs.List.{IsDistinct};
ghost use Rattle.std.specs.Option.{option_copied, option_map};
ghost use Rattle.std.specs.Str.{bytes_eq};

use crate::file_map::FileMap;
use crate::{Bytes, Host, HostFault, LoadFault, MAX_LOAD, NoMemory, Text};
use std::alloc::Global;
use std::marker::Model;

/// Files in memory, and what was said. Its counts of faults are always 0, and no call answers `Failed`.
#[derive(Drop)]
pub struct CalmHost {
    files: FileMap,
    said: Bytes,
}

impl Model for CalmHost {
    ghost use Rattle.opc_base.specs.Calm.{Calm, coded_calm};

    ghost Value = { Calm };

    ghost coded = { coded_calm };

    ghost view = { λ h. record { files = h.files; said = h.said } };
}

impl CalmHost {
    ghost use Rattle.opc_base.specs.Calm.{Calm};

    /// A host that holds exactly these files, to which nothing was said.
    pub fn new(alloc: Global, files: Vec<(Text, Bytes)>) -> Result<CalmHost, NoMemory>
        requires names { IsDistinct bytes_eq (map (λ file. file.0) files.items) }
        ensures { IfOk result (λ host. host ≡ record { files = from_entries files.items; said = [] }) }
    {
        Ok(CalmHost {
            files: FileMap::from_vec(files),
            said: Bytes::from_vec(Vec::new(alloc)),
        })
    }

    /// The bytes of a file.
    pub fn file(&self, name: &str) -> Option<&Bytes>
        ensures file { option_copied result ≡ get self.now.files name.now }
    {
        self.files.get(name)
    }

    /// All that was said, from the start.
    pub fn said(&self) -> &[u8]
        ensures said { result.now ≡ self.now.said }
    {
        self.said.as_slice()
    }
}

impl Host for CalmHost {
    ghost use Rattle.opc_base.specs.Calm.{outside_of};

    ghost outside = { outside_of };

    fn load(&mut self, alloc: Global, name: &str, limit: usize) -> Result<Bytes, LoadFault>
        requires limit { limit ≤ MAX_LOAD }
        ensures calm { IsErrOf result LoadFault.Failed → ⊥ }
        ensures absent { IsErrOf result LoadFault.Absent ↔ (get self.old.files name.now ≡ None) }
        ensures bytes { IfOk result (λ bytes. option_map (take (limit + 1)) (get self.old.files name.now) ≡ Some bytes) }
        ensures after { self.new ≡ self.old }
    {
        self.files.front_of(alloc, name, limit + 1)
    }

    fn store(&mut self, alloc: Global, name: &str, bytes: &[u8]) -> Result<(), HostFault>
        ensures calm { IsErrOf result HostFault.Failed → ⊥ }
        ensures stored { OnOk result (self.new ≡ record self.old { files = insert self.old.files name.now bytes.now }) }
        ensures unchanged { OnErr result (self.new ≡ self.old) }
    {
        Ok(self.files.insert(alloc, name, bytes)?)
    }

    fn say(&mut self, _alloc: Global, bytes: &[u8]) -> Result<(), HostFault>
        ensures calm { IsErrOf result HostFault.Failed → ⊥ }
        ensures said { OnOk result (self.new ≡ record self.old { said = self.old.said ++ bytes.now }) }
        ensures unchanged { OnErr result (self.new ≡ self.old) }
    {
        Ok(self.said.append(bytes)?)
    }
}
