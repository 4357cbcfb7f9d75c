//! The trait of the outside.
ghost use Rattle.std.specs.Prelude.{◌≡◌, ◌+◌, ◌≤◌, ◌++◌, take, length, Some, None, OnOk, IfOk, IfSome, IsSomeAnd, IsErrOf};
ghost use Rattle.std.specs.FinMap.{get, insert};
ghost use Rattle.std.specs.Option.{option_map};
ghost use Rattle.opc_base.specs.Outside.{Outside, Rose, Loads, Stores, Says, IsPartlyStored, IsPartlySaid};

use crate::{Bytes, HostFault, LoadFault};
use std::alloc::Global;

/// The greatest limit of a load, in bytes.
pub const MAX_LOAD: usize = 67_108_864;

/// What lies outside the program: files by name, and a place to say things. Each function counts its faults.
pub trait Host {
    /// The files and what was said, where the host tells them, and the three counts of faults.
    ghost outside: { Self → Outside };

    /// The first `limit + 1` bytes of a file, or all of it where it is shorter.
    fn load(&mut self, alloc: Global, name: &str, limit: usize) -> Result<Bytes, LoadFault>
        requires limit { limit ≤ MAX_LOAD }

        ensures bytes { IfOk result (λ bytes. IfSome (outside self.old).files
            (λ files. option_map (take (limit + 1)) (get files name.now) ≡ Some bytes)) }
        ensures short { IfOk result (λ bytes. length bytes ≤ limit + 1) }
        ensures absent { IsErrOf result LoadFault.Absent → IsSomeAnd (outside self.old).files
            (λ files. get files name.now ≡ None) }
        ensures absent_count { IsErrOf result LoadFault.Absent
            → (outside self.new).load_faults ≡ (outside self.old).load_faults }
        ensures failed { IsErrOf result LoadFault.Failed
            → Rose (outside self.old).load_faults (outside self.new).load_faults }
        ensures rest { Loads (outside self.old) (outside self.new) };

    /// Makes the file, or replaces the whole of it.
    fn store(&mut self, alloc: Global, name: &str, bytes: &[u8]) -> Result<(), HostFault>
        ensures stored { OnOk result (IfSome (outside self.old).files
            (λ files. (outside self.new).files ≡ Some (insert files name.now bytes.now))) }
        ensures failed { IsErrOf result HostFault.Failed
            → Rose (outside self.old).store_faults (outside self.new).store_faults }
        ensures partly { IsErrOf result HostFault.Failed → IfSome (outside self.old).files
            (λ files. IsSomeAnd (outside self.new).files (IsPartlyStored files name.now bytes.now)) }
        ensures no_memory { IsErrOf result HostFault.NoMemory → (outside self.new).files ≡ (outside self.old).files }
        ensures no_memory_count { IsErrOf result HostFault.NoMemory
            → (outside self.new).store_faults ≡ (outside self.old).store_faults }
        ensures rest { Stores (outside self.old) (outside self.new) };

    /// Appends to what was said.
    fn say(&mut self, alloc: Global, bytes: &[u8]) -> Result<(), HostFault>
        ensures said { OnOk result (IfSome (outside self.old).said
            (λ said. (outside self.new).said ≡ Some (said ++ bytes.now))) }
        ensures failed { IsErrOf result HostFault.Failed
            → Rose (outside self.old).say_faults (outside self.new).say_faults }
        ensures partly { IsErrOf result HostFault.Failed → IfSome (outside self.old).said
            (λ said. IsSomeAnd (outside self.new).said (IsPartlySaid said bytes.now)) }
        ensures no_memory { IsErrOf result HostFault.NoMemory → (outside self.new).said ≡ (outside self.old).said }
        ensures rest { Says (outside self.old) (outside self.new) };
}
