//! A host in memory, whose calls fail where a list says so.
ghost use Rattle.std.specs.Prelude.{◌≡◌, ◌+◌, ◌≤◌, ◌==◌, ◌↔◌, ◌++◌, [], map, take, length, Some, None, IsSome, IsNone, is_some, if◌then◌else◌, OnOk, OnErr, IfOk, IsSomeAnd, IsErrOf};
ghost use Rattle.std.specs.FinMap.{get, insert, from_entries};
ghost use Rattle.std.specs.List.{IsDistinct};
ghost use Rattle.std.specs.Option.{option_copied, option_map};
ghost use Rattle.std.specs.Str.{bytes_eq};

use crate::file_map::FileMap;
use crate::{Bytes, Host, HostFault, LoadFault, MAX_LOAD, NoMemory, Text};
use std::alloc::Global;
use std::marker::Model;

/// The call of this number fails. A store or a say then keeps so many bytes from the front, or all where there are fewer.
#[derive(Clone, Copy, Debug, PartialEq, Eq)]
pub struct Fail {
    pub call: u32,
    pub keep: u32,
}

/// Files in memory, what was said, and the calls that are to fail. Calls are counted from 1 over all three functions of
/// `Host`; the counter and the counts of faults stay at their last value once they stand there.
#[derive(Drop)]
pub struct MemHost {
    files: FileMap,
    said: Bytes,
    load_faults: u64,
    store_faults: u64,
    say_faults: u64,
    calls: u64,
    fails: Vec<Fail>,
}

impl Model for MemHost {
    ghost use Rattle.opc_base.specs.Memory.{Memory, coded_memory};

    ghost Value = { Memory };

    ghost coded = { coded_memory };

    ghost view = { λ h. record {
      files = h.files;
      said = h.said;
      load_faults = h.load_faults;
      store_faults = h.store_faults;
      say_faults = h.say_faults;
      calls = h.calls;
      fails = h.fails.items;
    } };
}

impl MemHost {
    ghost use Rattle.opc_base.specs.Memory.{Memory, planned, one_more};

    /// A host that holds exactly these files, with nothing said, no faults and no calls made.
    pub fn new(
        alloc: Global,
        files: Vec<(Text, Bytes)>,
        fails: Vec<Fail>,
    ) -> Result<MemHost, NoMemory>
        requires names { IsDistinct bytes_eq (map (λ file. file.0) files.items) }
        requires calls { IsDistinct (λ a b. a == b) (map (λ fail. fail.call) fails.items) }
        ensures { IfOk result (λ host. host ≡ record {
          files = from_entries files.items;
          said = [];
          load_faults = 0;
          store_faults = 0;
          say_faults = 0;
          calls = 0;
          fails = fails.items;
        }) }
    {
        Ok(MemHost {
            files: FileMap::from_vec(files),
            said: Bytes::from_vec(Vec::new(alloc)),
            load_faults: 0,
            store_faults: 0,
            say_faults: 0,
            calls: 0,
            fails,
        })
    }

    /// The bytes of a file.
    pub fn file(&self, name: &str) -> Option<&Bytes>
        ensures file { option_copied result ≡ get self.now.files name.now }
    {
        self.files.get(name)
    }

    /// All that was said, from the start.
    pub fn said(&self) -> &[u8]
        ensures said { result.now ≡ self.now.said }
    {
        self.said.as_slice()
    }

    /// Counts a call, and answers how much it keeps where it is to fail.
    fn begin(&mut self) -> Option<u32>
        ensures counted { self.new ≡ record self.old { calls = one_more self.old.calls } }
        ensures planned { result ≡ planned self.old }
    {
        self.calls = self.calls.saturating_add(1);
        let call = self.calls;
        self.fails
            .iter()
            .find(|fail| u64::from(fail.call) == call)
            .map(|fail| fail.keep)
    }
}

/// At most so many bytes from the front.
fn front(bytes: &[u8], keep: u32) -> &[u8]
    ensures { result.now ≡ take keep bytes.now }
{
    if (keep as usize) < bytes.len() {
        &bytes[..keep as usize]
    } else {
        bytes
    }
}

impl Host for MemHost {
    ghost use Rattle.opc_base.specs.Memory.{outside_of};

    ghost outside = { outside_of };

    ghost use Rattle.opc_base.specs.Memory.{planned, one_more};

    fn load(&mut self, alloc: Global, name: &str, limit: usize) -> Result<Bytes, LoadFault>
        requires limit { limit ≤ MAX_LOAD }
        ensures failed { IsErrOf result LoadFault.Failed ↔ IsSome (planned self.old) }
        ensures absent { IsNone (planned self.old) → IsErrOf result LoadFault.Absent ↔ (get self.old.files name.now ≡ None) }
        ensures bytes { IfOk result (λ bytes. option_map (take (limit + 1)) (get self.old.files name.now) ≡ Some bytes) }
        ensures after { self.new ≡ record self.old {
          calls = one_more self.old.calls;
          load_faults = if is_some (planned self.old) then one_more self.old.load_faults else self.old.load_faults;
        } }
    {
        if self.begin().is_some() {
            self.load_faults = self.load_faults.saturating_add(1);
            return Err(LoadFault::Failed);
        }
        self.files.front_of(alloc, name, limit + 1)
    }

    fn store(&mut self, alloc: Global, name: &str, bytes: &[u8]) -> Result<(), HostFault>
        ensures stored { OnOk result (IsNone (planned self.old) × (self.new ≡ record self.old {
          calls = one_more self.old.calls;
          files = insert self.old.files name.now bytes.now;
        })) }
        ensures failed { IsErrOf result HostFault.Failed → IsSomeAnd (planned self.old) (λ keep.
            self.new ≡ record self.old {
              calls = one_more self.old.calls;
              files = insert self.old.files name.now (take keep bytes.now);
              store_faults = one_more self.old.store_faults;
            }) }
        ensures no_memory { IsErrOf result HostFault.NoMemory
            → self.new ≡ record self.old { calls = one_more self.old.calls } }
    {
        match self.begin() {
            None => {
                self.files.insert(alloc, name, bytes)?;
                Ok(())
            }
            Some(keep) => {
                self.files.insert(alloc, name, front(bytes, keep))?;
                self.store_faults = self.store_faults.saturating_add(1);
                Err(HostFault::Failed)
            }
        }
    }

    fn say(&mut self, _alloc: Global, bytes: &[u8]) -> Result<(), HostFault>
        ensures said { OnOk result (IsNone (planned self.old) × (self.new ≡ record self.old {
          calls = one_more self.old.calls;
          said = self.old.said ++ bytes.now;
        })) }
        ensures failed { IsErrOf result HostFault.Failed → IsSomeAnd (planned self.old) (λ keep.
            self.new ≡ record self.old {
              calls = one_more self.old.calls;
              said = self.old.said ++ take keep bytes.now;
              say_faults = one_more self.old.say_faults;
            }) }
        ensures no_memory { IsErrOf result HostFault.NoMemory
            → self.new ≡ record self.old { calls = one_more self.old.calls } }
    {
        match self.begin() {
            None => {
                self.said.append(bytes)?;
                Ok(())
            }
            Some(keep) => {
                self.said.append(front(bytes, keep))?;
                self.say_faults = self.say_faults.saturating_add(1);
                Err(HostFault::Failed)
            }
        }
    }
}
