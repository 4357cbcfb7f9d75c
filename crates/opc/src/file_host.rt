//! Real files and the standard output.
ghost use Rattle.std.specs.Prelude.{◌≡◌, ◌+◌, ◌≤◌, length, IfOk};

use opc_base::{Bytes, Host, HostFault, LoadFault, MAX_LOAD};
use std::alloc::Global;
use std::io::{Read, Write};
use std::rt::Files;
use std::{fs, io};

/// Files of the system, and its standard output. It tells neither its files nor what was said. A missing file is a fault.
#[derive(Drop)]
pub struct FileHost<'a, R> {
    rt: &'a R,
    load_faults: u64,
    store_faults: u64,
    say_faults: u64,
}

impl<'a, R: Files + Print> FileHost<'a, R> {
    ghost use Rattle.opc.specs.FileHost.{outside_of, untouched};

    /// A host over this runtime's files and output, with counts of 0.
    pub fn new(rt: &'a R) -> Self
        ensures counts { outside_of result ≡ untouched }
    {
        FileHost {
            rt,
            load_faults: 0,
            store_faults: 0,
            say_faults: 0,
        }
    }
}

/// The bytes up to a limit and one more. Each turn takes at least one.
fn read_some<S: Read>(alloc: Global, source: &mut S, limit: usize) -> Result<Bytes, HostFault>
    requires { limit ≤ MAX_LOAD }
    ensures { IfOk result (λ bytes. length bytes ≤ limit + 1) }
{
    let mut bytes = Vec::new(alloc);
    let mut buffer = [0u8; 4096];
    'turns: for _ in 0..limit + 1 {
        let room = (limit + 1 - bytes.len()).min(buffer.len());
        let count = source
            .read(&mut buffer[..room])
            .map_err(|_| HostFault::Failed)?;
        if count == 0 {
            break 'turns;
        }
        bytes
            .extend_from_slice(&buffer[..count])
            .map_err(|_| HostFault::NoMemory)?;
    }
    Ok(Bytes::from_vec(bytes))
}

/// Writes all of the bytes. Each turn writes at least one.
fn write_whole<K: Write>(sink: &mut K, bytes: &[u8]) -> Result<(), HostFault> {
    let mut rest = bytes;
    for _ in 0..bytes.len() {
        if rest.is_empty() {
            break;
        }
        let count = sink.write(rest).map_err(|_| HostFault::Failed)?;
        if count == 0 {
            return Err(HostFault::Failed);
        }
        rest = &rest[count..];
    }
    Ok(())
}

fn fault_of(error: &io::Error) -> HostFault {
    match error.kind() {
        io::ErrorKind::OutOfMemory => HostFault::NoMemory,
        _ => HostFault::Failed,
    }
}

fn read_file<R: Files>(rt: &R, alloc: Global, name: &str, limit: usize) -> Result<Bytes, HostFault>
    requires { limit ≤ MAX_LOAD }
    ensures { IfOk result (λ bytes. length bytes ≤ limit + 1) }
{
    let mut file = fs::open(rt, name).map_err(|e| fault_of(&e))?;
    read_some(alloc, &mut file, limit)
}

fn write_file<R: Files>(rt: &R, name: &str, bytes: &[u8]) -> Result<(), HostFault> {
    let mut file = fs::create(rt, name).map_err(|e| fault_of(&e))?;
    write_whole(&mut file, bytes)
}

impl<'a, R: Files + Print> Host for FileHost<'a, R> {
    ghost use Rattle.opc.specs.FileHost.{outside_of};

    ghost outside = { outside_of };

    fn load(&mut self, alloc: Global, name: &str, limit: usize) -> Result<Bytes, LoadFault> {
        match read_file(self.rt, alloc, name, limit) {
            Ok(bytes) => Ok(bytes),
            Err(HostFault::Failed) => {
                self.load_faults = self.load_faults.saturating_add(1);
                Err(LoadFault::Failed)
            }
            Err(HostFault::NoMemory) => Err(LoadFault::NoMemory),
        }
    }

    fn store(&mut self, _alloc: Global, name: &str, bytes: &[u8]) -> Result<(), HostFault> {
        let done = write_file(self.rt, name, bytes);
        if let Err(HostFault::Failed) = done {
            self.store_faults = self.store_faults.saturating_add(1);
        }
        done
    }

    fn say(&mut self, _alloc: Global, bytes: &[u8]) -> Result<(), HostFault> {
        let done = write_whole(&mut io::writer(self.rt), bytes);
        if let Err(HostFault::Failed) = done {
            self.say_faults = self.say_faults.saturating_add(1);
        }
        done
    }
}

#[cfg(test)]
mod tests;
