//! The kernels of a file.
ghost use Rattle.std.specs.Prelude.{◌≡◌, ◌+◌, ◌*◌, ◌<◌, ◌≤◌, IfOk, IfErr, None, Some, length, sum_by};
ghost use Rattle.std.specs.Option.{option_map};
ghost use Rattle.kernel_file.specs.Faults.{IsFound, bad_part, kernel_fault_at, kernels_fault};
ghost use Rattle.kernel_file.specs.Heads.{FitsHead, head_of};
ghost use Rattle.kernel_file.specs.Numbers.{complex_at};
ghost use Rattle.kernel_file.specs.KernelFile.{count_of, entries_at, kernel_at, kernels_of};

use crate::KernelFault;
use crate::head::{Head, entry_count, kernel_place};
use crate::numbers::{complex_at, number_at};
use opc_base::{Entries, Entry, Kernel};
use std::alloc::Global;

/// The entry at this place.
fn entry_at(bytes: &[u8], place: usize, limit: u16) -> Result<Entry, KernelFault>
    requires { place + 4 ≤ length bytes.now }
    ensures ok { IfOk result (λ entry. (entry ≡ complex_at bytes.now place) × (bad_part limit bytes.now place 2 ≡ None)) }
    ensures err { IfErr result (λ fault. option_map KernelFault.BadEntry (bad_part limit bytes.now place 2) ≡ Some fault) }
{
    complex_at(bytes, place, limit).map_err(|offset| KernelFault::BadEntry { offset })
}

/// So many entries from this place, each with parts within `limit` of 0.
fn read_entries(
    alloc: Global,
    bytes: &[u8],
    place: usize,
    count: usize,
    limit: u16,
) -> Result<Entries, KernelFault>
    requires { place + 4 * count ≤ length bytes.now }
    ensures ok { IfOk result (λ entries. (entries ≡ entries_at bytes.now place count) × (bad_part limit bytes.now place (2 * count) ≡ None)) }
    ensures err { IfErr result (IsFound (option_map KernelFault.BadEntry (bad_part limit bytes.now place (2 * count)))) }
{
    let mut entries = Vec::with_capacity(alloc, count)?;
    for k in 0..count {
        let entry = entry_at(bytes, place + 4 * k, limit)?;
        entries.push(entry)?;
    }
    Ok(Entries::from_vec(entries))
}

/// Kernel `index` of a file with this head.
fn read_kernel(alloc: Global, bytes: &[u8], head: &Head, index: u16) -> Result<Kernel, KernelFault>
    requires head { head.now ≡ head_of bytes.now }
    requires fits { FitsHead bytes.now }
    requires index { index < count_of bytes.now }
    ensures ok { IfOk result (λ kernel. (kernel ≡ kernel_at bytes.now index) × (kernel_fault_at bytes.now index ≡ None)) }
    ensures err { IfErr result (IsFound (kernel_fault_at bytes.now index)) }
{
    let place = kernel_place(head.format, head.reach, index);
    let weight = number_at(bytes, place);
    if weight == 0 {
        return Err(KernelFault::BadWeight { kernel: index });
    }
    let entries = read_entries(
        alloc,
        bytes,
        place + 2,
        entry_count(head.reach),
        head.format.part_limit(),
    )?;
    Ok(Kernel { weight, entries })
}

/// The kernels of a file with this head.
pub fn read_each(alloc: Global, bytes: &[u8], head: &Head) -> Result<Vec<Kernel>, KernelFault>
    requires head { head.now ≡ head_of bytes.now }
    requires fits { FitsHead bytes.now }
    ensures ok { IfOk result (λ kernels. (kernels.items ≡ kernels_of bytes.now) × (kernels_fault bytes.now (count_of bytes.now) ≡ None)) }
    ensures err { IfErr result (IsFound (kernels_fault bytes.now (count_of bytes.now))) }
{
    let mut kernels = Vec::with_capacity(alloc, usize::from(head.count))?;
    for index in 0..head.count {
        let kernel = read_kernel(alloc, bytes, head, index)?;
        kernels.push(kernel)?;
    }
    Ok(kernels)
}

/// What the weights of the kernels sum to.
pub fn weight_sum(kernels: &[Kernel]) -> u32
    requires { length kernels.now ≤ 16 }
    ensures { result ≡ sum_by (λ k. k.weight) kernels.now }
{
    kernels.iter().map(|kernel| u32::from(kernel.weight)).sum()
}
