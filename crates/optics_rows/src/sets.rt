//! Sets of kernels.

ghost use Rattle.std.specs.Prelude.{◌≡◌, ℕ, ◌+◌, ◌*◌, ◌≤◌, All, IfOk, length, sum_by};
ghost use Rattle.opc_base.specs.Optics.{IsEntryWithin, IsKernelWithin, KeepsTwoTransmissions};

use opc_base::{Entries, Entry, Kernel, KernelSet, Kernels, NoMemory};
use std::alloc::Global;

/// The transmission that lets all light through.
pub const ALL: Entry = Entry { re: 1, im: 0 };

/// The transmission that lets no light through.
pub const NOTHING: Entry = Entry { re: 0, im: 0 };

/// Entries with these real parts, up to 127, each beside the same imaginary part.
pub fn entries_of(alloc: Global, reals: &[u8], im: u8) -> Result<Vec<Entry>, NoMemory>
    ensures size { IfOk result (λ entries. length entries.items ≡ length reals.now) }
    ensures within { IfOk result (λ entries. All (IsEntryWithin 128) entries.items) }
{
    let mut entries = Vec::new(alloc);
    for re in reals {
        entries.push(Entry {
            re: i16::from(*re % 128),
            im: i16::from(im % 128),
        })?;
    }
    Ok(entries)
}

/// So many kernels of a reach and a weight, each with these entries.
pub fn kernels_of(
    alloc: Global,
    reach: u16,
    count: u8,
    weight: u16,
    entries: &[Entry],
) -> Result<Kernels, NoMemory>
    requires size { length entries.now ≡ (2 * reach + 1) * (2 * reach + 1) }
    requires weight { 1 ≤ weight }
    requires entries { All (IsEntryWithin 128) entries.now }
    ensures count { IfOk result (λ kernels. length kernels ≡ count) }
    ensures weights { IfOk result (λ kernels. sum_by (λ k. k.weight) kernels ≡ count * weight) }
    ensures within { IfOk result (λ kernels. All (IsKernelWithin reach 128) kernels) }
{
    let mut kernels = Vec::new(alloc);
    for _ in 0..count {
        kernels.push(Kernel {
            weight,
            entries: Entries::from_vec(entries.to_vec(alloc)?),
        })?;
    }
    Ok(Kernels::from_vec(kernels))
}

/// A set of so many kernels of reach 1 and weight 1, each with these nine entries, under two transmissions.
pub fn set_of(
    alloc: Global,
    count: u8,
    entries: &[Entry],
    covered: Entry,
    uncovered: Entry,
) -> Result<KernelSet, NoMemory>
    requires some { 1 ≤ count }
    requires few { count ≤ 16 }
    requires nine { length entries.now ≡ 9 }
    requires entries { All (IsEntryWithin 128) entries.now }
    requires covered { IsEntryWithin 8 covered }
    requires uncovered { IsEntryWithin 8 uncovered }
    ensures { IfOk result KeepsTwoTransmissions }
{
    Ok(KernelSet {
        reach: 1,
        covered,
        uncovered,
        kernels: kernels_of(alloc, 1, count, 1, entries)?,
    })
}
