//! What stands before the kernels.
ghost use Rattle.std.specs.Prelude.{◌≡◌, ◌+◌, ◌*◌, ◌≤◌, true, IfOk, IfErr, None, Some, length};
ghost use Rattle.std.specs.Option.{option_map};
ghost use Rattle.kernel_file.specs.Numbers.{complex_at};
ghost use Rattle.kernel_file.specs.Faults.{bad_part, head_fault, kernel_fault, transmission_fault};
ghost use Rattle.kernel_file.specs.Heads.{FitsHead, head_of};
ghost use Rattle.kernel_file.specs.KernelFile.{count_of, covered_of, entry_count, format_of, has_magic, head_len, kernel_len, reach_of, uncovered_of};

use crate::KernelFault;
use crate::format::Format;
use crate::numbers::{complex_at, number_at};
use opc_base::Entry;

const MAX_COUNT: u16 = 16;

const MAX_REACH: u16 = 64;

/// How far from 0 a part of a transmission may be.
const TRANSMISSION_LIMIT: u16 = 8;

/// What a file says before its kernels.
#[derive(Clone, Copy)]
pub struct Head {
    pub format: Format,
    pub count: u16,
    pub reach: u16,
    pub covered: Entry,
    pub uncovered: Entry,
}

/// How many entries a kernel of this reach has.
pub fn entry_count(reach: u16) -> usize
    requires { reach ≤ 64 }
    ensures value { result ≡ entry_count reach }
    ensures bound { result ≤ 129 * 129 }
{
    let width = 2 * usize::from(reach) + 1;
    width * width
}

/// Where kernel `index` stands.
pub fn kernel_place(format: Format, reach: u16, index: u16) -> usize
    requires reach { reach ≤ 64 }
    requires index { index ≤ 16 }
    ensures value { result ≡ head_len format + index * kernel_len reach }
    ensures bound { result ≤ 1065072 }
{
    format.head_len() + usize::from(index) * (2 + 4 * entry_count(reach))
}

/// The count and the reach, where they and the length of the file are right.
fn read_counts(bytes: &[u8], format: Format) -> Result<(u16, u16), KernelFault>
    requires magic { has_magic bytes.now ≡ true }
    requires format { format ≡ format_of bytes.now }
    ensures ok { IfOk result (λ counts. (counts.0 ≡ count_of bytes.now) × (counts.1 ≡ reach_of bytes.now) × FitsHead bytes.now) }
    ensures err { IfErr result (λ fault. head_fault bytes.now ≡ Some fault) }
{
    if bytes.len() < format.head_len() {
        return Err(KernelFault::WrongLength);
    }
    let count = number_at(bytes, 4);
    if count == 0 || count > MAX_COUNT {
        return Err(KernelFault::BadCount);
    }
    let reach = number_at(bytes, 6);
    if reach > MAX_REACH {
        return Err(KernelFault::BadReach);
    }
    if bytes.len() != kernel_place(format, reach, count) {
        return Err(KernelFault::WrongLength);
    }
    Ok((count, reach))
}

/// The transmission at this place.
fn transmission_at(bytes: &[u8], place: usize) -> Result<Entry, KernelFault>
    requires { place + 4 ≤ length bytes.now }
    ensures ok { IfOk result (λ entry. (entry ≡ complex_at bytes.now place) × (bad_part 8 bytes.now place 2 ≡ None)) }
    ensures err { IfErr result (λ fault. option_map KernelFault.BadTransmission (bad_part 8 bytes.now place 2) ≡ Some fault) }
{
    complex_at(bytes, place, TRANSMISSION_LIMIT).map_err(|offset| KernelFault::BadTransmission {
        offset,
    })
}

/// What a covered pixel lets through, and what any other does.
fn read_transmissions(bytes: &[u8], format: Format) -> Result<(Entry, Entry), KernelFault>
    requires { head_len format ≤ length bytes.now }
    ensures ok { IfOk result (λ pair. (pair.0 ≡ covered_of format bytes.now) × (pair.1 ≡ uncovered_of format bytes.now) × (transmission_fault format bytes.now ≡ None)) }
    ensures err { IfErr result (λ fault. transmission_fault format bytes.now ≡ Some fault) }
{
    match format {
        Format::OneTransmission => Ok((Entry { re: 1, im: 0 }, Entry { re: 0, im: 0 })),
        Format::TwoTransmissions => Ok((transmission_at(bytes, 8)?, transmission_at(bytes, 12)?)),
    }
}

/// Reads what stands before the kernels, and checks the length of the whole.
pub fn read_head(bytes: &[u8]) -> Result<Head, KernelFault>
    ensures ok { IfOk result (λ head. (head ≡ head_of bytes.now) × FitsHead bytes.now × (transmission_fault (format_of bytes.now) bytes.now ≡ None)) }
    ensures err { IfErr result (λ fault. kernel_fault bytes.now ≡ Some fault) }
{
    let Some(format) = Format::of_file(bytes) else {
        return Err(KernelFault::BadMagic);
    };
    let (count, reach) = read_counts(bytes, format)?;
    let (covered, uncovered) = read_transmissions(bytes, format)?;
    Ok(Head {
        format,
        count,
        reach,
        covered,
        uncovered,
    })
}
