//! What stands before the elements.
ghost use Rattle.std.specs.Prelude.{◌≡◌, ◌≤◌, ◌+◌, ◌%◌, ◌++◌, length, IfOk, OnOk};
ghost use Rattle.gds_writer.specs.MaskFile.{bytes_of, opening, padded};

use gds_records::{Head, put_record};
use opc_base::{Bytes, Name, NoMemory, OutPick};
use std::alloc::Global;

/// Appends the records of the layout's head, and the first two of the mask's structure: BGNSTR with the layout's dates, and
/// STRNAME.
pub fn put_opening(
    alloc: Global,
    file: &mut Bytes,
    head: &Head,
    out: &OutPick,
) -> Result<(), NoMemory>
    requires header { length head.now.header ≡ 2 }
    requires dates { length head.now.dates ≡ 24 }
    requires name_even { length head.now.name % 2 ≡ 0 }
    requires name_fits { length head.now.name ≤ 65530 }
    requires units { length head.now.units ≡ 16 }
    ensures { OnOk result (file.new ≡ file.old ++ bytes_of (opening head.now out.now)) }
{
    let name = padded(alloc, &out.name)?;
    put_record(alloc, file, 0x00, 0x02, head.header.as_slice())?;
    put_record(alloc, file, 0x01, 0x02, head.dates.as_slice())?;
    put_record(alloc, file, 0x02, 0x06, head.name.as_slice())?;
    put_record(alloc, file, 0x03, 0x05, head.units.as_slice())?;
    put_record(alloc, file, 0x05, 0x02, head.dates.as_slice())?;
    put_record(alloc, file, 0x06, 0x06, name.as_slice())
}

/// The name, with a zero byte where its length is odd.
fn padded(alloc: Global, name: &Name) -> Result<Vec<u8>, NoMemory>
    ensures { IfOk result (λ body. body.items ≡ padded name.now) }
{
    let mut body = name.as_slice().to_vec(alloc)?;
    if body.len() % 2 != 0 {
        body.push(0)?;
    }
    Ok(body)
}

/// How many bytes of a file stand before its elements and behind them.
pub fn frame_size(head: &Head, out: &OutPick) -> usize
    requires name { length head.now.name ≤ 65530 }
    ensures { result ≡ 98 + length head.now.name + length (padded out.now.name) }
{
    let name = out.name.as_slice().len();
    98 + head.name.as_slice().len() + name + name % 2
}
