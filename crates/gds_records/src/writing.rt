//! Records, as they are written.
ghost use Rattle.std.specs.Prelude.{◌≡◌, ◌≤◌, ◌+◌, ◌*◌, ◌%◌, ◌++◌, length, OnOk, OnErr};
ghost use Rattle.gds_records.specs.Records.{StandsAt};
ghost use Rattle.gds_records.specs.Written.{record_bytes};

use byteorder::{BigEndian, ByteOrder};
use opc_base::{Bytes, NoMemory};
use std::alloc::Global;

/// Appends a record of this record type and data type, with this body. `next_record` reads it back.
/// After `NoMemory` `out` is as it was.
pub fn put_record(
    _alloc: Global,
    out: &mut Bytes,
    kind: u8,
    data_type: u8,
    body: &[u8],
) -> Result<(), NoMemory>
    requires even { length body.now % 2 ≡ 0 }
    requires fits { length body.now ≤ 65530 }
    ensures appended { OnOk result (out.new ≡ out.old ++ record_bytes kind data_type body.now) }
    ensures read_back { OnOk result (StandsAt out.new (length out.old)
        (record { offset = length out.old; code = 256 * kind + data_type; body = body.now })) }
    ensures unchanged { OnErr result (out.new ≡ out.old) }
{
    let mut header = [0, 0, kind, data_type];
    BigEndian::write_u16(&mut header, (body.len() + 4) as u16);
    out.append_both(&header, body)
}
