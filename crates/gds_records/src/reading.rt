//! What stands at an offset of a stream file.
ghost use Rattle.std.specs.Prelude.{◌≤◌, length};
ghost use Rattle.gds_records.specs.NextRecord.{IsNext};

use byteorder::{BigEndian, ByteOrder};

/// A record of a stream file: the offset of its first byte, its record type and data type, and its
/// body, which stands behind the four header bytes.
#[derive(Clone, Copy, Debug)]
pub struct Record<'a> {
    pub offset: usize,
    pub kind: u8,
    pub data_type: u8,
    pub body: &'a [u8],
}

/// What stands at an offset of a stream file.
#[derive(Clone, Copy, Debug)]
pub enum Next<'a> {
    Record(Record<'a>),
    /// The file ends here.
    End,
    /// The file ends within a record.
    Cut { offset: usize },
    /// The length is odd, or less than the four bytes of the header.
    BadLength { offset: usize },
}

/// What stands at the offset `at`: a record, the end of the file, or bytes that are no record.
pub fn next_record<'a>(bytes: &'a [u8], at: usize) -> Next<'a>
    requires { at ≤ length bytes.now }
    ensures { IsNext bytes.now at result }
{
    let rest = &bytes[at..];
    match rest {
        [] => Next::End,
        [_, _, kind, data_type, ..] => {
            let length = usize::from(BigEndian::read_u16(rest));
            if length % 2 != 0 || length < 4 {
                Next::BadLength { offset: at }
            } else if rest.len() < length {
                Next::Cut { offset: at }
            } else {
                Next::Record(Record {
                    offset: at,
                    kind: *kind,
                    data_type: *data_type,
                    body: &rest[4..length],
                })
            }
        }
        _ => Next::Cut { offset: at },
    }
}
