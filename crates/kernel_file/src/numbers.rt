//! The numbers of a kernel file.
ghost use Rattle.std.specs.Prelude.{◌≡◌, ◌+◌, ◌≤◌, length, IfOk, IfErr, None, Some};
ghost use Rattle.kernel_file.specs.Faults.{bad_part};
ghost use Rattle.kernel_file.specs.Numbers.{complex_at, number_at, signed_at};

use byteorder::{BigEndian, ByteOrder};
use opc_base::Entry;

/// The number in the two bytes from this place.
pub fn number_at(bytes: &[u8], place: usize) -> u16
    requires { place + 2 ≤ length bytes.now }
    ensures { result ≡ number_at bytes.now place }
{
    BigEndian::read_u16(&bytes[place..])
}

/// The signed number in the two bytes from this place.
fn signed_at(bytes: &[u8], place: usize) -> i16
    requires { place + 2 ≤ length bytes.now }
    ensures { result ≡ signed_at bytes.now place }
{
    BigEndian::read_i16(&bytes[place..])
}

/// The complex number at this place; or where the first of its parts stands that is further than `limit` from 0.
pub fn complex_at(bytes: &[u8], place: usize, limit: u16) -> Result<Entry, usize>
    requires { place + 4 ≤ length bytes.now }
    ensures ok { IfOk result (λ entry. (entry ≡ complex_at bytes.now place) × (bad_part limit bytes.now place 2 ≡ None)) }
    ensures err { IfErr result (λ wrong. bad_part limit bytes.now place 2 ≡ Some wrong) }
{
    let re = signed_at(bytes, place);
    if re.unsigned_abs() > limit {
        return Err(place);
    }
    let im = signed_at(bytes, place + 2);
    if im.unsigned_abs() > limit {
        return Err(place + 2);
    }
    Ok(Entry { re, im })
}
