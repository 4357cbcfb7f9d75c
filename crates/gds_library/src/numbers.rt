//! The numbers in the body of a record.
ghost use Rattle.std.specs.Prelude.{◌≡◌, ◌≤◌, length};
ghost use Rattle.gds_records.specs.Numbers.{two_bytes, signed_two, signed_four};
ghost use Rattle.gds_model.specs.Elements.{grid_in};

use byteorder::{BigEndian, ByteOrder};
use gds_model::Grid;

/// The two-byte number, from 0 to 65535.
pub fn unsigned_in(body: &[u8]) -> u16
    requires { 2 ≤ length body.now }
    ensures { result ≡ two_bytes body.now 0 }
{
    BigEndian::read_u16(body)
}

/// The two-byte signed number.
pub fn signed_two_in(body: &[u8]) -> i16
    requires { 2 ≤ length body.now }
    ensures { result ≡ signed_two body.now 0 }
{
    BigEndian::read_i16(body)
}

/// The four-byte signed number.
pub fn signed_four_in(body: &[u8]) -> i32
    requires { 4 ≤ length body.now }
    ensures { result ≡ signed_four body.now 0 }
{
    BigEndian::read_i32(body)
}

/// The columns and rows of a COLROW record.
pub fn grid_of(body: &[u8]) -> Grid
    requires { 4 ≤ length body.now }
    ensures { result ≡ grid_in body.now }
{
    Grid {
        columns: BigEndian::read_i16(body),
        rows: BigEndian::read_i16(&body[2..]),
    }
}

/// The bytes of an eight-byte real.
pub fn real_in(body: &[u8]) -> [u8; 8]
    requires { length body.now ≡ 8 }
    ensures { result ≡ body.now }
{
    let mut real = [0; 8];
    real.copy_from_slice(body);
    real
}
