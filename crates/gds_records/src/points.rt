//! The points of XY records.
ghost use Rattle.std.specs.Prelude.{◌≡◌, ◌≤◌, ◌+◌, ◌*◌, length};
ghost use Rattle.gds_records.specs.Points.{point_in};

use byteorder::{BigEndian, ByteOrder};

/// A point of a layout, in database units.
#[derive(Clone, Copy, Debug, PartialEq, Eq)]
pub struct Point {
    pub x: i32,
    pub y: i32,
}

/// The point of this number, counted from 0, in the body of an XY record.
pub fn point_at(body: &[u8], i: usize) -> Point
    requires { 8 * i + 8 ≤ length body.now }
    ensures { result ≡ point_in body.now i }
{
    Point {
        x: BigEndian::read_i32(&body[8 * i..]),
        y: BigEndian::read_i32(&body[8 * i + 4..]),
    }
}
