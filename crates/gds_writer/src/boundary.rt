//! The element of an outline.
ghost use Rattle.std.specs.Prelude.{◌≡◌, ◌<◌, ◌≤◌, ◌++◌, pos, length, All, IfOk, OnOk};
ghost use Rattle.std.specs.Int.{w16, to_be_bytes};
ghost use Rattle.std.specs.List.{flat_map};
ghost use Rattle.opc_base.specs.Plane.{IsPixWithin, IsRectWithin};
ghost use Rattle.opc_base.specs.Ranges.{IsBetween};
ghost use Rattle.gds_writer.specs.MaskFile.{around, boundary, bytes_of, point_bytes};
ghost use Rattle.gds_writer.specs.Outlines.{IsOutline};

use gds_records::put_record;
use opc_base::{Bytes, NoMemory, OutPick, Pix, Rect};
use std::alloc::Global;

/// Appends BOUNDARY, LAYER, DATATYPE, XY and ENDEL of an outline.
pub fn put_boundary(
    alloc: Global,
    file: &mut Bytes,
    out: &OutPick,
    points: &[Pix],
    grid: i32,
) -> Result<(), NoMemory>
    requires outline { IsOutline points.now }
    requires grid { IsBetween (pos 1) (pos 1000) grid }
    ensures written { OnOk result (file.new ≡ file.old ++ bytes_of (boundary out.now grid points.now)) }
    ensures fits { (out.now.layer < 65536) × (out.now.datatype < 65536) }
{
    let layer = number_bytes(out.layer);
    let datatype = number_bytes(out.datatype);
    let body = outline_bytes(alloc, points, grid)?;
    put_record(alloc, file, 0x08, 0x00, &[])?;
    put_record(alloc, file, 0x0D, 0x02, &layer)?;
    put_record(alloc, file, 0x0E, 0x02, &datatype)?;
    put_record(alloc, file, 0x10, 0x03, body.as_slice())?;
    put_record(alloc, file, 0x11, 0x00, &[])
}

/// A number of two bytes, which says with them that it fits.
fn number_bytes(number: u16) -> [u8; 2]
    ensures bytes { result ≡ to_be_bytes w16 number }
    ensures fits { number < 65536 }
{
    number.to_be_bytes()
}

/// The points of an outline.
fn outline_bytes(alloc: Global, points: &[Pix], grid: i32) -> Result<Vec<u8>, NoMemory>
    requires within { All (IsPixWithin 1048128) points.now }
    requires few { length points.now ≤ 8191 }
    requires grid { IsBetween (pos 1) (pos 1000) grid }
    ensures { IfOk result (λ body. body.items ≡ flat_map (point_bytes grid) points.now) }
{
    let mut body = Vec::with_capacity(alloc, 8 * points.len())?;
    for point in points {
        body.extend_from_slice(&point_bytes(*point, grid))?;
    }
    Ok(body)
}

/// The corners of a rectangle, from the lower left counterclockwise, and the first again.
pub fn around(rect: &Rect) -> [Pix; 5]
    requires rect { IsRectWithin 1048128 rect.now }
    ensures points { result ≡ around rect.now }
    ensures outline { IsOutline result }
{
    let Rect { x0, y0, x1, y1 } = *rect;
    [
        Pix { x: x0, y: y0 },
        Pix { x: x1, y: y0 },
        Pix { x: x1, y: y1 },
        Pix { x: x0, y: y1 },
        Pix { x: x0, y: y0 },
    ]
}

/// A point in database units: x, then y.
fn point_bytes(point: Pix, grid: i32) -> [u8; 8]
    requires point { IsPixWithin 1048128 point }
    requires grid { IsBetween (pos 1) (pos 1000) grid }
    ensures { result ≡ point_bytes grid point }
{
    let [a, b, c, d] = (point.x * grid).to_be_bytes();
    let [e, f, g, h] = (point.y * grid).to_be_bytes();
    [a, b, c, d, e, f, g, h]
}
