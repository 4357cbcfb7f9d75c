//! Mask files of regions, and the regions that are read back from them.
ghost use Rattle.std.specs.Prelude.{◌≡◌, ◌≤◌, pos, length, All, IsTrue, IfOk};
ghost use Rattle.opc_base.specs.Plane.{IsRectWithin};
ghost use Rattle.opc_base.specs.Ranges.{IsBetween, is_name_byte};

use crate::fault::RowFault;
use gds_expand::expand;
use gds_library::read_library;
use gds_records::Head;
use gds_writer::write_mask;
use opc_base::{Bytes, Name, OutPick, Pick, Region};
use rect_union::union;
use std::alloc::Global;

/// HEADER 600, BGNLIB, LIBNAME `LIB`, UNITS.
pub const HEAD: [u8; 62] = [
    0, 6, 0, 2, 2, 88, 0, 28, 1, 2, 0, 0, 0, 0, 0, 0, 0, 0, 0, 0, 0, 0, 0, 0, 0, 0, 0, 0, 0, 0, 0,
    0, 0, 0, 0, 8, 2, 6, 76, 73, 66, 0, 0, 20, 3, 5, 65, 16, 0, 0, 0, 0, 0, 0, 65, 16, 0, 0, 0, 0,
    0, 0,
];

/// The bodies of the head's records.
pub fn head(alloc: Global) -> Result<Head, RowFault>
    ensures header { IfOk result (λ head. length head.header ≡ 2) }
    ensures dates { IfOk result (λ head. length head.dates ≡ 24) }
    ensures name { IfOk result (λ head. length head.name ≡ 4) }
    ensures units { IfOk result (λ head. length head.units ≡ 16) }
{
    Ok(Head {
        header: bytes(alloc, &HEAD[4..6])?,
        dates: bytes(alloc, &HEAD[10..34])?,
        name: bytes(alloc, &HEAD[38..42])?,
        units: bytes(alloc, &HEAD[46..])?,
    })
}

fn bytes(alloc: Global, items: &[u8]) -> Result<Bytes, RowFault>
    ensures { IfOk result (λ made. made ≡ items.now) }
{
    Ok(Bytes::from_vec(items.to_vec(alloc)?))
}

/// Layer 1, datatype 0.
pub fn out_pick(alloc: Global, name: &[u8]) -> Result<OutPick, RowFault>
    requires some { 1 ≤ length name.now }
    requires few { length name.now ≤ 32 }
    requires plain { All (λ b. IsTrue (is_name_byte b)) name.now }
{
    Ok(OutPick {
        layer: 1,
        datatype: 0,
        name: Name::from_vec(name.to_vec(alloc)?),
    })
}

/// The mask file of a region.
pub fn write(alloc: Global, region: &Region, out: &OutPick, grid: i32) -> Result<Bytes, RowFault>
    requires rects { All (IsRectWithin 1048000) region.now }
    requires grid { IsBetween (pos 1) (pos 1000) grid }
{
    Ok(write_mask(alloc, &head(alloc)?, region, out, grid)?)
}

/// Layer 1 and datatype 0 of the structure of this name, with so many database units a pixel.
pub fn pick(alloc: Global, name: &[u8], grid: i32) -> Result<Pick, RowFault>
    requires some { 1 ≤ length name.now }
    requires few { length name.now ≤ 255 }
    requires grid { IsBetween (pos 1) (pos 1000) grid }
{
    Ok(Pick {
        top: Name::from_vec(name.to_vec(alloc)?),
        layer: 1,
        datatype: 0,
        grid,
    })
}

/// The pixels that a layout's structure covers.
pub fn read_back(alloc: Global, file: &[u8], pick: &Pick) -> Result<Region, RowFault> {
    let Ok(library) = read_library(alloc, file) else {
        return Err(RowFault::NoLayout);
    };
    let Ok(placed) = expand(alloc, &library, pick) else {
        return Err(RowFault::NoLayout);
    };
    Ok(union(alloc, &placed)?)
}
