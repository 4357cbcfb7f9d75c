//! The file of outlines.
ghost use Rattle.std.specs.Prelude.{◌≡◌, ◌≤◌, ◌+◌, ◌-◌, ◌*◌, ◌^◌, ◌%◌, min, pos, length, map, All, IfOk};
ghost use Rattle.std.specs.List.{sum_by};
ghost use Rattle.opc_base.specs.declared.outline.Outline.TheVariants.{Polygon};
ghost use Rattle.opc_base.specs.Ranges.{IsBetween};
ghost use Rattle.opc_base.specs.Target.{target};
ghost use Rattle.gds_records.specs.Records.{records_from};
ghost use Rattle.gds_model.specs.Library.{IsLibraryOf};
ghost use Rattle.gds_writer.specs.Expansion.{ExpandsTo};
ghost use Rattle.gds_writer.specs.Faultless.{IsFaultless};
ghost use Rattle.gds_writer.specs.MaskFile.{outline_file, outline_records, padded, standing};
ghost use Rattle.gds_writer.specs.MaskLibrary.{outline_library};
ghost use Rattle.gds_writer.specs.Outlines.{IsOutline};

use crate::boundary::put_boundary;
use crate::opening::{frame_size, put_opening};
use gds_records::{Head, put_record};
use opc_base::{Bytes, NoMemory, OutPick, Pixes};
use std::alloc::Global;

/// The file of a layout of one structure, which has a BOUNDARY for each outline. `grid` is the number of database units in
/// a pixel. The memory of the file is taken once, before its first byte.
pub fn write_outlines(
    alloc: Global,
    head: &Head,
    outlines: &[Pixes],
    out: &OutPick,
    grid: i32,
) -> Result<Bytes, NoMemory>
    requires header { length head.now.header ≡ 2 }
    requires dates { length head.now.dates ≡ 24 }
    requires name_even { length head.now.name % 2 ≡ 0 }
    requires name_fits { length head.now.name ≤ 65530 }
    requires units { length head.now.units ≡ 16 }
    requires outlines { All IsOutline outlines.now }
    requires grid { IsBetween (pos 1) (pos 1000) grid }
    ensures file { IfOk result (λ bytes. bytes ≡ outline_file head.now out.now grid outlines.now) }
    ensures records { IfOk result (λ bytes. records_from bytes 0 ≡ standing 0 (outline_records head.now out.now grid outlines.now)) }
    ensures library { IfOk result (λ bytes. IsLibraryOf bytes (outline_library head.now out.now grid outlines.now)) }
    ensures expands { IfOk result (λ bytes. ExpandsTo bytes out.now.name out.now.layer out.now.datatype grid (target (map Polygon outlines.now))) }
    ensures faultless { IfOk result (λ bytes. IsFaultless bytes out.now.name out.now.layer out.now.datatype grid) }
{
    let size = file_size(head, outlines, out);
    let mut file = Bytes::from_vec(Vec::with_capacity(alloc, size)?);
    put_opening(alloc, &mut file, head, out)?;
    for points in outlines {
        put_boundary(alloc, &mut file, out, points.as_slice(), grid)?;
    }
    put_record(alloc, &mut file, 0x07, 0x00, &[])?;
    put_record(alloc, &mut file, 0x04, 0x00, &[])?;
    Ok(file)
}

/// How many bytes the file has: 24 for each outline and 8 for each of its points, and what stands before and behind them.
fn file_size(head: &Head, outlines: &[Pixes], out: &OutPick) -> usize
    requires name { length head.now.name ≤ 65530 }
    ensures { result ≡ min (98 + length head.now.name + length (padded out.now.name) + sum_by (λ points. 24 + 8 * length points) outlines.now) (2 ^ 64 - 1) }
{
    let mut size = frame_size(head, out);
    for outline in outlines {
        let element = outline
            .as_slice()
            .len()
            .saturating_mul(8)
            .saturating_add(24);
        size = size.saturating_add(element);
    }
    size
}
