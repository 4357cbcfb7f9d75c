//! The layout of `trial`.
ghost use Rattle.std.specs.Prelude.{◌≡◌, ◌+◌, ◌*◌, ◌%◌, ◌<◌, ◌≤◌, All, IfOk, map, pos};
ghost use Rattle.opc_base.specs.Plane.{IsRectWithin};
ghost use Rattle.gds_writer.specs.MaskFile.{around};
ghost use Rattle.opc_engine.specs.TrialInput.{cell, cells, rect_in, seed_of, trial_layout, trial_name};
ghost use Rattle.opc_engine.specs.TrialWritten.{trial_head};

use gds_records::Head;
use gds_writer::write_outlines;
use opc_base::{Bytes, Name, NoMemory, OutPick, Pix, Pixes, Rect};
use std::alloc::Global;

/// The number that decides the sizes of the first cell.
const FIRST_SEED: u32 = 12345;

/// The real 1 twice: a database unit in user units, and in metres.
const UNITS: [u8; 16] = [0x41, 0x10, 0, 0, 0, 0, 0, 0, 0x41, 0x10, 0, 0, 0, 0, 0, 0];

/// The layout of so many cells, with four rectangles in each.
pub fn trial_layout(alloc: Global, count: u32) -> Result<Bytes, NoMemory>
    requires { count ≤ 64 }
    ensures { IfOk result (λ file. file ≡ trial_layout count) }
{
    let rects = cells(alloc, count)?;
    let outlines = outlines_of(alloc, &rects)?;
    let head = head(alloc)?;
    let out = out_pick(alloc)?;
    write_outlines(alloc, &head, &outlines, &out, 1)
}

/// The head of the library.
fn head(alloc: Global) -> Result<Head, NoMemory>
    ensures { IfOk result (λ head. head ≡ trial_head) }
{
    Ok(Head {
        header: Bytes::from_vec(600_u16.to_be_bytes().to_vec(alloc)?),
        dates: Bytes::from_vec([0; 24].to_vec(alloc)?),
        name: Bytes::from_vec(b"TRIAL\0".to_vec(alloc)?),
        units: Bytes::from_vec(UNITS.to_vec(alloc)?),
    })
}

/// The structure and the layer of the rectangles.
fn out_pick(alloc: Global) -> Result<OutPick, NoMemory>
    ensures layer { IfOk result (λ out. out.layer ≡ 1) }
    ensures datatype { IfOk result (λ out. out.datatype ≡ 0) }
    ensures name { IfOk result (λ out. out.name ≡ trial_name) }
{
    Ok(OutPick {
        layer: 1,
        datatype: 0,
        name: Name::from_vec(b"TRIAL".to_vec(alloc)?),
    })
}

/// The rectangles of the first cells.
fn cells(alloc: Global, count: u32) -> Result<Vec<Rect>, NoMemory>
    requires { count ≤ 64 }
    ensures rects { IfOk result (λ rects. rects.items ≡ cells count) }
    ensures within { IfOk result (λ rects. All (IsRectWithin 1048128) rects.items) }
{
    let mut rects = Vec::new(alloc);
    let mut seed = FIRST_SEED;
    for k in 0..count {
        rects.extend_from_slice(&cell(k, seed))?;
        seed = next_seed(seed);
    }
    Ok(rects)
}

/// The number of the next cell.
fn next_seed(seed: u32) -> u32
    requires { seed < 2147483648 }
    ensures next { result ≡ (1103515245 * seed + 12345) % 2147483648 }
    ensures small { result < 2147483648 }
{
    ((1_103_515_245 * u64::from(seed) + 12_345) % 2_147_483_648) as u32
}

/// The rectangles of a cell. Cells lie 200 pixels apart, eight in a row.
fn cell(k: u32, seed: u32) -> [Rect; 4]
    requires few { k < 64 }
    requires seed { seed ≡ seed_of k }
    ensures rects { result ≡ cell k }
    ensures within { All (IsRectWithin 1048128) result }
{
    let a = seed / 65_536 % 8;
    let b = seed / 1_048_576 % 32;
    [
        rect_in(k, 0, 0, 12 + a, 60 + b),
        rect_in(k, 40, 0, 52 + a, 100),
        rect_in(k, 40, 60, 100, 72 + a),
        rect_in(k, 0, 140, 100, 152 + a),
    ]
}

/// A rectangle of a cell, from the cell's origin.
fn rect_in(k: u32, x0: u32, y0: u32, x1: u32, y1: u32) -> Rect
    requires cell { k < 64 }
    requires low { (x0 < 1000) × (y0 < 1000) }
    requires high { (x1 < 1000) × (y1 < 1000) }
    ensures is { result ≡ rect_in k x0 y0 x1 y1 }
    ensures within { IsRectWithin 1048128 result }
{
    let x = 200 * (k % 8);
    let y = 200 * (k / 8);
    Rect {
        x0: coordinate(x + x0),
        y0: coordinate(y + y0),
        x1: coordinate(x + x1),
        y1: coordinate(y + y1),
    }
}

fn coordinate(n: u32) -> i32
    requires { n < 10000 }
    ensures { result ≡ pos n }
{
    n as i32
}

/// The walks round rectangles.
fn outlines_of(alloc: Global, rects: &[Rect]) -> Result<Vec<Pixes>, NoMemory>
    ensures { IfOk result (λ outlines. outlines.items ≡ map around rects.now) }
{
    let mut outlines = Vec::with_capacity(alloc, rects.len())?;
    for rect in rects {
        outlines.push(Pixes::from_vec(around(alloc, rect)?))?;
    }
    Ok(outlines)
}

/// The corners of a rectangle, from the lower left counterclockwise, and the first again.
fn around(alloc: Global, rect: &Rect) -> Result<Vec<Pix>, NoMemory>
    ensures { IfOk result (λ points. points.items ≡ around rect.now) }
{
    let Rect { x0, y0, x1, y1 } = *rect;
    let points = vec![in alloc;
        Pix { x: x0, y: y0 },
        Pix { x: x1, y: y0 },
        Pix { x: x1, y: y1 },
        Pix { x: x0, y: y1 },
        Pix { x: x0, y: y0 },
    ]?;
    Ok(points)
}
