//! The squares, and what is printed of them.
ghost use Rattle.std.specs.Prelude.{◌≡◌, ◌≤◌, ◌≤ℤ◌, pos, All, IfOk, length};
ghost use Rattle.opc_base.specs.Lanes.{weights_of};
ghost use Rattle.opc_base.specs.Plane.{IsRectWithin};

use geometry_rows::fault::RowFault;
use geometry_rows::shapes::Shapes;
use opc_base::{KernelSet, NoMemory, NoWatch, Rect, Region};
use optics_rows::seeds::Numbers;
use prefix_tables::Tables;
use print_check::print_all;
use std::alloc::Global;
use std::thread::Threads;

/// What the words say.
#[derive(Clone, Copy)]
pub struct Words {
    pub workers: u32,
    pub side: u32,
    pub squares: u32,
    pub rows: u32,
}

/// Pixels print from this intensity on.
const THRESHOLD: i64 = 60_000_000_000;

/// No layout has more squares.
const MOST: u32 = 8192;

/// The sum, wrapping, of the coordinates of all printed rectangles, each times its place in the list.
pub fn sum_of_places<R: Threads + Sync>(
    rt: &R,
    alloc: Global,
    words: &Words,
) -> Result<i64, RowFault> {
    let mask = squares(alloc, words.squares)?;
    if words.workers == 0 || mask.rects().len() > 65_536 {
        return Ok(0);
    }
    let set = Numbers::new(1).set(alloc, 40, 8)?;
    let tables = Tables::build(alloc, &set)?;
    let weights = weights_of(alloc, &set)?;
    let printed = print_all(
        rt,
        alloc,
        words.workers.min(64),
        &mask,
        &tables,
        &weights,
        THRESHOLD,
        side_of(words.side),
        window_of(words.rows),
        &NoWatch,
    )?;
    Ok(places_of(printed.rects()))
}

fn places_of(rects: &[Rect]) -> i64 {
    let mut all = 0i64;
    for (place, rect) in rects.iter().enumerate() {
        let sum = corners_of(rect);
        all = all.wrapping_add(sum.wrapping_mul(place as i64));
    }
    all
}

/// The sum of the coordinates of a rectangle.
fn corners_of(rect: &Rect) -> i64 {
    let low = i64::from(rect.x0).wrapping_add(i64::from(rect.y0));
    let high = i64::from(rect.x1).wrapping_add(i64::from(rect.y1));
    low.wrapping_add(high)
}

fn side_of(side: u32) -> i32
    ensures { (pos 16 ≤ℤ result) × (result ≤ℤ pos 4096) }
{
    side.max(16).min(4096) as i32
}

fn weights_of(alloc: Global, set: &KernelSet) -> Result<Vec<i64>, NoMemory>
    ensures { IfOk result (λ weights. weights.items ≡ weights_of set.now) }
{
    let weights = set
        .kernels
        .as_slice()
        .iter()
        .map(|kernel| i64::from(kernel.weight))
        .collect(alloc)?;
    Ok(weights)
}

/// So many rows of 2,048 pixels, 2,048 at most.
fn window_of(rows: u32) -> Rect
    ensures is { result ≡ record { x0 = pos 0; y0 = pos 0; x1 = pos 2048; y1 = result.y1 } }
    ensures low { pos 0 ≤ℤ result.y1 }
    ensures high { result.y1 ≤ℤ pos 2048 }
{
    Rect {
        x0: 0,
        y0: 0,
        x1: 2048,
        y1: rows.min(2048) as i32,
    }
}

/// So many squares of ten pixels, in rows of 68 with gaps of 20 pixels.
fn squares(alloc: Global, count: u32) -> Result<Region, RowFault>
    ensures { IfOk result (All (IsRectWithin 1048000)) }
{
    let mut shapes = Shapes::new(alloc);
    for k in 0..count.min(MOST) {
        shapes.add_rect(alloc, square(k))?;
    }
    shapes.union(alloc)
}

fn square(k: u32) -> Rect {
    let x = (k % 68 * 30) as i32;
    let y = (k / 68 % 128 * 30) as i32;
    Rect {
        x0: x,
        y0: y,
        x1: x + 10,
        y1: y + 10,
    }
}
