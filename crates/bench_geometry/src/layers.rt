//! The pieces of work.

ghost use Rattle.std.specs.Prelude.{pos, ◌≤ℤ◌};

use crate::fault::BenchFault;
use crate::layouts::{HIGHEST, frames, squares, squares_apart, tower};
use assist_bars::{BarRules, bars_of};
use geometry_rows::fault::RowFault;
use geometry_rows::moving::{Moving, target_fragments};
use geometry_rows::written::{out_pick, write};
use mask_rules::check_target;
use opc_base::{CutRules, MaskRules};
use polygon_rows::files::polygon_file;
use std::alloc::Global;

/// Edges stay whole up to 109 pixels.
const CUT: CutRules = CutRules {
    piece: 100,
    corner_out: 5,
    corner_in: 5,
    line_end: 10,
};

/// Runs have at least two pixels.
const MASK: MaskRules = MaskRules {
    width: 2,
    space: 2,
    max_in: 8,
    max_out: 16,
};

/// The squares whose fragments move: 32,768 fragments.
const MOVED_SQUARES: u32 = 8192;

/// So many fragments further the next one moves: an odd number, so that each of a power of two has its turn.
const STRIDE: u32 = 7919;

/// One piece of work, and its line.
pub fn run(alloc: Global, layer: &str, count: u32) -> Result<String, BenchFault> {
    match layer {
        "tower" => run_tower(alloc, count),
        "mask" => run_mask(alloc, count),
        "frames" => run_frames(alloc, count),
        "polygons" => run_polygons(alloc, count),
        "tall" => run_tall(alloc, count),
        "target" => run_target(alloc, count),
        "cut" => run_cut(alloc, count, false),
        "odd" => run_cut(alloc, count, true),
        "moves" => run_moves(alloc, MOVED_SQUARES, count),
        "apart" => run_bars(alloc, count, 11),
        "bars" => run_bars(alloc, count, 10),
        _ => Err(BenchFault::Words),
    }
}

/// A small piece of each, and the cut at its limit.
pub fn run_all(alloc: Global) -> Result<String, BenchFault> {
    let mask = run_mask(alloc, 100)?;
    let polygons = run_polygons(alloc, 256)?;
    let least = run_cut(alloc, 8192, false)?;
    let most = run_cut(alloc, 8190, true)?;
    let moves = run_moves(alloc, 64, 768)?;
    Ok(format!(in alloc; "{mask}\n{polygons}\n{least}\n{most}\n{moves}")?)
}

fn run_tower(alloc: Global, count: u32) -> Result<String, BenchFault> {
    let region = tower(alloc, count.min(HIGHEST))?;
    let rects = region.rects().len();
    Ok(format!(in alloc; "tower {rects}")?)
}

fn run_mask(alloc: Global, count: u32) -> Result<String, BenchFault> {
    let region = tower(alloc, count.min(HIGHEST))?;
    let file = write(alloc, &region, &out_pick(alloc, b"MASK")?, 1)?;
    let size = file.as_slice().len();
    Ok(format!(in alloc; "mask {size}")?)
}

/// What polygons are made of: frames of four rectangles.
fn run_frames(alloc: Global, count: u32) -> Result<String, BenchFault> {
    let region = frames(alloc, count)?;
    let rects = region.rects().len();
    Ok(format!(in alloc; "frames {rects}")?)
}

/// One polygon of twelve points for each frame.
fn run_polygons(alloc: Global, count: u32) -> Result<String, BenchFault> {
    let region = frames(alloc, count)?;
    let file = polygon_file(alloc, &region, 1)?;
    let size = file.as_slice().len();
    Ok(format!(in alloc; "polygons {size}")?)
}

/// A tower is one component, with too many corners for one polygon: 64 bytes for each rectangle.
fn run_tall(alloc: Global, count: u32) -> Result<String, BenchFault> {
    let region = tower(alloc, count.min(HIGHEST))?;
    let file = polygon_file(alloc, &region, 1)?;
    let size = file.as_slice().len();
    Ok(format!(in alloc; "tall {size}")?)
}

/// What a cut is made of: squares that keep the rules of targets.
fn run_target(alloc: Global, count: u32) -> Result<String, BenchFault> {
    let region = squares(alloc, count, false)?;
    let keeps = check_target(alloc, &region, &MASK)?.is_none();
    let rects = region.rects().len();
    Ok(format!(in alloc; "target {rects} keeps {keeps}")?)
}

fn run_cut(alloc: Global, count: u32, with_angle: bool) -> Result<String, BenchFault> {
    let region = squares(alloc, count, with_angle)?;
    match target_fragments(alloc, &region, &CUT, &MASK) {
        Ok(fragments) => {
            let count = fragments.count();
            Ok(format!(in alloc; "cut {count} fragments")?)
        }
        Err(RowFault::TooManyFragments(count)) => {
            Ok(format!(in alloc; "cut refuses {count} fragments")?)
        }
        Err(fault) => Err(BenchFault::Row(fault)),
    }
}

/// The scatter bars of edges of at least this length.
fn run_bars(alloc: Global, count: u32, min: i32) -> Result<String, BenchFault>
    requires low { pos 10 ≤ℤ min }
    requires high { min ≤ℤ pos 11 }
{
    let region = squares_apart(alloc, count)?;
    let fragments = target_fragments(alloc, &region, &CUT, &MASK)?;
    let numbers = BarRules {
        gap: 4,
        width: 2,
        end: 1,
        min,
    };
    let bars = bars_of(alloc, &region, &fragments, &MASK, &numbers)?.len();
    Ok(format!(in alloc; "bars {bars}")?)
}

fn run_moves(alloc: Global, squares_moved: u32, count: u32) -> Result<String, BenchFault> {
    let region = squares(alloc, squares_moved, false)?;
    let mut moving = Moving::of_target(alloc, &region, &CUT, MASK)?;
    let refused = refused_moves(&mut moving, count)?;
    Ok(format!(in alloc; "moves {count} refused {refused}")?)
}

/// So many moves, and how many of them a rule refuses. All fragments move in by one pixel, each after one that is far away;
/// then they move back, then out, then in again. A gap of two pixels refuses its two sides' moves out, and nothing else is
/// refused: in a row of 64 squares 126 of the first 768 moves are.
fn refused_moves(moving: &mut Moving, count: u32) -> Result<u32, BenchFault> {
    let fragments = moving.fragments().count();
    if fragments == 0 {
        return Ok(0);
    }
    let mut refused = 0u32;
    for k in 0..count {
        let i = k.wrapping_mul(STRIDE) % fragments;
        let to = (k / fragments % 3) as i32 - 1;
        if moving.take(i, to)?.is_some() {
            refused = refused.saturating_add(1);
        }
    }
    Ok(refused)
}
