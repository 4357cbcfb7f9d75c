//! The window of a target: which pixels of its mask are printed.
ghost use Rattle.std.specs.Prelude.{◌≡◌, ◌<◌, ◌≤ℤ◌, pos, All, length, IfErr, IfOk};
ghost use Rattle.opc_base.specs.Plane.{IsRectWithin, cover};
ghost use Rattle.print_check.specs.Near.{Encloses};
ghost use Rattle.print_check.specs.Printed.{HasFewPixels};
ghost use Rattle.print_check.specs.Tiles.{area_of};
ghost use Rattle.opc_engine.specs.Ready.{CanOpen, subject_of};
ghost use Rattle.opc_engine.specs.Windows.{IsWindow, WindowGives, margin_of, window_round};
ghost use Rattle.opc_engine.specs.Wrapped.{HidesNoMemory};

use crate::ready::Ready;
use crate::{EngineFault, MAX_WINDOW};
use opc_base::{Rect, Region};

/// How far from 0 a coordinate of a mask can lie.
const MASK_LIMIT: i32 = 1_048_128;

/// The window of what is ready, unless it has too many pixels.
pub fn window_of(given: &Ready) -> Result<Rect, EngineFault>
    requires { CanOpen given.now }
    ensures gives { WindowGives (subject_of given.now) result }
    ensures within { IfOk result (IsRectWithin 1048128) }
    ensures few { IfOk result (HasFewPixels 4194304) }
    ensures memory { IfErr result (λ fault. ¬ HidesNoMemory fault) }
{
    let margin = margin_of(given);
    let window = window_with(&given.region, margin);
    let pixels = area_of(window);
    if pixels > MAX_WINDOW {
        return Err(EngineFault::TooWide {
            pixels: pixels as u64,
        });
    }
    Ok(window)
}

/// How far a mask can lie outside its target, and be seen from there.
fn margin_of(given: &Ready) -> i32
    requires { CanOpen given.now }
    ensures is { result ≡ margin_of (subject_of given.now) }
    ensures low { pos 0 ≤ℤ result }
    ensures high { result ≤ℤ pos 192 }
{
    given.rules.mover.max_out + i32::from(given.kernels.reach)
}

/// The least rectangle that has a region, grown on all sides, and cut to where a mask can lie. An empty region has no
/// such rectangle, and its window has no pixel.
fn window_with(region: &Region, margin: i32) -> Rect
    requires within { All (IsRectWithin 1048000) region.now }
    requires low { pos 0 ≤ℤ margin }
    requires high { margin ≤ℤ pos 192 }
    ensures is { IsWindow (cover region.now) margin result }
    ensures within { IsRectWithin 1048128 result }
{
    let rects = region.rects();
    if rects.len() == 0 {
        return Rect {
            x0: 0,
            y0: 0,
            x1: 0,
            y1: 0,
        };
    }
    window_round(least_rect(rects), margin)
}

/// The pixels at most so far from a rectangle, as far as a mask can reach.
fn window_round(rect: Rect, margin: i32) -> Rect
    requires within { IsRectWithin 1048000 rect }
    requires low { pos 0 ≤ℤ margin }
    requires high { margin ≤ℤ pos 192 }
    ensures is { result ≡ window_round margin rect }
    ensures within { IsRectWithin 1048128 result }
{
    Rect {
        x0: (rect.x0 - margin).max(-MASK_LIMIT),
        y0: (rect.y0 - margin).max(-MASK_LIMIT),
        x1: (rect.x1 + margin).min(MASK_LIMIT),
        y1: (rect.y1 + margin).min(MASK_LIMIT),
    }
}

/// The least rectangle that has all of these.
fn least_rect(rects: &[Rect]) -> Rect
    requires some { 0 < length rects.now }
    requires within { All (IsRectWithin 1048000) rects.now }
    ensures each { All (Encloses result) rects.now }
    ensures least { (other : Rect) → All (Encloses other) rects.now → Encloses other result }
    ensures within { IsRectWithin 1048000 result }
{
    let mut least = rects[0];
    for rect in rects {
        least = least_of_both(least, *rect);
    }
    least
}

/// The least rectangle that has both.
fn least_of_both(a: Rect, b: Rect) -> Rect
    requires a { IsRectWithin 1048000 a }
    requires b { IsRectWithin 1048000 b }
    ensures a { Encloses result a }
    ensures b { Encloses result b }
    ensures least { (other : Rect) → Encloses other a → Encloses other b → Encloses other result }
    ensures within { IsRectWithin 1048000 result }
{
    Rect {
        x0: a.x0.min(b.x0),
        y0: a.y0.min(b.y0),
        x1: a.x1.max(b.x1),
        y1: a.y1.max(b.y1),
    }
}

/// How many pixels a window has.
fn area_of(window: Rect) -> usize
    requires { IsRectWithin 1048128 window }
    ensures { result ≡ area_of window }
{
    window.y1.abs_diff(window.y0) as usize * window.x1.abs_diff(window.x0) as usize
}
