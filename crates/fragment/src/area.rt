//! Areas of the plane: x from `x0` to `x1` and y from `y0` to `y1`, both included.
ghost use Rattle.std.specs.Prelude.{◌≡◌, ◌+◌, ◌*◌, ◌<◌, ◌≤◌, ◌≤ℤ◌, ◌+ℤ◌, ◌-ℤ◌, ℕ, pos, All, IfOk, length};
ghost use Rattle.fragment.specs.Index.{AreEnclosed, IsInside, IsShrunk, area_at, area_of, areas_of, in_order, reaches};
ghost use Rattle.outline_model.specs.Limits.{IsPlacedFragment};

use crate::area_tree::BLOCK;
use opc_base::{NoMemory, Rect};
use outline_model::{Fragment, is_vertical};
use std::alloc::Global;

/// How far around a fragment's piece on the target its moves can matter, in pixels.
pub const REACH: i32 = 128;

/// The area within 128 of a fragment's piece on the target.
pub fn area_of(fragment: &Fragment) -> Rect
    requires { IsPlacedFragment fragment.now }
    ensures { result ≡ area_of fragment.now }
{
    if is_vertical(fragment.side) {
        Rect {
            x0: fragment.edge - REACH,
            y0: fragment.lo - REACH,
            x1: fragment.edge + REACH,
            y1: fragment.hi + REACH,
        }
    } else {
        Rect {
            x0: fragment.lo - REACH,
            y0: fragment.edge - REACH,
            x1: fragment.hi + REACH,
            y1: fragment.edge + REACH,
        }
    }
}

/// Whether the area has a pixel of the rectangle.
pub fn reaches(area: &Rect, rect: &Rect) -> bool
    ensures { result ≡ reaches area.now rect.now }
{
    (rect.x0 <= area.x1) & (area.x0 < rect.x1) & (rect.y0 <= area.y1) & (area.y0 < rect.y1)
}

/// The rectangle, smaller by a margin on each side. Where it is less wide than two margins, its sides change places.
pub fn shrunk(rect: &Rect, margin: i32) -> Rect
    requires least { pos 0 ≤ℤ margin }
    requires most { margin ≤ℤ pos 128 }
    ensures { IsShrunk rect.now margin result }
{
    Rect {
        x0: raised(rect.x0, margin),
        y0: raised(rect.y0, margin),
        x1: lowered(rect.x1, margin),
        y1: lowered(rect.y1, margin),
    }
}

/// The number with the margin added, or itself where that would not fit.
fn raised(place: i32, margin: i32) -> i32
    requires least { pos 0 ≤ℤ margin }
    requires most { margin ≤ℤ pos 128 }
    ensures { result ≤ℤ (place +ℤ margin) }
{
    if place <= i32::MAX - REACH {
        place + margin
    } else {
        place
    }
}

/// The number with the margin taken away, or itself where that would not fit.
fn lowered(place: i32, margin: i32) -> i32
    requires least { pos 0 ≤ℤ margin }
    requires most { margin ≤ℤ pos 128 }
    ensures { (place -ℤ margin) ≤ℤ result }
{
    if place >= i32::MIN + REACH {
        place - margin
    } else {
        place
    }
}

/// The areas of these fragments.
pub fn areas_of(alloc: Global, fragments: &[Fragment]) -> Result<Vec<Rect>, NoMemory>
    requires { All IsPlacedFragment fragments.now }
    ensures { IfOk result (λ areas. areas.items ≡ areas_of fragments.now) }
{
    let mut areas = Vec::new(alloc);
    for fragment in fragments {
        areas.push(area_of(fragment))?;
    }
    Ok(areas)
}

/// The areas of these numbers.
pub fn in_order(alloc: Global, areas: &[Rect], order: &[u32]) -> Result<Vec<Rect>, NoMemory>
    requires { All (λ k. k < length areas.now) order.now }
    ensures { IfOk result (λ placed. placed.items ≡ in_order areas.now order.now) }
{
    let mut placed = Vec::with_capacity(alloc, order.len())?;
    for k in order {
        placed.push(areas[*k as usize])?;
    }
    Ok(placed)
}

/// An area round each 16 areas.
pub fn enclose(alloc: Global, areas: &[Rect]) -> Result<Vec<Rect>, NoMemory>
    requires { length areas.now ≤ 32768 }
    ensures enclosed { IfOk result (λ outer. AreEnclosed areas.now outer.items) }
    ensures few { IfOk result (λ outer. length outer.items ≤ 32768) }
{
    let mut outer = Vec::new(alloc);
    let blocks = (areas.len() + BLOCK - 1) / BLOCK;
    for i in 0..blocks {
        let first = BLOCK * i;
        let past = areas.len().min(first + BLOCK);
        outer.push(enclosing(areas, first, past))?;
    }
    Ok(outer)
}

/// The area round those from one number up to another.
fn enclosing(areas: &[Rect], first: usize, past: usize) -> Rect
    requires some { first < past }
    requires within { past ≤ length areas.now }
    ensures { (k : ℕ) → first ≤ k → k < past → IsInside (area_at areas.now k) result }
{
    let mut area = areas[first];
    for k in first..past {
        area = around(&area, &areas[k]);
    }
    area
}

/// The area round two.
fn around(first: &Rect, second: &Rect) -> Rect
    ensures first { IsInside first.now result }
    ensures second { IsInside second.now result }
{
    Rect {
        x0: first.x0.min(second.x0),
        y0: first.y0.min(second.y0),
        x1: first.x1.max(second.x1),
        y1: first.y1.max(second.y1),
    }
}
