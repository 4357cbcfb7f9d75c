//! The order of areas along a curve.
//!
//! Hilbert's curve goes through each point of a square once, and through each of its quarters, and through each of their
//! quarters, before it leaves it. So areas that follow one another along it lie near one another. No order would be wrong:
//! this one makes a walk short.
ghost use Rattle.std.specs.Prelude.{◌≡◌, ◌≤◌, IfOk, length, map};
ghost use Rattle.std.specs.List.{range_with_len};
ghost use Rattle.fragment.specs.Index.{IsOrder};

use opc_base::{NoMemory, Rect};
use std::alloc::Global;

/// The upper half of the numbers of 32 bits begins here.
const HALF: u32 = 1 << 31;

/// So many numbers have 32 bits.
const WHOLE: i64 = 1 << 32;

/// The numbers of the areas, in the order of their middles along the curve.
pub fn order_of(alloc: Global, areas: &[Rect]) -> Result<Vec<u32>, NoMemory>
    requires { length areas.now ≤ 32768 }
    ensures { IfOk result (λ order. IsOrder (length areas.now) order.items) }
{
    let mut places = places_of(alloc, areas)?;
    places.sort_unstable();
    let order = numbers_of(alloc, &places)?;
    Ok(order)
}

/// The numbers alone.
fn numbers_of(alloc: Global, places: &[(u64, u32)]) -> Result<Vec<u32>, NoMemory>
    ensures { IfOk result (λ order. order.items ≡ map (λ p. p.1) places.now) }
{
    let mut order = Vec::with_capacity(alloc, places.len())?;
    for place in places {
        order.push(place.1)?;
    }
    Ok(order)
}

/// Where the middle of each area lies along the curve, with its number.
fn places_of(alloc: Global, areas: &[Rect]) -> Result<Vec<(u64, u32)>, NoMemory>
    requires { length areas.now ≤ 32768 }
    ensures { IfOk result (λ places. map (λ p. p.1) places.items ≡ range_with_len 0 (length areas.now)) }
{
    let mut places = Vec::with_capacity(alloc, areas.len())?;
    for k in 0..areas.len() {
        let area = areas[k];
        let place = curve_place(middle(area.x0, area.x1), middle(area.y0, area.y1));
        places.push((place, k as u32))?;
    }
    Ok(places)
}

/// The middle of two numbers, counted from the least one.
fn middle(low: i32, high: i32) -> u32 {
    ((i64::from(low) + i64::from(high) + WHOLE) / 2) as u32
}

/// The place of a point on the curve.
fn curve_place(x: u32, y: u32) -> u64 {
    let mut point = (x, y);
    let mut place = 0;
    for _ in 0..32 {
        let right = point.0 >= HALF;
        let upper = point.1 >= HALF;
        place = place << 2 | quarter(right, upper);
        point = inside(point, right, upper);
    }
    place
}

/// The turn of a quarter of the square: left below, left above, right above, right below.
fn quarter(right: bool, upper: bool) -> u64 {
    match (right, upper) {
        (false, false) => 0,
        (false, true) => 1,
        (true, true) => 2,
        (true, false) => 3,
    }
}

/// The point of a quarter as one of the whole square, turned so that the curve enters at the left below.
fn inside(point: (u32, u32), right: bool, upper: bool) -> (u32, u32) {
    let (x, y) = (point.0 << 1, point.1 << 1);
    match (right, upper) {
        (_, true) => (x, y),
        (false, false) => (y, x),
        (true, false) => (!y, !x),
    }
}
