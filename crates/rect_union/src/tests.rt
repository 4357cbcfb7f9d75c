//! Unions of polygons, worked out by hand.

ghost use Rattle.std.specs.Prelude.{◌≡◌, ◌⊎◌, ◌≤ℤ◌, ◌<ℤ◌, pos, true, All, IfOk, OnOk};
ghost use Rattle.opc_base.specs.Cover.{IsClosed, IsPlaced, IsPolygon, IsRectilinear, IsStraight};
ghost use Rattle.opc_base.specs.Plane.{IsPixWithin};

use super::*;
use crate::spread::{are_many_in_rows, rects_of};
use crate::strips::{striped_rects, striped_within};
use crate::sweep::SweepEnd;
use crate::swept::swept_rects;
use opc_base::{NoMemory, Outline, Pix, Pixes, Placed, Rect};
use std::alloc::Global;
use std::process::Abort;
use std::test::Fail;

/// Adds the polygon with these points, which is closed, along the grid and within the limit.
fn add(
    rt: &impl Abort,
    alloc: Global,
    outlines: &mut Vec<Outline>,
    points: &[(i32, i32)],
) -> Result<(), NoMemory>
    requires { All IsPlaced outlines.old.items }
    ensures { OnOk result (All IsPlaced outlines.new.items) }
{
    let mut pixes = Vec::new(alloc);
    for (x, y) in points {
        pixes.push(Pix { x: *x, y: *y })?;
    }
    assert!(rt; is_polygon(&pixes), "{pixes:?}");
    outlines.push(Outline::Polygon(Pixes::from_vec(pixes)))?;
    Ok(())
}

fn is_polygon(points: &[Pix]) -> bool
    ensures { result ≡ true → IsPolygon points.now }
{
    if !is_closed(points) {
        return false;
    }
    if !are_straight(points) {
        return false;
    }
    are_within(points)
}

fn is_closed(points: &[Pix]) -> bool
    ensures { result ≡ true → IsClosed points.now }
{
    if points.len() == 0 {
        return false;
    }
    let first = points[0];
    let last = points[points.len() - 1];
    is_same(first, last)
}

fn is_same(first: Pix, second: Pix) -> bool
    ensures { result ≡ true → first ≡ second }
{
    first.x == second.x && first.y == second.y
}

fn are_straight(points: &[Pix]) -> bool
    ensures { result ≡ true → IsRectilinear points.now }
{
    for index in 1..points.len() {
        if !is_straight(points[index - 1], points[index]) {
            return false;
        }
    }
    true
}

fn is_straight(from: Pix, to: Pix) -> bool
    ensures { result ≡ true → IsStraight from to }
{
    from.x == to.x || from.y == to.y
}

fn are_within(points: &[Pix]) -> bool
    ensures { result ≡ true → All (IsPixWithin 1048000) points.now }
{
    for point in points {
        if !is_within(*point) {
            return false;
        }
    }
    true
}

fn is_within(point: Pix) -> bool
    ensures { result ≡ true → IsPixWithin 1048000 point }
{
    point.x.unsigned_abs() <= 1_048_000 && point.y.unsigned_abs() <= 1_048_000
}

fn rect(x0: i32, y0: i32, x1: i32, y1: i32) -> Rect {
    Rect { x0, y0, x1, y1 }
}

#[test]
fn unites_overlaps_and_a_keyhole(rt: HostRuntime) -> Result<(), Fail> {
    let alloc = rt.alloc();
    let mut outlines = Vec::new(alloc);
    add(
        &rt,
        alloc,
        &mut outlines,
        &[(0, 0), (10, 0), (10, 4), (0, 4), (0, 0)],
    )?;
    add(
        &rt,
        alloc,
        &mut outlines,
        &[(5, 2), (12, 2), (12, 8), (5, 8), (5, 2)],
    )?;
    add(
        &rt,
        alloc,
        &mut outlines,
        &[
            (20, 0),
            (30, 0),
            (30, 10),
            (20, 10),
            (20, 5),
            (23, 5),
            (23, 7),
            (27, 7),
            (27, 3),
            (23, 3),
            (23, 5),
            (20, 5),
            (20, 0),
        ],
    )?;
    let region = union(alloc, &Placed::from_outlines(outlines))?;
    let wanted = [
        rect(0, 0, 10, 2),
        rect(20, 0, 30, 3),
        rect(0, 2, 12, 4),
        rect(20, 3, 23, 7),
        rect(27, 3, 30, 7),
        rect(5, 4, 12, 8),
        rect(20, 7, 30, 10),
    ];
    assert_eq!(rt; region.rects(), wanted.as_slice());
    Ok(())
}

// A square walked one way, and over it one walked the other way, and a square walked twice.
#[test]
fn adds_no_windings_across_shapes(rt: HostRuntime) -> Result<(), Fail> {
    let alloc = rt.alloc();
    let mut outlines = Vec::new(alloc);
    add(
        &rt,
        alloc,
        &mut outlines,
        &[(0, 0), (4, 0), (4, 4), (0, 4), (0, 0)],
    )?;
    add(
        &rt,
        alloc,
        &mut outlines,
        &[(0, 0), (0, 4), (4, 4), (4, 0), (0, 0)],
    )?;
    add(
        &rt,
        alloc,
        &mut outlines,
        &[
            (10, 0),
            (14, 0),
            (14, 4),
            (10, 4),
            (10, 0),
            (14, 0),
            (14, 4),
            (10, 4),
            (10, 0),
        ],
    )?;
    let region = union(alloc, &Placed::from_outlines(outlines))?;
    let wanted = [rect(0, 0, 4, 4), rect(10, 0, 14, 4)];
    assert_eq!(rt; region.rects(), wanted.as_slice());
    Ok(())
}

// Squares that touch at a corner only stay apart, and are found.
#[test]
fn finds_where_squares_touch(rt: HostRuntime) -> Result<(), Fail> {
    let alloc = rt.alloc();
    let mut outlines = Vec::new(alloc);
    add(
        &rt,
        alloc,
        &mut outlines,
        &[(0, 0), (10, 0), (10, 10), (0, 10), (0, 0)],
    )?;
    add(
        &rt,
        alloc,
        &mut outlines,
        &[(10, 10), (20, 10), (20, 20), (10, 20), (10, 10)],
    )?;
    let region = union(alloc, &Placed::from_outlines(outlines))?;
    let rects = region.rects();
    let wanted = [rect(0, 0, 10, 10), rect(10, 10, 20, 20)];
    assert_eq!(rt; rects, wanted.as_slice());
    let touch = first_touch(alloc, rects)?;
    assert_eq!(rt; touch, Some(Pix { x: 9, y: 9 }));
    Ok(())
}

// A bar across both borders, a column across each, and one that ends at the first.
#[test]
fn sweeps_in_strips(rt: HostRuntime) -> Result<(), Fail> {
    let alloc = rt.alloc();
    let mut outlines = Vec::new(alloc);
    add(
        &rt,
        alloc,
        &mut outlines,
        &[(0, 0), (3, 0), (3, 5), (0, 5), (0, 0)],
    )?;
    add(
        &rt,
        alloc,
        &mut outlines,
        &[(-2, -1), (9, -1), (9, 0), (-2, 0), (-2, -1)],
    )?;
    add(
        &rt,
        alloc,
        &mut outlines,
        &[(5, 0), (7, 0), (7, 3), (5, 3), (5, 0)],
    )?;
    add(
        &rt,
        alloc,
        &mut outlines,
        &[(1, 7), (2, 7), (2, 9), (1, 9), (1, 7)],
    )?;
    let rects = rects_of(alloc, &outlines)?;
    let striped = striped_rects(alloc, &rects, &[2, 6])?;
    let wanted = [
        rect(-2, -1, 9, 0),
        rect(0, 0, 3, 5),
        rect(5, 0, 7, 3),
        rect(1, 7, 2, 9),
    ];
    assert_eq!(rt; striped.as_slice(), wanted.as_slice());
    Ok(())
}

// A bar reaches both borders, and a square the first: three to be swept again.
#[test]
fn gives_up_where_too_many_reach_the_borders(rt: HostRuntime) -> Result<(), Fail> {
    let alloc = rt.alloc();
    let mut outlines = Vec::new(alloc);
    add(
        &rt,
        alloc,
        &mut outlines,
        &[(0, 0), (9, 0), (9, 1), (0, 1), (0, 0)],
    )?;
    add(
        &rt,
        alloc,
        &mut outlines,
        &[(1, 2), (3, 2), (3, 4), (1, 4), (1, 2)],
    )?;
    let rects = rects_of(alloc, &outlines)?;
    let enough = striped_within(alloc, &rects, &[2, 6], usize::MAX, 3)?;
    assert!(rt; matches!(enough, SweepEnd::Swept(_)));
    let too_few = striped_within(alloc, &rects, &[2, 6], usize::MAX, 2)?;
    assert!(rt; matches!(too_few, SweepEnd::TooLong));
    Ok(())
}

/// Rectangles that begin at a column below `across`, with sides up to these sizes.
#[derive(Clone, Copy)]
struct Layout {
    across: u16,
    width: u16,
    height: u16,
}

/// So many rectangles of the layout, each third one walked twice.
fn outlines_of(
    rt: &impl Abort,
    alloc: Global,
    layout: &Layout,
    count: u16,
) -> Result<Vec<Outline>, NoMemory>
    ensures { IfOk result (λ outlines. All IsPlaced outlines.items) }
{
    let mut state = 1;
    let mut outlines = Vec::new(alloc);
    for index in 0..count {
        let x0 = roll(&mut state, layout.across);
        let drawn = Rect {
            x0,
            y0: -roll(&mut state, layout.height),
            x1: x0 + 1 + roll(&mut state, layout.width),
            y1: 1 + roll(&mut state, layout.height),
        };
        add_walk(rt, alloc, &mut outlines, &drawn, index % 3 == 0)?;
    }
    Ok(outlines)
}

/// Adds the rectangle, walked once or twice.
fn add_walk(
    rt: &impl Abort,
    alloc: Global,
    outlines: &mut Vec<Outline>,
    rect: &Rect,
    twice: bool,
) -> Result<(), NoMemory>
    requires { All IsPlaced outlines.old.items }
    ensures { OnOk result (All IsPlaced outlines.new.items) }
{
    let a = (rect.x0, rect.y0);
    let b = (rect.x1, rect.y0);
    let c = (rect.x1, rect.y1);
    let d = (rect.x0, rect.y1);
    if twice {
        add(rt, alloc, outlines, &[a, b, c, d, a, b, c, d, a])?;
    } else {
        add(rt, alloc, outlines, &[a, b, c, d, a])?;
    }
    Ok(())
}

/// The next number of a linear congruential generator, below `faces` or 0.
fn roll(state: &mut u32, faces: u16) -> i32
    ensures least { pos 0 ≤ℤ result }
    ensures below { result <ℤ pos 65536 }
{
    *state = state.wrapping_mul(1_664_525).wrapping_add(1_013_904_223);
    ((*state >> 16) % u32::from(faces.max(1))) as i32
}

fn sized(across: u16, width: u16, height: u16) -> Layout {
    Layout {
        across,
        width,
        height,
    }
}

// Narrow columns, and long rectangles of which most overlap, on few columns and on many.
#[test]
fn unites_as_one_sweep_does(rt: HostRuntime) -> Result<(), Fail> {
    let alloc = rt.alloc();
    for layout in &[
        sized(4000, 1, 1000),
        sized(600, 400, 2000),
        sized(30_000, 300, 60),
    ] {
        let outlines = outlines_of(&rt, alloc, layout, 300)?;
        let rects = rects_of(alloc, &outlines)?;
        assert!(rt; are_many_in_rows(alloc, &rects)?);
        let swept = swept_rects(alloc, &outlines)?;
        let region = union(alloc, &Placed::from_outlines(outlines))?;
        assert_eq!(rt; region.rects(), swept.as_slice());
    }
    Ok(())
}

/// Adds a long bar, further right and lower than the one of the number before, with which it shares most columns and rows.
fn add_step(
    rt: &impl Abort,
    alloc: Global,
    outlines: &mut Vec<Outline>,
    index: u16,
) -> Result<(), NoMemory>
    requires { All IsPlaced outlines.old.items }
    ensures { OnOk result (All IsPlaced outlines.new.items) }
{
    let at = i32::from(index);
    let bar = rect(at, -at, at + 50, 100_000 - at);
    add_walk(rt, alloc, outlines, &bar, false)
}

fn stairs(rt: &impl Abort, alloc: Global, count: u16) -> Result<Vec<Outline>, NoMemory>
    ensures { IfOk result (λ outlines. All IsPlaced outlines.items) }
{
    let mut outlines = Vec::new(alloc);
    for index in 0..count {
        add_step(rt, alloc, &mut outlines, index)?;
    }
    Ok(outlines)
}

/// The row of 500 steps that is so many below 0.
fn row_below(depth: u16) -> Rect {
    let at = i32::from(depth);
    rect(at, -at, 549, 1 - at)
}

/// The row that is so many below the top of the first step.
fn row_above(depth: u16) -> Rect {
    let at = i32::from(depth);
    rect(0, 100_000 - at, at + 49, 100_001 - at)
}

// Below the rows that all bars have, each row has one bar less on the left than the row above; above them, each has one less
// on the right than the row below.
#[test]
fn unites_stairs(rt: HostRuntime) -> Result<(), Fail> {
    let alloc = rt.alloc();
    let mut wanted = Vec::new(alloc);
    for index in 0..499 {
        wanted.push(row_below(499 - index))?;
    }
    wanted.push(rect(0, 0, 549, 99_501))?;
    for index in 0..499 {
        wanted.push(row_above(499 - index))?;
    }
    let outlines = stairs(&rt, alloc, 500)?;
    let rects = rects_of(alloc, &outlines)?;
    let striped = striped_rects(alloc, &rects, &[20, 60, 300])?;
    assert_eq!(rt; striped.as_slice(), wanted.as_slice());
    let region = union(alloc, &Placed::from_outlines(outlines))?;
    assert_eq!(rt; region.rects(), wanted.as_slice());
    Ok(())
}
