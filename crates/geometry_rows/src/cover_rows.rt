//! Unions of random shapes, compared with what the shapes cover pixel by pixel.

use crate::dice::Dice;
use crate::fault::RowFault;
use crate::shapes::{Shapes, rect};
use opc_base::{NoMemory, Pix, Rect, Region};
use std::alloc::Global;
use std::process::Abort;
use std::test::Fail;

/// The window has this many pixels a side.
const SIDE: i32 = 24;

/// A shape: the points of a closed walk, or the rectangles of a path.
#[derive(Drop)]
enum Shape {
    Walk(Vec<(i32, i32)>),
    Path(Vec<Rect>),
}

impl Shape {
    /// A walk or a path in the window.
    fn random(alloc: Global, dice: &mut Dice) -> Result<Shape, NoMemory> {
        if dice.roll(3) == 0 {
            Ok(Shape::Path(random_path(alloc, dice)?))
        } else {
            Ok(Shape::Walk(random_walk(alloc, dice)?))
        }
    }

    fn covers(&self, p: Pix) -> bool {
        match self {
            Shape::Walk(points) => winding(points, p) != 0,
            Shape::Path(rects) => is_covered(rects, p),
        }
    }

    fn add_to(&self, alloc: Global, shapes: &mut Shapes) -> Result<(), RowFault> {
        match self {
            Shape::Walk(points) => shapes.add_polygon(alloc, points),
            Shape::Path(rects) => shapes.add_path(alloc, rects),
        }
    }
}

/// A closed walk of ten steps, which may cross itself, turn back and go round pixels either way and several times.
fn random_walk(alloc: Global, dice: &mut Dice) -> Result<Vec<(i32, i32)>, NoMemory> {
    let first = (dice.place() % SIDE, dice.place() % SIDE);
    let mut points = vec![in alloc; first; 1]?;
    let mut y = first.1;
    for _ in 0..4 {
        let x = dice.place() % SIDE;
        points.push((x, y))?;
        y = dice.place() % SIDE;
        points.push((x, y))?;
    }
    points.push((first.0, y))?;
    points.push(first)?;
    Ok(points)
}

/// Three rectangles, which may overlap.
fn random_path(alloc: Global, dice: &mut Dice) -> Result<Vec<Rect>, NoMemory> {
    let mut rects = Vec::new(alloc);
    for _ in 0..3 {
        let x = dice.place() % 16;
        let y = dice.place() % 16;
        let width = dice.place() % 7 + 1;
        let height = dice.place() % 7 + 1;
        rects.push(rect(x, y, x + width, y + height))?;
    }
    Ok(rects)
}

/// How often the walk goes round the pixel: its horizontal steps at or below the pixel's lower side and in its column, 1
/// for each to the right, and -1 for each to the left.
fn winding(points: &[(i32, i32)], p: Pix) -> i32 {
    let mut count = 0i32;
    for k in 1..points.len() {
        let ((from, y), (to, _)) = (points[k - 1], points[k]);
        if y <= p.y && from.min(to) <= p.x && p.x < from.max(to) {
            count = count.saturating_add(if from < to { 1 } else { -1 });
        }
    }
    count
}

fn is_covered(rects: &[Rect], p: Pix) -> bool {
    rects
        .iter()
        .any(|r| r.x0 <= p.x && p.x < r.x1 && r.y0 <= p.y && p.y < r.y1)
}

/// Each pixel of the window is in the region exactly where a shape covers it.
fn check_pixels<R: Abort>(rt: &R, region: &Region, drawn: &[Shape]) {
    for k in 0..SIDE * SIDE {
        let p = Pix {
            x: k % SIDE,
            y: k / SIDE,
        };
        let wanted = drawn.iter().any(|shape| shape.covers(p));
        assert!(rt; region.covers(p) == wanted, "{k}");
    }
}

fn check_union<R: Abort>(rt: &R, alloc: Global, dice: &mut Dice) -> Result<(), RowFault> {
    let mut shapes = Shapes::new(alloc);
    let mut drawn = Vec::new(alloc);
    for _ in 0..dice.roll(4) + 1 {
        let shape = Shape::random(alloc, dice)?;
        shape.add_to(alloc, &mut shapes)?;
        drawn.push(shape)?;
    }
    let region = shapes.union(alloc)?;
    check_pixels(rt, &region, &drawn);
    Ok(())
}

#[test]
fn unions_cover_what_their_shapes_cover(rt: HostRuntime) -> Result<(), Fail> {
    let mut dice = Dice::new(1);
    for _ in 0..200 {
        check_union(&rt, rt.alloc(), &mut dice)?;
    }
    Ok(())
}
