//! The quadrants of outlines.

ghost use Rattle.std.specs.Prelude.{◌≡◌, ◌-ℤ◌, pos, All, IfOk, OnOk};
ghost use Rattle.opc_base.specs.Canonical.{IsSolid};
ghost use Rattle.rect_union.specs.Outlines.{AddsCount, AddsPath, AddsPolygon, quadrant_of, rect_count};
ghost use Rattle.opc_base.specs.Cover.{IsRectilinear, IsStraight, crossing, step};
ghost use Rattle.rect_union.specs.Target.{AreQuadrantsOf, outline_count};
ghost use Rattle.opc_base.specs.Cover.{IsPlaced};

use crate::columns::Column;
use crate::quadrants::Quadrant;
use opc_base::{Outline, Pix, Rect};
use std::alloc::{AllocError, Global};

/// The quadrants of all outlines, each outline's number being the owner.
pub fn quadrants_of(alloc: Global, outlines: &[Outline]) -> Result<Vec<Quadrant>, AllocError>
    requires { All IsPlaced outlines.now }
    ensures { IfOk result (λ quadrants. AreQuadrantsOf outlines.now quadrants.items) }
{
    let mut quadrants = Vec::new(alloc);
    for (owner, outline) in outlines.iter().enumerate() {
        add_outline(&mut quadrants, owner, outline)?;
    }
    Ok(quadrants)
}

fn add_outline(
    quadrants: &mut Vec<Quadrant>,
    owner: usize,
    outline: &Outline,
) -> Result<(), AllocError>
    requires { IsPlaced outline.now }
    ensures { OnOk result (AddsCount quadrants.old.items quadrants.new.items owner (outline_count outline.now) (λ y. pos 0)) }
{
    match outline {
        Outline::Polygon(points) => add_polygon(quadrants, owner, points.as_slice())?,
        Outline::Path(rects) => add_path(quadrants, owner, rects.as_slice())?,
    }
    Ok(())
}

/// Adds the quadrants of a polygon, a list of points.
pub fn add_polygon(
    quadrants: &mut Vec<Quadrant>,
    owner: usize,
    points: &[Pix],
) -> Result<(), AllocError>
    requires { IsRectilinear points.now }
    ensures { OnOk result (AddsPolygon quadrants.old.items quadrants.new.items owner points.now) }
{
    for index in 1..points.len() {
        add_edge(quadrants, owner, points[index - 1], points[index])?;
    }
    Ok(())
}

/// Adds the two quadrants of a vertical edge, and none for a horizontal one.
pub fn add_edge(
    quadrants: &mut Vec<Quadrant>,
    owner: usize,
    from: Pix,
    to: Pix,
) -> Result<(), AllocError>
    requires { IsStraight from to }
    ensures { OnOk result (AddsCount quadrants.old.items quadrants.new.items owner (crossing from to) (λ y. step to.y y -ℤ step from.y y)) }
{
    if from.y != to.y {
        quadrants.push(quadrant_of(owner, to, 1))?;
        quadrants.push(quadrant_of(owner, from, -1))?;
    }
    Ok(())
}

fn quadrant_of(owner: usize, corner: Pix, sign: i128) -> Quadrant
    ensures { result ≡ quadrant_of owner corner sign }
{
    Quadrant {
        y: corner.y,
        column: Column {
            x: corner.x,
            owner,
            sign,
        },
    }
}

/// Adds the quadrants of a rectangle.
pub fn add_rect(quadrants: &mut Vec<Quadrant>, owner: usize, rect: Rect) -> Result<(), AllocError>
    requires { IsSolid rect }
    ensures { OnOk result (AddsCount quadrants.old.items quadrants.new.items owner (rect_count rect) (λ y. pos 0)) }
{
    add_edge(
        quadrants,
        owner,
        Pix {
            x: rect.x0,
            y: rect.y1,
        },
        Pix {
            x: rect.x0,
            y: rect.y0,
        },
    )?;
    add_edge(
        quadrants,
        owner,
        Pix {
            x: rect.x1,
            y: rect.y0,
        },
        Pix {
            x: rect.x1,
            y: rect.y1,
        },
    )?;
    Ok(())
}

/// Adds the quadrants of the rectangles of a path.
pub fn add_path(
    quadrants: &mut Vec<Quadrant>,
    owner: usize,
    rects: &[Rect],
) -> Result<(), AllocError>
    requires { All IsSolid rects.now }
    ensures { OnOk result (AddsPath quadrants.old.items quadrants.new.items owner rects.now) }
{
    for rect in rects {
        add_rect(quadrants, owner, *rect)?;
    }
    Ok(())
}
