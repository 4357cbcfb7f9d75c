//! The rectangles of outlines, and where sweeps of them are worth cutting.

ghost use Rattle.std.specs.Prelude.{◌≡◌, ◌<◌, ℤ, ◌||◌, All, IfOk, OnOk};
ghost use Rattle.opc_base.specs.Cover.{AreRectangles, IsPlaced, outline_cover};
ghost use Rattle.opc_base.specs.Plane.{cover};
ghost use Rattle.opc_base.specs.Target.{target};

use crate::beside::add_beside;
use crate::boxes::box_of;
use crate::swept::swept_rects;
use opc_base::{Outline, Rect};
use std::alloc::{AllocError, Global};
use std::slice;

/// So many rectangles in a row, on the average, are swept at once.
const FEW_IN_ROW: usize = 64;

/// Rectangles that cover what the outlines do: those of the paths, and those of each polygon.
pub fn rects_of(alloc: Global, outlines: &[Outline]) -> Result<Vec<Rect>, AllocError>
    requires placed { All IsPlaced outlines.now }
    ensures placed { IfOk result (λ rects. AreRectangles rects.items) }
    ensures pixels { IfOk result (λ rects. (x y : ℤ) → cover rects.items x y ≡ target outlines.now x y) }
{
    let mut rects = Vec::new(alloc);
    for outline in outlines {
        add_rects(alloc, &mut rects, outline)?;
    }
    Ok(rects)
}

fn add_rects(alloc: Global, rects: &mut Vec<Rect>, outline: &Outline) -> Result<(), AllocError>
    requires placed { IsPlaced outline.now }
    requires rects { AreRectangles rects.old.items }
    ensures placed { OnOk result (AreRectangles rects.new.items) }
    ensures pixels { OnOk result ((x y : ℤ) → cover rects.new.items x y ≡ (cover rects.old.items x y || outline_cover outline.now x y)) }
{
    match outline {
        Outline::Polygon(points) => match box_of(points.as_slice()) {
            Some(rect) => add_beside(rects, rect)?,
            None => {
                let swept = swept_rects(alloc, slice::from_ref(outline))?;
                add_each(rects, &swept)?;
            }
        },
        Outline::Path(path) => add_each(rects, path.as_slice())?,
    }
    Ok(())
}

/// Adds these rectangles, those that lie beside one another as one.
fn add_each(rects: &mut Vec<Rect>, more: &[Rect]) -> Result<(), AllocError>
    requires more { AreRectangles more.now }
    requires rects { AreRectangles rects.old.items }
    ensures placed { OnOk result (AreRectangles rects.new.items) }
    ensures pixels { OnOk result ((x y : ℤ) → cover rects.new.items x y ≡ (cover rects.old.items x y || cover more.now x y)) }
{
    for rect in more {
        add_beside(rects, *rect)?;
    }
    Ok(())
}

/// Whether a row has many of the rectangles, on the average of the rows in which one begins or ends.
pub fn are_many_in_rows(alloc: Global, rects: &[Rect]) -> Result<bool, AllocError> {
    let ends = row_ends(alloc, rects)?;
    Ok(rects_met(&ends) / FEW_IN_ROW > ends.len())
}

/// The rows in which a rectangle begins or ends, from the bottom, and whether it begins.
pub fn row_ends(alloc: Global, rects: &[Rect]) -> Result<Vec<(i32, bool)>, AllocError> {
    let mut ends = Vec::new(alloc);
    for rect in rects {
        ends.push((rect.y0, true))?;
        ends.push((rect.y1, false))?;
    }
    ends.sort_unstable();
    Ok(ends)
}

/// The same of columns, from the left.
pub fn column_sides(alloc: Global, rects: &[Rect]) -> Result<Vec<(i32, bool)>, AllocError> {
    let mut sides = Vec::new(alloc);
    for rect in rects {
        sides.push((rect.x0, true))?;
        sides.push((rect.x1, false))?;
    }
    sides.sort_unstable();
    Ok(sides)
}

/// How many rectangles the rows have where one begins or ends, given by row, and whether it begins; or the columns.
pub fn rects_met(ends: &[(i32, bool)]) -> usize {
    let mut here: usize = 0;
    let mut met: usize = 0;
    for (_, begins) in ends {
        if *begins {
            here = here.saturating_add(1);
        } else {
            here = here.saturating_sub(1);
        }
        met = met.saturating_add(here);
    }
    met
}

/// Each side whose index is a multiple of the step, which is not 0.
pub fn every(alloc: Global, sides: &[(i32, bool)], step: usize) -> Result<Vec<i32>, AllocError>
    requires some { 0 < step }
{
    let mut kept = Vec::new(alloc);
    for (index, side) in sides.iter().enumerate() {
        if index % step == 0 {
            kept.push(side.0)?;
        }
    }
    Ok(kept)
}

/// How many points and rectangles the outlines have.
pub fn outline_size(outlines: &[Outline]) -> usize {
    let mut size: usize = 0;
    for outline in outlines {
        size = size.saturating_add(match outline {
            Outline::Polygon(points) => points.as_slice().len(),
            Outline::Path(rects) => rects.as_slice().len(),
        });
    }
    size
}
