//! The polygon of a component.

ghost use Rattle.std.specs.Prelude.{◌≡◌, ◌<◌, ◌≤◌, ℕ, ℤ, length, map, All, IfOk, IfSome};
ghost use Rattle.opc_base.specs.Plane.{IsRectWithin, cover};
ghost use Rattle.opc_base.specs.Canonical.{AreCanonical};
ghost use Rattle.opc_base.specs.Runs.{IsCornerTouch};
ghost use Rattle.outline_model.specs.MaskRange.{mask_limit};
ghost use Rattle.outline_model.specs.Outline.{fragment_at};
ghost use Rattle.mask_polygons.specs.Border.{AreNear, IsBorder};
ghost use Rattle.mask_polygons.specs.Loops.{IsLoop, lists, loop_start};
ghost use Rattle.mask_polygons.specs.Polygons.{IsDrawn, IsPolygonOf, IsWalkRound};
ghost use Rattle.mask_polygons.specs.Walk.{IsComponent};

use crate::border::find_border;
use crate::loops::{find_loops, start_of};
use crate::script::write_scripts;
use crate::seams::hang_holes;
use crate::walk::walk;
use opc_base::{NoMemory, Pix, Rect};
use outline_model::Fragment;
use std::alloc::{AllocError, Global};

/// How many points a BOUNDARY may have.
const MAX_POINTS: usize = 8191;

/// Where the walk of a loop begins.
fn loop_start(border: &[Fragment], chain: &[usize]) -> Pix
    requires { IsLoop border.now chain.now }
    ensures { result ≡ loop_start border.now chain.now }
{
    start_of(&border[chain[0]])
}

/// The start corners of the loops.
fn start_corners(
    alloc: Global,
    border: &[Fragment],
    loops: &[Vec<usize>],
) -> Result<Vec<Pix>, AllocError>
    requires { All (IsLoop border.now) (lists loops.now) }
    ensures { IfOk result (λ starts. starts.items ≡ map (loop_start border.now) (lists loops.now)) }
{
    let mut starts = Vec::new(alloc);
    for chain in loops {
        starts.push(loop_start(border, chain))?;
    }
    Ok(starts)
}

/// The walk of the border, with seams to its holes, unless it has more than 8,191 points.
fn walk_border(
    alloc: Global,
    rects: &[Rect],
    border: &[Fragment],
) -> Result<Option<Vec<Pix>>, AllocError>
    requires canonical { AreCanonical rects.now }
    requires some { 0 < length rects.now }
    requires component { IsComponent (cover rects.now) (cover rects.now) }
    requires border { IsBorder (cover rects.now) border.now }
    requires near { AreNear border.now }
    requires no_touch { (x y : ℤ) → ¬ IsCornerTouch (cover rects.now) x y }
    ensures round { IfOk result (λ found. IfSome found (λ points. IsWalkRound border.now points.items)) }
    ensures drawn { IfOk result (IsDrawn rects.now) }
{
    let loops = find_loops(alloc, border)?;
    let starts = start_corners(alloc, border, &loops)?;
    let hung = hang_holes(alloc, rects, border, &starts)?;
    let scripts = write_scripts(alloc, border, &loops, &hung, &starts)?;
    let points = walk(alloc, &scripts, &starts)?;
    if points.len() > MAX_POINTS {
        return Ok(None);
    }
    Ok(Some(points))
}

/// The polygon of the pixels that the rectangles cover, unless it has more than 8,191 points.
pub fn polygon_of(alloc: Global, rects: &[Rect]) -> Result<Option<Vec<Pix>>, NoMemory>
    requires canonical { AreCanonical rects.now }
    requires within { All (IsRectWithin mask_limit) rects.now }
    requires some { 0 < length rects.now }
    requires component { IsComponent (cover rects.now) (cover rects.now) }
    requires no_touch { (x y : ℤ) → ¬ IsCornerTouch (cover rects.now) x y }
    ensures polygon { IfOk result (λ found. IfSome found (λ points. IsPolygonOf (cover rects.now) points.items)) }
    ensures drawn { IfOk result (IsDrawn rects.now) }
{
    let Some(border) = find_border(alloc, rects)? else {
        return Ok(None);
    };
    let points = walk_border(alloc, rects, &border)?;
    Ok(points)
}
