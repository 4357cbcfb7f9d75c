//! The polygons of a region, and their file.

ghost use Rattle.std.specs.Prelude.{◌≡◌, ◌≤◌, ◌%◌, ◌||◌, ◌++◌, ℤ, pos, List, length, map, All, IfOk, OnOk};
ghost use Rattle.opc_base.specs.declared.outline.Outline.TheVariants.{Polygon};
ghost use Rattle.std.specs.List.{list_any};
ghost use Rattle.opc_base.specs.Canonical.{AreCanonical, IsSolid};
ghost use Rattle.opc_base.specs.Plane.{IsRectWithin, cover};
ghost use Rattle.opc_base.specs.Ranges.{IsBetween};
ghost use Rattle.opc_base.specs.Runs.{IsCornerTouch};
ghost use Rattle.opc_base.specs.Target.{target};
ghost use Rattle.gds_writer.specs.Expansion.{ExpandsTo};
ghost use Rattle.gds_writer.specs.Faultless.{IsFaultless};
ghost use Rattle.gds_writer.specs.MaskFile.{around};
ghost use Rattle.gds_writer.specs.Outlines.{IsOutline};
ghost use Rattle.mask_polygons.specs.Components.{IsOneComponent, rect_lists};
ghost use Rattle.opc_base.specs.declared.plane.Pix.{Pix};
ghost use Rattle.outline_model.specs.MaskRange.{mask_limit};
ghost use Rattle.mask_polygons.specs.Polygons.{AreListed, first_corner};
ghost use Rattle.mask_polygons.specs.Walk.{ArePolygonsOf, ArePolygonsOfPart};
ghost use Rattle.mask_polygons.specs.PolygonFile.{IsPolygonFile};

use crate::components::components;
use crate::polygon::polygon_of;
use gds_records::Head;
use gds_writer::write_outlines;
use opc_base::{Bytes, NoMemory, OutPick, Pix, Pixes, Rect, Region};
use std::alloc::Global;

/// The walk round a rectangle.
fn around(alloc: Global, rect: &Rect) -> Result<Vec<Pix>, NoMemory>
    ensures { IfOk result (λ points. points.items ≡ around rect.now) }
{
    let Rect { x0, y0, x1, y1 } = *rect;
    let points = vec![in alloc;
        Pix { x: x0, y: y0 },
        Pix { x: x1, y: y0 },
        Pix { x: x1, y: y1 },
        Pix { x: x0, y: y1 },
        Pix { x: x0, y: y0 },
    ]?;
    Ok(points)
}

/// Adds the walk round each rectangle.
fn push_rects(alloc: Global, polygons: &mut Vec<Pixes>, rects: &[Rect]) -> Result<(), NoMemory>
    requires outlines { All IsOutline polygons.old.items }
    requires solid { All IsSolid rects.now }
    requires within { All (IsRectWithin mask_limit) rects.now }
    ensures outlines { OnOk result (All IsOutline polygons.new.items) }
    ensures covers { OnOk result ((x y : ℤ) → target (map Polygon polygons.new.items) x y ≡ (target (map Polygon polygons.old.items) x y || cover rects.now x y)) }
    ensures list { OnOk result (polygons.new.items ≡ polygons.old.items ++ map around rects.now) }
{
    for rect in rects {
        polygons.push(Pixes::from_vec(around(alloc, rect)?))?;
    }
    Ok(())
}

/// Adds the polygon of a component, or its rectangles where that has too many points.
fn push_polygons(alloc: Global, polygons: &mut Vec<Pixes>, rects: &[Rect]) -> Result<(), NoMemory>
    requires outlines { All IsOutline polygons.old.items }
    requires canonical { AreCanonical rects.now }
    requires whole { IsOneComponent rects.now }
    requires within { All (IsRectWithin mask_limit) rects.now }
    ensures outlines { OnOk result (All IsOutline polygons.new.items) }
    ensures covers { OnOk result ((x y : ℤ) → target (map Polygon polygons.new.items) x y ≡ (target (map Polygon polygons.old.items) x y || cover rects.now x y)) }
    ensures list { OnOk result ((more : List (List Pix)) × (polygons.new.items ≡ polygons.old.items ++ more) × ArePolygonsOfPart (cover rects.now) rects.now (first_corner rects.now) more) }
{
    match polygon_of(alloc, rects)? {
        Some(points) => {
            polygons.push(Pixes::from_vec(points))?;
            Ok(())
        }
        None => push_rects(alloc, polygons, rects),
    }
}

/// The polygons of the parts of a region.
fn part_polygons(alloc: Global, parts: &[Vec<Rect>]) -> Result<Vec<Pixes>, NoMemory>
    requires canonical { All AreCanonical (rect_lists parts.now) }
    requires whole { All IsOneComponent (rect_lists parts.now) }
    requires within { All (All (IsRectWithin mask_limit)) (rect_lists parts.now) }
    ensures outlines { IfOk result (λ polygons. All IsOutline polygons.items) }
    ensures covers { IfOk result (λ polygons. (x y : ℤ) → target (map Polygon polygons.items) x y ≡ list_any (λ part. cover part x y) (rect_lists parts.now)) }
    ensures list { IfOk result (λ polygons. AreListed (rect_lists parts.now) polygons.items) }
{
    let mut polygons = Vec::new(alloc);
    for part in parts {
        push_polygons(alloc, &mut polygons, part)?;
    }
    Ok(polygons)
}

/// The polygons of a region.
pub fn polygons(alloc: Global, rects: &[Rect]) -> Result<Vec<Pixes>, NoMemory>
    requires canonical { AreCanonical rects.now }
    requires within { All (IsRectWithin mask_limit) rects.now }
    requires no_touch { (x y : ℤ) → IsCornerTouch (cover rects.now) x y → ⊥ }
    ensures outlines { IfOk result (λ polygons. All IsOutline polygons.items) }
    ensures covers { IfOk result (λ polygons. (x y : ℤ) → target (map Polygon polygons.items) x y ≡ cover rects.now x y) }
    ensures list { IfOk result (λ polygons. ArePolygonsOf (cover rects.now) polygons.items) }
{
    let parts = components(alloc, rects)?;
    part_polygons(alloc, &parts)
}

/// The mask file of a region, with a polygon for each component.
pub fn write_polygons(
    alloc: Global,
    head: &Head,
    region: &Region,
    out: &OutPick,
    grid: i32,
) -> Result<Bytes, NoMemory>
    requires header { length head.now.header ≡ 2 }
    requires dates { length head.now.dates ≡ 24 }
    requires name_even { length head.now.name % 2 ≡ 0 }
    requires name_fits { length head.now.name ≤ 65530 }
    requires units { length head.now.units ≡ 16 }
    requires rects { All (IsRectWithin mask_limit) region.now }
    requires grid { IsBetween (pos 1) (pos 1000) grid }
    requires no_touch { (x y : ℤ) → IsCornerTouch (cover region.now) x y → ⊥ }
    ensures file { IfOk result (IsPolygonFile (cover region.now) head.now out.now grid) }
    ensures expands { IfOk result (λ bytes. ExpandsTo bytes out.now.name out.now.layer out.now.datatype grid (cover region.now)) }
    ensures faultless { IfOk result (λ bytes. IsFaultless bytes out.now.name out.now.layer out.now.datatype grid) }
{
    let outlines = polygons(alloc, region.rects())?;
    write_outlines(alloc, head, &outlines, out, grid)
}
