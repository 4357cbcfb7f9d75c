//! The components of a region.

ghost use Rattle.std.specs.Prelude.{◌≡◌, ◌≢◌, ℕ, ◌+◌, ◌<◌, ◌≤◌, List, length, All, IfOk, OnOk};
ghost use Rattle.opc_base.specs.Canonical.{AreCanonical};
ghost use Rattle.opc_base.specs.Plane.{IsRectWithin};
ghost use Rattle.outline_model.specs.MaskRange.{mask_limit};
ghost use Rattle.mask_polygons.specs.Loops.{lists};
ghost use Rattle.mask_polygons.specs.Links.{AreMutual};
ghost use Rattle.mask_polygons.specs.Components.{AreLabelled, AreLabels, ArePartsOf, IsSearching, IsVisited, number_at, placed, rect_lists, unseen};

use crate::links::find_links;
use opc_base::Rect;
use std::alloc::{AllocError, Global};

/// Gives a number the label, and puts it into the order of the search, unless it was seen before.
fn visit(
    labels: &mut [usize],
    order: &mut Vec<usize>,
    number: usize,
    label: usize,
    none: usize,
) -> Result<(), AllocError>
    requires number { number < length labels.old }
    requires label { label ≢ none }
    ensures visited { OnOk result (IsVisited none number label labels.old order.old.items labels.new order.new.items) }
    ensures left { OnOk result (unseen none labels.new + length order.new.items ≤ unseen none labels.old + length order.old.items) }
{
    if labels[number] != none {
        return Ok(());
    }
    labels[number] = label;
    order.push(number)?;
    Ok(())
}

/// Visits what the next number of the search is linked to.
fn visit_links(
    labels: &mut [usize],
    order: &mut Vec<usize>,
    links: &[Vec<usize>],
    roots: &[usize],
    at: usize,
) -> Result<(), AllocError>
    requires links { AreMutual (lists links.now) }
    requires searching { IsSearching (lists links.now) labels.old order.old.items roots.now at }
    requires at { at < length order.old.items }
    ensures searching { OnOk result (IsSearching (lists links.now) labels.new order.new.items roots.now (at + 1)) }
    ensures left { OnOk result (unseen (length links.now) labels.new + length order.new.items ≤ unseen (length links.now) labels.old + length order.old.items) }
    ensures at { OnOk result (at < length order.new.items) }
{
    let label = roots.len() - 1;
    for other in &links[order[at]] {
        visit(labels, order, *other, label, links.len())?;
    }
    Ok(())
}

/// Goes on with the search until nothing is left to visit.
fn spread(
    labels: &mut [usize],
    order: &mut Vec<usize>,
    links: &[Vec<usize>],
    roots: &[usize],
    from: usize,
) -> Result<(), AllocError>
    requires links { AreMutual (lists links.now) }
    requires searching { IsSearching (lists links.now) labels.old order.old.items roots.now from }
    requires from { from ≤ length order.old.items }
    ensures { OnOk result (IsSearching (lists links.now) labels.new order.new.items roots.now (length order.new.items)) }
{
    let mut at = from;
    while at < order.len() {
        visit_links(labels, order, links, roots, at)?;
        at += 1;
    }
    Ok(())
}

/// Labels what is reached from this number, the next root.
fn search(
    labels: &mut [usize],
    order: &mut Vec<usize>,
    roots: &mut Vec<usize>,
    links: &[Vec<usize>],
    number: usize,
) -> Result<(), AllocError>
    requires links { AreMutual (lists links.now) }
    requires labelled { AreLabelled (lists links.now) labels.old order.old.items roots.old.items number }
    requires number { number < length links.now }
    requires unseen { number_at labels.old number ≡ length links.now }
    ensures { OnOk result (AreLabelled (lists links.now) labels.new order.new.items roots.new.items (number + 1)) }
{
    let at = order.len();
    roots.push(number)?;
    visit(labels, order, number, roots.len() - 1, links.len())?;
    spread(labels, order, links, roots, at)?;
    Ok(())
}

/// Adds a rectangle to the part with this number, or as the first one of a new part.
fn place(
    alloc: Global,
    parts: &mut Vec<Vec<Rect>>,
    label: usize,
    rect: Rect,
) -> Result<(), AllocError>
    ensures { OnOk result (rect_lists parts.new.items ≡ placed (rect_lists parts.old.items) label rect) }
{
    if label < parts.len() {
        parts[label].push(rect)?;
    } else {
        let part = vec![in alloc; rect]?;
        parts.push(part)?;
    }
    Ok(())
}

/// The number of the component of each rectangle. Components are numbered by their first rectangles.
fn label_rects(alloc: Global, rects: &[Rect]) -> Result<Vec<usize>, AllocError>
    requires { AreCanonical rects.now }
    ensures { IfOk result (λ labels. (roots : List ℕ) × AreLabels rects.now labels.items roots) }
{
    let links = find_links(alloc, rects)?;
    let mut labels = vec![in alloc; links.len(); links.len()]?;
    let mut order = Vec::new(alloc);
    let mut roots = Vec::new(alloc);
    for number in 0..rects.len() {
        if labels[number] == links.len() {
            search(&mut labels, &mut order, &mut roots, &links, number)?;
        }
    }
    Ok(labels)
}

/// The rectangles of each component, in their order. Components come by their first rectangles.
pub fn components(alloc: Global, rects: &[Rect]) -> Result<Vec<Vec<Rect>>, AllocError>
    requires canonical { AreCanonical rects.now }
    requires within { All (IsRectWithin mask_limit) rects.now }
    ensures { IfOk result (λ parts. ArePartsOf rects.now (rect_lists parts.items)) }
{
    let labels = label_rects(alloc, rects)?;
    let mut parts = Vec::new(alloc);
    for number in 0..rects.len() {
        place(alloc, &mut parts, labels[number], rects[number])?;
    }
    Ok(parts)
}
