//! A plain judge of bars: it takes the edges from the fragments and compares each proposal with every rectangle.

use assist_bars::BarRules;
use fragment::Fragments;
use geometry_rows::fault::RowFault;
use opc_base::{MaskRules, Rect, Region, Side};
use std::alloc::Global;

/// An edge of a target.
#[derive(Clone, Copy)]
struct Line {
    side: Side,
    line: i32,
    lo: i32,
    hi: i32,
}

/// The bars of a target, edge by edge.
pub fn plain_bars(
    alloc: Global,
    region: &Region,
    fragments: &Fragments,
    rules: &MaskRules,
    numbers: &BarRules,
) -> Result<Vec<Rect>, RowFault> {
    let mut kept = Vec::new(alloc);
    for edge in edges_of(alloc, fragments)? {
        let bar = proposal(&edge, numbers);
        let long = edge.hi.wrapping_sub(edge.lo) >= numbers.min;
        let around = grown(&bar, rules.space);
        if long
            && is_near(&bar)
            && meets_none(region.rects(), &around)
            && meets_none(&kept, &around)
        {
            kept.push(bar)?;
        }
    }
    Ok(kept)
}

/// The edges: fragments that follow one another on one line are of one edge.
fn edges_of(alloc: Global, fragments: &Fragments) -> Result<Vec<Line>, RowFault> {
    let mut edges: Vec<Line> = Vec::new(alloc);
    for i in 0..fragments.count() {
        let fragment = fragments.get(i);
        let next = Line {
            side: fragment.side,
            line: fragment.edge,
            lo: fragment.lo,
            hi: fragment.hi,
        };
        match edges.pop() {
            Some(last) if goes_on(&last, &next) => edges.push(Line {
                hi: next.hi,
                ..last
            })?,
            Some(last) => {
                edges.push(last)?;
                edges.push(next)?;
            }
            None => edges.push(next)?,
        }
    }
    Ok(edges)
}

fn goes_on(last: &Line, next: &Line) -> bool {
    last.side == next.side && last.line == next.line && last.hi == next.lo
}

fn proposal(edge: &Line, numbers: &BarRules) -> Rect {
    let lo = edge.lo.wrapping_add(numbers.end);
    let hi = edge.hi.wrapping_sub(numbers.end);
    let far = numbers.gap.wrapping_add(numbers.width);
    let (low, high) = match edge.side {
        Side::Left | Side::Down => (
            edge.line.wrapping_sub(far),
            edge.line.wrapping_sub(numbers.gap),
        ),
        Side::Right | Side::Up => (
            edge.line.wrapping_add(numbers.gap),
            edge.line.wrapping_add(far),
        ),
    };
    match edge.side {
        Side::Left | Side::Right => Rect {
            x0: low,
            y0: lo,
            x1: high,
            y1: hi,
        },
        Side::Down | Side::Up => Rect {
            x0: lo,
            y0: low,
            x1: hi,
            y1: high,
        },
    }
}

fn is_near(bar: &Rect) -> bool {
    bar.x0 >= -1_048_000 && bar.y0 >= -1_048_000 && bar.x1 <= 1_048_000 && bar.y1 <= 1_048_000
}

fn grown(bar: &Rect, space: i32) -> Rect {
    Rect {
        x0: bar.x0.wrapping_sub(space),
        y0: bar.y0.wrapping_sub(space),
        x1: bar.x1.wrapping_add(space),
        y1: bar.y1.wrapping_add(space),
    }
}

/// Whether no rectangle shares a pixel with this one.
fn meets_none(rects: &[Rect], around: &Rect) -> bool {
    for rect in rects {
        if rect.x0 < around.x1
            && around.x0 < rect.x1
            && rect.y0 < around.y1
            && around.y0 < rect.y1
        {
            return false;
        }
    }
    true
}
