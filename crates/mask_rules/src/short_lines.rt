//! The first pixel that lies in a run which is too short.

ghost use Rattle.std.specs.Prelude.{◌≡◌, ◌+ℤ◌, ◌<ℤ◌, ◌≤ℤ◌, ℤ, true, false, All, IfOk};
ghost use Rattle.opc_base.specs.Canonical.{AreCanonical};
ghost use Rattle.opc_base.specs.Plane.{IsRectWithin, cover};
ghost use Rattle.opc_base.specs.Runs.{IsTooNarrow};
ghost use Rattle.mask_rules.specs.First.{IsFirst};
ghost use Rattle.mask_rules.specs.LineSets.{LiesInShortLine, shown};
ghost use Rattle.mask_rules.specs.ShortLines.{EndsInside, IsShort, IsShortPlace, LiesInside, lowest};

use crate::first::earlier;
use crate::line_sets::{LIMIT, line_rects};
use opc_base::{NoMemory, Pix, Rect};
use std::alloc::Global;

/// The first pixel that lies in a run of fewer than `least` pixels of its row or its column: of the set, or of what is
/// not in it between pixels of it.
pub fn first_too_narrow(
    alloc: Global,
    rects: &[Rect],
    least: i32,
    out: bool,
) -> Result<Option<Pix>, NoMemory>
    requires canonical { AreCanonical rects.now }
    requires within { All (IsRectWithin 1048576) rects.now }
    ensures first { IfOk result (IsFirst (λ p. IsTooNarrow (shown out (cover rects.now)) least p.x p.y)) }
{
    let row = first_in_lines(alloc, rects, least, false, out)?;
    let column = first_in_lines(alloc, rects, least, true, out)?;
    Ok(earlier(row, column))
}

/// The same in rows alone, or, where they are turned, in columns.
fn first_in_lines(
    alloc: Global,
    rects: &[Rect],
    least: i32,
    turn: bool,
    out: bool,
) -> Result<Option<Pix>, NoMemory>
    requires canonical { AreCanonical rects.now }
    requires within { All (IsRectWithin 1048576) rects.now }
    ensures first { IfOk result (IsFirst (LiesInShortLine turn out (cover rects.now) least)) }
{
    if !turn && !out {
        let own = first_inside(rects, least, false, false);
        return Ok(own);
    }
    let region = line_rects(alloc, rects, turn, out)?;
    let place = first_inside(region.rects(), least, turn, out);
    Ok(place)
}

/// The first pixel of the rows that are short and end inside.
fn first_inside(rects: &[Rect], least: i32, turn: bool, out: bool) -> Option<Pix>
    requires canonical { AreCanonical rects.now }
    requires within { All (IsRectWithin 1048576) rects.now }
    ensures first { IsFirst (LiesInside turn out least rects.now) result }
{
    let mut first = None;
    for rect in rects {
        let place = short_place(rect, least, turn, out);
        first = earlier(first, place);
    }
    first
}

/// The lowest pixel of a rectangle whose rows are short and end inside.
fn short_place(rect: &Rect, least: i32, turn: bool, out: bool) -> Option<Pix>
    requires within { IsRectWithin 1048576 rect.now }
    ensures { IsShortPlace turn out least rect.now result }
{
    if is_short(rect, least, out) {
        Some(lowest(rect, turn))
    } else {
        None
    }
}

fn is_short(rect: &Rect, least: i32, out: bool) -> bool
    requires within { IsRectWithin 1048576 rect.now }
    ensures short { result ≡ true → IsShort out least rect.now }
    ensures other { result ≡ false → IsShort out least rect.now → ⊥ }
{
    if !has_few(rect, least) {
        return false;
    }
    ends_inside(rect, out)
}

/// Whether each row has fewer pixels than this.
fn has_few(rect: &Rect, least: i32) -> bool
    requires within { IsRectWithin 1048576 rect.now }
    ensures few { result ≡ true → rect.now.x1 <ℤ (rect.now.x0 +ℤ least) }
    ensures enough { result ≡ false → (rect.now.x0 +ℤ least) ≤ℤ rect.now.x1 }
{
    rect.x1 - rect.x0 < least
}

/// Rows of the set may end at the limit, and those of what is not in it are then not between pixels of the set.
fn ends_inside(rect: &Rect, out: bool) -> bool
    ensures inside { result ≡ true → EndsInside out rect.now.x0 rect.now.x1 }
    ensures other { result ≡ false → EndsInside out rect.now.x0 rect.now.x1 → ⊥ }
{
    if !out {
        return true;
    }
    is_inner(rect)
}

fn is_inner(rect: &Rect) -> bool
    ensures inside { result ≡ true → EndsInside true rect.now.x0 rect.now.x1 }
    ensures other { result ≡ false → EndsInside true rect.now.x0 rect.now.x1 → ⊥ }
{
    -LIMIT < rect.x0 && rect.x1 < LIMIT
}

fn lowest(rect: &Rect, turn: bool) -> Pix
    ensures { result ≡ lowest turn rect.now }
{
    if turn {
        Pix {
            x: rect.y0,
            y: rect.x0,
        }
    } else {
        Pix {
            x: rect.x0,
            y: rect.y0,
        }
    }
}
