//! Which fragments are the target's own.

ghost use Rattle.std.specs.Prelude.{◌≡◌, ℕ, ◌<◌, pos, ◌+ℤ◌, false, IfOk, length, slice_index_or};
ghost use Rattle.opc_base.specs.Plane.{cover};
ghost use Rattle.outline_model.specs.Outline.{fragment_at};
ghost use Rattle.outline_model.specs.Ranges.{IsWithin};
ghost use Rattle.assist_bars.specs.Bars.{is_own};
ghost use Rattle.assist_bars.specs.Boxes.{IsBoxList};

use crate::boxes::BoxList;
use fragment::Fragments;
use opc_base::{NoMemory, Pix, Rect, Region};
use std::alloc::Global;

/// For each fragment of a target with its bars, whether it is the target's own: its sample -1, the last pixel inside its
/// edge, is a pixel of the target.
pub fn own_fragments(
    alloc: Global,
    target: &Region,
    fragments: &Fragments,
) -> Result<Vec<bool>, NoMemory>
    ensures count { IfOk result (λ own. length own.items ≡ length fragments.now) }
    ensures own { IfOk result (λ own. (i : ℕ) → i < length fragments.now → slice_index_or own.items i false ≡ is_own (cover target.now) (fragment_at fragments.now i)) }
{
    let list = BoxList::of(alloc, target.rects())?;
    let mut own = Vec::new(alloc);
    for i in 0..fragments.count() {
        own.push(has_pixel(&list, fragments.site(i, -1)))?;
    }
    Ok(own)
}

/// Whether a rectangle of the list has the pixel.
fn has_pixel(list: &BoxList, at: Pix) -> bool
    requires valid { IsBoxList list.now }
    requires x { IsWithin 1048016 at.x }
    requires y { IsWithin 1048016 at.y }
    ensures { result ≡ cover list.now.rects.items at.x at.y }
{
    let rect = rect_of(at);
    list.meets(&rect)
}

/// The rectangle that has this pixel alone.
fn rect_of(at: Pix) -> Rect
    requires x { IsWithin 1048016 at.x }
    requires y { IsWithin 1048016 at.y }
    ensures left { result.x0 ≡ at.x }
    ensures bottom { result.y0 ≡ at.y }
    ensures right { result.x1 ≡ at.x +ℤ pos 1 }
    ensures top { result.y1 ≡ at.y +ℤ pos 1 }
{
    Rect {
        x0: at.x,
        y0: at.y,
        x1: at.x + 1,
        y1: at.y + 1,
    }
}
