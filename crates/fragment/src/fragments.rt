//! The list of a region's fragments.
ghost use Rattle.std.specs.Prelude.{◌≡◌, ◌+ℤ◌, ◌<◌, ◌≤◌, ◌↔◌, ◌≤ℤ◌, ℤ, pos, negsuc, IfOk, IfSome, IsNone, if◌then◌else◌, int_lt, length, slice_set, slice_index_or};

use crate::site::{sign_of, site_of};
use opc_base::{NoMemory, Pix, Swept};
use outline_model::{Fragment, Join, moved, rect_between};
use std::alloc::Global;
use std::marker::Model;

/// The fragments of a region: its vertical edges by their lines from the left, then its horizontal ones by their lines
/// from below, each edge from its low end. There are at most 32,768.
#[derive(Debug, Drop)]
pub struct Fragments {
    items: Vec<Fragment>,
}

impl Model for Fragments {
    ghost use Rattle.std.specs.Prelude.{List};
    ghost use Rattle.outline_model.specs.Limits.{IsFragmentList};
    ghost use Rattle.outline_model.specs.declared.fragment.Fragment.{Fragment};

    ghost Value = { List Fragment };

    ghost view = { λ f. f.items.items };

    ghost invariant = { λ f. IsFragmentList f.items.items };
}

impl Fragments {
    ghost use Rattle.opc_base.specs.Plane.{IsOrdered, IsRectWithin, rect_cover};
    ghost use Rattle.outline_model.specs.Limits.{IsFragmentList, IsOffsets};
    ghost use Rattle.outline_model.specs.Outline.{IsSweep, lines, low_end, high_end, end_at, joined, count, mask, fragment_at, side_of, site_of, swept, outward};
    ghost use Rattle.outline_model.specs.Ranges.{IsWithin};
    ghost use Rattle.outline_model.specs.Rules.{NoneCrosses};

    /// The list of these fragments.
    pub(crate) fn from_vec(items: Vec<Fragment>) -> Self
        requires { IsFragmentList items.items }
        ensures { result ≡ items.items }
    {
        Fragments { items }
    }

    /// A copy of the list.
    pub(crate) fn copy_items(&self, alloc: Global) -> Result<Vec<Fragment>, NoMemory>
        ensures items { IfOk result (λ items. items.items ≡ self.now) }
        ensures list { IsFragmentList self.now }
    {
        let _ = &self.items;
        Ok(Vec::from_slice(alloc, &self.items)?)
    }

    /// The number of fragments.
    pub fn count(&self) -> u32
        ensures count { result ≡ length self.now }
        ensures few { result ≤ 32768 }
        ensures list { IsFragmentList self.now }
    {
        self.items.len() as u32
    }

    /// Fragment `i`.
    pub fn get(&self, i: u32) -> &Fragment
        requires fragment { i < length self.now }
        ensures fragment { result.now ≡ fragment_at self.now i }
        ensures list { IsFragmentList self.now }
    {
        &self.items[i as usize]
    }

    /// Where the line of fragment `i` lies: its edge, moved outward by its offset.
    pub fn line(&self, i: u32, offsets: &[i32]) -> i32
        requires fragment { i < length self.now }
        requires offsets { IsOffsets self.now offsets.now }
        ensures line { result ≡ lines self.now offsets.now i }
        ensures within { IsWithin 1048128 result }
    {
        self.line_at(i, offsets[i as usize])
    }

    /// Where the line of fragment `i` lies at this offset.
    pub fn line_at(&self, i: u32, offset: i32) -> i32
        requires fragment { i < length self.now }
        requires offset { IsWithin 128 offset }
        ensures line { result ≡ (fragment_at self.now i).edge +ℤ outward (side_of self.now i) offset }
        ensures within { IsWithin 1048128 result }
    {
        let fragment = self.get(i);
        moved(fragment.side, fragment.edge, offset)
    }

    /// The low and the high end of fragment `i`, along its line: at a cut its place on the target, and at a corner the
    /// line of the fragment that it meets there.
    pub fn ends(&self, i: u32, offsets: &[i32]) -> (i32, i32)
        requires fragment { i < length self.now }
        requires offsets { IsOffsets self.now offsets.now }
        ensures low { result.0 ≡ low_end self.now (lines self.now offsets.now) i }
        ensures high { result.1 ≡ high_end self.now (lines self.now offsets.now) i }
        ensures low_within { IsWithin 1048128 result.0 }
        ensures high_within { IsWithin 1048128 result.1 }
    {
        let fragment = self.get(i);
        let low = self.end(fragment.low, fragment.lo, offsets);
        let high = self.end(fragment.high, fragment.hi, offsets);
        (low, high)
    }

    fn end(&self, join: Join, place: i32, offsets: &[i32]) -> i32
        requires fragment { joined join < length self.now }
        requires offsets { IsOffsets self.now offsets.now }
        requires place { IsWithin 1048000 place }
        ensures end { result ≡ end_at (lines self.now offsets.now) join place }
        ensures within { IsWithin 1048128 result }
    {
        match join {
            Join::Cut(_) => place,
            Join::Corner(j) => self.line(j, offsets),
        }
    }

    /// The pixel of sample `t` of fragment `i`, from -16 to 15. It lies half way along the fragment on the target;
    /// sample -1 is the last pixel inside the target there, and sample 0 the first outside.
    pub fn site(&self, i: u32, t: i32) -> Pix
        requires fragment { i < length self.now }
        requires low { negsuc 15 ≤ℤ t }
        requires high { t ≤ℤ pos 15 }
        ensures site { result ≡ site_of (fragment_at self.now i) t }
        ensures x_within { IsWithin 1048016 result.x }
        ensures y_within { IsWithin 1048016 result.y }
    {
        site_of(self.get(i), t)
    }

    /// What the mask gains (sign 1) or loses (sign -1) where fragment `i` takes the offset `to`: the rectangle between its
    /// present line and the new one, over its present ends. `None` where it stays.
    pub fn swept(&self, i: u32, offsets: &[i32], to: i32) -> Option<Swept>
        requires fragment { i < length self.now }
        requires offsets { IsOffsets self.now offsets.now }
        requires to { IsWithin 128 to }
        requires ordered { low_end self.now (lines self.now offsets.now) i ≤ℤ high_end self.now (lines self.now offsets.now) i }
        ensures stays { IsNone result ↔ (to ≡ slice_index_or offsets.now i (pos 0)) }
        ensures rectangle { IfSome result (λ s.
            s.rect ≡ swept self.now (lines self.now offsets.now) i (lines self.now (slice_set offsets.now i to) i)) }
        ensures sign { IfSome result (λ s. s.sign ≡ (if int_lt (slice_index_or offsets.now i (pos 0)) to then pos 1 else negsuc 0)) }
        ensures order { IfSome result (λ s. IsOrdered s.rect) }
        ensures near { IfSome result (λ s. IsRectWithin 1048128 s.rect) }

        // The count of each pixel of the rectangle changes by the sign, and no other count changes.
        ensures counts { IfSome result (λ s. (x y : ℤ) →
            count self.now (lines self.now (slice_set offsets.now i to)) x y
            ≡ count self.now (lines self.now offsets.now) x y
            +ℤ (if rect_cover s.rect x y then s.sign else pos 0)) }

        // So where the outline crosses itself neither before nor after, the mask gains or loses just this rectangle.
        ensures masks { IfSome result (λ s.
            NoneCrosses self.now (lines self.now offsets.now)
            → NoneCrosses self.now (lines self.now (slice_set offsets.now i to))
            → IsSweep s (mask self.now (lines self.now offsets.now)) (mask self.now (lines self.now (slice_set offsets.now i to)))) }
    {
        let from = offsets[i as usize];
        if from == to {
            return None;
        }
        let old = self.line(i, offsets);
        let new = self.line_at(i, to);
        let (low, high) = self.ends(i, offsets);
        let sign = sign_of(from, to);
        let fragment = self.get(i);
        let rect = rect_between(fragment.side, old, new, low, high);
        Some(Swept { rect, sign })
    }
}
