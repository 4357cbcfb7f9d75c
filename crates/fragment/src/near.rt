//! Finds the fragments near a rectangle.
ghost use Rattle.std.specs.Prelude.{◌≡◌, ◌<◌, ◌≤◌, ◌≤ℤ◌, ℕ, ℤ, pos, All, Contains, IfOk, length, true};
ghost use Rattle.std.specs.List.Sorted.{IsStrictlyIncreasing};
ghost use Rattle.opc_base.specs.Plane.{rect_cover};
ghost use Rattle.outline_model.specs.Near.{IsWithinReach};
ghost use Rattle.outline_model.specs.Outline.{fragment_at};

use crate::area::{REACH, areas_of, in_order, shrunk};
use crate::area_tree::AreaTree;
use crate::curve::order_of;
use crate::fragments::Fragments;
use opc_base::{NoMemory, Rect};
use outline_model::Fragment;
use std::alloc::Global;
use std::marker::Model;

/// An index of fragments by where their pieces lie on the target, right for all offsets.
///
/// Areas round the pieces stand in two orders: by the numbers of the fragments, for `meets`, and along a curve through the
/// plane, for `within`. Fragments of near numbers lie near one another along an edge alone, and those of near places on the
/// curve on all sides, so that the areas round many of them leave out most of what is far.
#[derive(Debug, Drop)]
pub struct Near {
    fragments: Vec<Fragment>,
    by_number: AreaTree,
    by_place: AreaTree,
    order: Vec<u32>,
}

impl Model for Near {
    ghost use Rattle.std.specs.Prelude.{List};
    ghost use Rattle.fragment.specs.Index.{IsIndex};
    ghost use Rattle.outline_model.specs.declared.fragment.Fragment.{Fragment};

    ghost Value = { List Fragment };

    ghost view = { λ n. n.fragments.items };

    ghost invariant = { λ n. IsIndex n.fragments.items n.by_number n.by_place n.order.items };
}

impl Near {
    /// An index of these fragments.
    pub fn build(alloc: Global, fragments: &Fragments) -> Result<Near, NoMemory>
        ensures fragments { IfOk result (λ near. near ≡ fragments.now) }
    {
        let items = fragments.copy_items(alloc)?;
        let areas = areas_of(alloc, &items)?;
        let order = order_of(alloc, &areas)?;
        let placed = in_order(alloc, &areas, &order)?;
        let by_number = AreaTree::build(alloc, areas)?;
        let by_place = AreaTree::build(alloc, placed)?;
        Ok(Near {
            fragments: items,
            by_number,
            by_place,
            order,
        })
    }

    /// The numbers of fragments whose piece on the target comes within 128 pixels of the rectangle, in ascending order.
    pub fn meets<'a>(&'a self, rect: &Rect) -> Meets<'a>
        ensures ascending { IsStrictlyIncreasing result }
        ensures below { All (λ k. k < length self.now) result }
        ensures complete { (k : ℕ) (x y : ℤ) → k < length self.now → rect_cover rect.now x y ≡ true
            → IsWithinReach (fragment_at self.now k) (pos 128) x y → Contains result k }
        ensures few { length self.now ≤ 32768 }
    {
        let _ = self.fragments.len();
        Meets {
            areas: &self.by_number,
            rect: *rect,
            from: 0,
        }
    }

    /// The numbers of fragments whose piece on the target comes within `reach` pixels of the rectangle, in any order.
    /// A fragment is no further from its piece than its offset, so this finds what is near where no offset is greater.
    pub fn within<'a>(&'a self, rect: &Rect, reach: i32) -> Within<'a>
        requires least { pos 0 ≤ℤ reach }
        requires most { reach ≤ℤ pos 128 }
        ensures below { All (λ k. k < length self.now) result }
        ensures complete { (k : ℕ) (x y : ℤ) → k < length self.now → rect_cover rect.now x y ≡ true
            → IsWithinReach (fragment_at self.now k) reach x y → Contains result k }
        ensures few { length self.now ≤ 32768 }
    {
        let _ = self.fragments.len();
        let rect = shrunk(rect, REACH - reach);
        Within {
            areas: &self.by_place,
            order: &self.order,
            rect,
            from: 0,
        }
    }
}

/// The numbers that `Near::meets` gives.
#[derive(Drop)]
pub struct Meets<'a> {
    areas: &'a AreaTree,
    rect: Rect,
    from: u32,
}

impl<'a> Model for Meets<'a> {
    ghost use Rattle.std.specs.Prelude.{◌≤◌, List, ℕ};
    ghost use Rattle.fragment.specs.Index.{met_from};

    ghost Value = { List ℕ };

    ghost view = { λ m. met_from m.areas.now m.rect m.from };

    ghost invariant = { λ m. m.from ≤ 32768 };
}

impl<'a> Iterator for Meets<'a> {
    ghost use Rattle.std.specs.Iterator.{YieldsFirst, item_count};

    type Item = u32;

    ghost next_gives = { YieldsFirst (λ m. m) };

    ghost remaining = { item_count (λ m. m) };

    fn next(&mut self) -> Option<u32> {
        let areas = self.areas;
        match areas.first_met(&self.rect, self.from) {
            None => None,
            Some(k) => {
                self.from = k + 1;
                Some(k)
            }
        }
    }
}

/// The numbers that `Near::within` gives.
#[derive(Drop)]
pub struct Within<'a> {
    areas: &'a AreaTree,
    order: &'a [u32],
    rect: Rect,
    from: u32,
}

impl<'a> Model for Within<'a> {
    ghost use Rattle.std.specs.Prelude.{◌≡◌, ◌≤◌, List, ℕ, length};
    ghost use Rattle.fragment.specs.Index.{within_from};

    ghost Value = { List ℕ };

    ghost view = { λ m. within_from m.areas.now m.order.now m.rect m.from };

    ghost invariant = { λ m. (m.from ≤ 32768) × (length m.order.now ≡ length m.areas.now) };
}

impl<'a> Iterator for Within<'a> {
    ghost use Rattle.std.specs.Iterator.{YieldsFirst, item_count};

    type Item = u32;

    ghost next_gives = { YieldsFirst (λ m. m) };

    ghost remaining = { item_count (λ m. m) };

    fn next(&mut self) -> Option<u32> {
        let areas = self.areas;
        match areas.first_met(&self.rect, self.from) {
            None => None,
            Some(k) => {
                self.from = k + 1;
                Some(self.order[k as usize])
            }
        }
    }
}
