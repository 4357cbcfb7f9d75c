//! The tiles that a rectangle reaches.

ghost use Rattle.std.specs.Prelude.{◌≡◌, ◌&&◌, int_lt};
ghost use Rattle.std.specs.Int.{int_max, int_min};
ghost use Rattle.tiles.specs.Meets.{meet};

use crate::index::TileIndex;
use opc_base::Rect;
use std::marker::Model;

/// Whether some pixel lies in both rectangles.
#[inline]
pub fn meet(r: &Rect, s: &Rect) -> bool
    ensures { result ≡ meet r.now s.now }
{
    overlap(r.x0, r.x1, s.x0, s.x1) && overlap(r.y0, r.y1, s.y0, s.y1)
}

/// Whether some number lies from `a` up to but not including `b`, and from `c` up to but not including `d`.
#[inline]
fn overlap(a: i32, b: i32, c: i32, d: i32) -> bool
    ensures { result ≡ int_lt (int_max a c) (int_min b d) }
{
    a.max(c) < b.min(d)
}

/// The tiles that a rectangle reaches, in ascending order.
#[derive(Drop)]
pub struct Touched<'a> {
    index: &'a TileIndex,
    rect: Rect,
    next: u32,
    end: u32,
}

impl<'a> Model for Touched<'a> {
    ghost use Rattle.std.specs.Prelude.{◌≤◌, List, ℕ};
    ghost use Rattle.tiles.specs.Tiles.{tile_count};
    ghost use Rattle.tiles.specs.Meets.{touched_between};

    ghost Value = { List ℕ };

    ghost view = { λ t. touched_between t.index.now t.rect t.next t.end };

    ghost invariant = { λ t. t.end ≤ tile_count t.index.now };
}

impl<'a> Touched<'a> {
    ghost use Rattle.tiles.specs.Meets.{touched_tiles};

    /// All of them.
    pub(crate) fn new(index: &'a TileIndex, rect: Rect) -> Self
        ensures { result ≡ touched_tiles index.now rect }
    {
        Touched {
            index,
            rect,
            next: 0,
            end: index.count(),
        }
    }
}

impl<'a> Iterator for Touched<'a> {
    ghost use Rattle.std.specs.Iterator.{YieldsFirst, item_count};

    type Item = u32;

    ghost next_gives = { YieldsFirst (λ t. t) };

    ghost remaining = { item_count (λ t. t) };

    fn next(&mut self) -> Option<u32> {
        let index = self.index;
        match index.first_met(&self.rect, self.next, self.end) {
            None => None,
            Some(tile) => {
                self.next = tile + 1;
                Some(tile)
            }
        }
    }
}
