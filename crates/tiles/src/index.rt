//! An index of fragments by tiles.

ghost use Rattle.std.specs.Prelude.{◌≡◌, ℕ, ◌+◌, ◌++◌, ◌-◌, ◌*◌, ◌<◌, ◌≤◌, true, false, Some, IfOk, ℤ, pos, ◌+ℤ◌, ◌-ℤ◌, ◌*ℤ◌, ◌≤ℤ◌, ◌<ℤ◌, unsigned_abs, List, take, drop, length, slice_get, Contains};
ghost use Rattle.tiles.specs.Index.{AreInOrder, AreSizes};
ghost use Rattle.tiles.specs.Keys.{is_before, square_at};

use crate::groups::groups_of;
use crate::key::{Square, sorted_keys};
use crate::places::{numbers_of, places_of};
use crate::touched::{Touched, meet};
use fragment::Fragments;
use opc_base::{NoMemory, Rect};
use std::alloc::Global;
use std::marker::Model;

/// The fragments of a target, tile by tile. It is right for all offsets, since it goes by where fragments stand on the
/// target.
///
/// The place of a fragment is its position in the lists of all tiles, one after the other.
#[derive(Drop)]
pub struct TileIndex {
    side: i32,
    halo: i32,
    squares: Vec<Square>,
    firsts: Vec<u32>,
    numbers: Vec<u32>,
    places: Vec<u32>,
}

/// A tile's fragments, and what is stored for them.
pub struct Tile<'a> {
    pub sites: &'a [u32],
    pub sums: &'a mut [i64],
}

impl Model for TileIndex {
    ghost use Rattle.tiles.specs.Tiles.{Tiling};
    ghost use Rattle.tiles.specs.Index.{AreTiles, tiling_from};

    ghost Value = { Tiling };

    ghost view = { λ t. tiling_from t.side t.halo t.squares.items t.firsts.items t.numbers.items };

    ghost invariant = { λ t. AreTiles t.side t.halo t.squares.items t.firsts.items t.numbers.items t.places.items };
}

impl TileIndex {
    ghost use Rattle.opc_base.specs.Plane.{IsRectWithin};
    ghost use Rattle.opc_base.specs.declared.kernels.KernelSet.{KernelSet};
    ghost use Rattle.outline_model.specs.declared.fragment.Fragment.{Fragment};
    ghost use Rattle.outline_model.specs.Outline.{fragment_at};
    ghost use Rattle.tiles.specs.Tiles.{IsTilingOf, by_place, first_of, fragments_of, square_of, tile_count};
    ghost use Rattle.tiles.specs.Meets.{AddsNothing, IsFirstMet, meet_tile, touched_tiles};

    /// The index of these fragments, in squares of this side, each of which sees so far beyond its sides. Both are in
    /// pixels, the side from 16 to 4096 and the halo from 0 to 80.
    pub fn build(
        alloc: Global,
        fragments: &Fragments,
        side: i32,
        halo: i32,
    ) -> Result<TileIndex, NoMemory>
        requires least_side { pos 16 ≤ℤ side }
        requires most_side { side ≤ℤ pos 4096 }
        requires least_halo { pos 0 ≤ℤ halo }
        requires most_halo { halo ≤ℤ pos 80 }
        ensures tiling { IfOk result (λ index. IsTilingOf fragments.now side halo index) }
    {
        let keys = sorted_keys(alloc, fragments, side)?;
        let groups = groups_of(alloc, &keys)?;
        let numbers = numbers_of(alloc, &keys)?;
        let places = places_of(alloc, &numbers)?;
        Ok(TileIndex {
            side,
            halo,
            squares: groups.squares,
            firsts: groups.firsts,
            numbers,
            places,
        })
    }

    /// The number of tiles that have a fragment.
    pub fn count(&self) -> u32
        ensures count { result ≡ tile_count self.now }
        ensures few { result ≤ 32768 }
    {
        self.squares.len() as u32
    }

    /// The number of fragments in the tiles before, and in all of them at the count.
    pub fn first_place(&self, tile: u32) -> u32
        requires { tile ≤ tile_count self.now }
        ensures first { result ≡ first_of self.now tile }
        ensures few { result ≤ 32768 }
    {
        self.firsts[tile as usize]
    }

    /// The square of a tile, grown by the halo on all sides.
    pub fn square(&self, tile: u32) -> Rect
        requires { tile < tile_count self.now }
        ensures square { result ≡ square_of self.now tile }
        ensures within { IsRectWithin 1060000 result }
    {
        let square = self.squares[tile as usize];
        let (x0, x1) = grown(square.a, self.side, self.halo);
        let (y0, y1) = grown(square.b, self.side, self.halo);
        Rect { x0, y0, x1, y1 }
    }

    /// The place of a fragment.
    pub fn place(&self, i: u32) -> u32
        requires { i < length (by_place self.now) }
        ensures { slice_get (by_place self.now) result ≡ Some i }
    {
        self.places[i as usize]
    }

    /// The numbers of a tile's fragments, ascending.
    pub fn fragments(&self, tile: u32) -> &[u32]
        requires { tile < tile_count self.now }
        ensures { result.now ≡ fragments_of self.now tile }
    {
        let start = self.firsts[tile as usize] as usize;
        let end = self.firsts[tile as usize + 1] as usize;
        &self.numbers[start..end]
    }

    /// Lends what is stored for a tile, and apart from it what is stored for the tiles after it. There are `stride`
    /// numbers for each fragment of this tile and of the later ones.
    pub fn split<'a>(
        &'a self,
        sums: &'a mut [i64],
        tile: u32,
        stride: usize,
    ) -> (Tile<'a>, &'a mut [i64])
        requires tile { tile < tile_count self.now }
        requires size { stride * first_of self.now tile + length sums.old ≡ stride * length (by_place self.now) }
        ensures sites { result.0.sites.now ≡ fragments_of self.now tile }
        ensures own { result.0.sums.now ≡ take (stride * length (fragments_of self.now tile)) sums.old }
        ensures rest { result.1.now ≡ drop (stride * length (fragments_of self.now tile)) sums.old }
        ensures all { result.0.sums.now ++ result.1.now ≡ sums.old }
    {
        let sites = self.fragments(tile);
        let (own, rest) = sums.split_at_mut(stride * sites.len());
        (Tile { sites, sums: own }, rest)
    }

    /// Whether a rectangle reaches a tile.
    #[inline]
    pub fn meets(&self, tile: u32, rect: &Rect) -> bool
        requires { tile < tile_count self.now }
        ensures { result ≡ meet_tile self.now rect.now tile }
    {
        meet(&self.square(tile), rect)
    }

    /// The tiles that a rectangle reaches, in ascending order. It may be any rectangle.
    pub fn touched<'a>(&'a self, rect: &Rect) -> Touched<'a>
        ensures tiles { result ≡ touched_tiles self.now rect.now }

        // It adds nothing in the tiles that are left out, where the halo is at least the reach and the samples to a side.
        ensures far { (set : KernelSet) (samples : ℕ) (fs : List Fragment) (k i : ℕ) → pos (set.reach + samples) ≤ℤ self.now.halo
            → IsTilingOf fs self.now.side self.now.halo self.now → k < tile_count self.now → meet_tile self.now rect.now k ≡ false
            → Contains (fragments_of self.now k) i → AddsNothing set samples (fragment_at fs i) rect.now }
    {
        Touched::new(self, *rect)
    }

    /// The first of the tiles from one number up to another that a rectangle reaches. It may be any rectangle. Those that
    /// lie beside it in a row are not looked at one by one.
    pub fn first_met(&self, rect: &Rect, from: u32, end: u32) -> Option<u32>
        requires { end ≤ tile_count self.now }
        ensures { IsFirstMet self.now rect.now from end result }
    {
        let mut at = from;
        while at < end {
            let next = self.missed_upto(rect, at, end);
            if next == at {
                return Some(at);
            }
            at = next;
        }
        None
    }

    /// This tile if the rectangle reaches it. Else a later one, or the end, before which it reaches none from this one on.
    fn missed_upto(&self, rect: &Rect, at: u32, end: u32) -> u32
        requires order { at < end }
        requires end { end ≤ tile_count self.now }
        ensures from { at ≤ result }
        ensures upto { result ≤ end }
        ensures met { result ≡ at → meet_tile self.now rect.now at ≡ true }
        ensures missed { (k : ℕ) → at ≤ k → k < result → meet_tile self.now rect.now k ≡ false }
    {
        if self.meets(at, rect) {
            return at;
        }
        let square = self.squares[at as usize];
        let (low, high) = lines_between(rect.y0, rect.y1, self.side, self.halo);
        if high <= i64::from(square.b) {
            return end;
        }
        let (left, right) = lines_between(rect.x0, rect.x1, self.side, self.halo);
        let row = next_row(square, low, right);
        first_from(&self.squares, row, left).max(at + 1).min(end)
    }
}

/// A side of a square, from the number of its tile, grown by the halo.
fn grown(number: i32, side: i32, halo: i32) -> (i32, i32)
    requires sizes { AreSizes side halo }
    requires number { unsigned_abs number ≤ 1053000 }
    requires low { unsigned_abs (number *ℤ side) ≤ 1053000 }
    ensures low { result.0 ≡ number *ℤ side -ℤ halo }
    ensures high { result.1 ≡ number *ℤ side +ℤ side +ℤ halo }
    ensures low_within { unsigned_abs result.0 ≤ 1060000 }
    ensures high_within { unsigned_abs result.1 ≤ 1060000 }
{
    let low = number * side;
    (low - halo, low + side + halo)
}

/// The lowest row of squares that reaches into the coordinates from `start` up to `end`, and the lowest one above it that
/// doesn't. Columns are as rows are.
fn lines_between(start: i32, end: i32, side: i32, halo: i32) -> (i64, i64)
    requires { AreSizes side halo }
    ensures low { (n : ℤ) → n <ℤ result.0 → (n *ℤ side +ℤ side +ℤ halo) ≤ℤ start }
    ensures high { (n : ℤ) → result.1 ≤ℤ n → end ≤ℤ (n *ℤ side -ℤ halo) }
{
    let side = i64::from(side);
    let halo = i64::from(halo);
    let low = (i64::from(start) - halo).div_euclid(side);
    let high = (i64::from(end) + halo - 1).div_euclid(side);
    (low, high + 1)
}

/// The row in which to go on after a square, from row `low` on, where no column from `right` on is looked for.
fn next_row(square: Square, low: i64, right: i64) -> i64
    ensures from { low ≤ℤ result }
    ensures between { (b : ℤ) → low ≤ℤ b → square.b ≤ℤ b → b <ℤ result → (b ≡ square.b) × (right ≤ℤ square.a) }
{
    let row = i64::from(square.b);
    let row = if i64::from(square.a) < right {
        row
    } else {
        row + 1
    };
    row.max(low)
}

/// The first of the squares that doesn't stand before this column of this row.
fn first_from(squares: &[Square], row: i64, column: i64) -> u32
    requires few { length squares.now ≤ 32768 }
    requires order { AreInOrder squares.now }
    ensures before { (k : ℕ) → k < result → is_before (square_at squares.now k) row column ≡ true }
    ensures after { (k : ℕ) → result ≤ k → k < length squares.now → is_before (square_at squares.now k) row column ≡ false }
{
    squares.partition_point(|square| is_before(*square, row, column)) as u32
}

/// Whether a square stands before this column of this row: in a lower row, or in this one further to the left.
fn is_before(square: Square, row: i64, column: i64) -> bool
    ensures { result ≡ is_before square row column }
{
    let b = i64::from(square.b);
    b < row || b == row && i64::from(square.a) < column
}
