//! Tiles of a small square.
ghost use Rattle.std.specs.Prelude.{◌≡◌, ◌+◌, ◌*◌, ◌<◌, IfOk, ◌∷◌, [], length};
ghost use Rattle.tiles.specs.Tiles.{by_place, first_of, tile_count};

use crate::{Tile, TileIndex};
use fragment::{Fragments, cut};
use opc_base::{CutRules, NoMemory, Rect, Region};
use std::alloc::Global;
use std::test::Fail;

/// Each side of a square of 10 by 10 pixels is cut into 3, 4 and 3.
const RULES: CutRules = CutRules {
    piece: 4,
    corner_out: 3,
    corner_in: 3,
    line_end: 0,
};

/// Its fragments from 0 are 3 of its left side, 3 of its right one, 3 of its lower and 3 of its upper one.
const SQUARE: Rect = Rect {
    x0: 10,
    y0: 10,
    x1: 20,
    y1: 20,
};

const BELOW_ZERO: Rect = Rect {
    x0: -20,
    y0: -20,
    x1: -10,
    y1: -10,
};

/// Its sides stand in two rows of five tiles of 16 by 16 pixels.
const BAR: Rect = Rect {
    x0: 0,
    y0: 0,
    x1: 80,
    y1: 20,
};

fn square(alloc: Global) -> Result<Region, NoMemory>
    ensures { IfOk result (λ region. region ≡ SQUARE ∷ []) }
{
    let mut rects = Vec::new(alloc);
    rects.push(SQUARE)?;
    Ok(Region::from_rects(rects))
}

fn square_below_zero(alloc: Global) -> Result<Region, NoMemory>
    ensures { IfOk result (λ region. region ≡ BELOW_ZERO ∷ []) }
{
    let mut rects = Vec::new(alloc);
    rects.push(BELOW_ZERO)?;
    Ok(Region::from_rects(rects))
}

fn bar(alloc: Global) -> Result<Region, NoMemory>
    ensures { IfOk result (λ region. region ≡ BAR ∷ []) }
{
    let mut rects = Vec::new(alloc);
    rects.push(BAR)?;
    Ok(Region::from_rects(rects))
}

/// Takes what threads may share.
fn share<T: Send + Sync>(_shared: &T) {}

#[test]
fn tiles_of_a_square(rt: HostRuntime) -> Result<(), Fail> {
    let region = square(rt.alloc())?;
    let fragments = cut(rt.alloc(), &region, &RULES)?;
    let index = TileIndex::build(rt.alloc(), &fragments, 16, 5)?;
    share(&fragments);
    share(&index);
    assert_eq!(rt; index.count(), 4);
    assert_eq!(rt; fragments.count(), 12);

    // Fragment 8 stands at (18, 10), in the tile to the right of the first, and fragment 2 at (10, 18), in the one above.
    assert_eq!(rt; index.first_place(2), 7);
    assert_eq!(rt; index.fragments(1), [3, 4, 8].as_slice());
    assert_eq!(rt; index.place(2), 7);
    let right = Rect {
        x0: 11,
        y0: -5,
        x1: 37,
        y1: 21,
    };
    assert_eq!(rt; index.square(1), right);

    let corner = Rect {
        x0: 36,
        y0: -9,
        x1: 50,
        y1: -4,
    };
    let mut touched = index.touched(&corner);
    assert_eq!(rt; touched.next(), Some(1));
    assert_eq!(rt; touched.next(), None);
    let empty = Rect {
        x0: 12,
        y0: 12,
        x1: 12,
        y1: 20,
    };
    assert_eq!(rt; index.touched(&empty).next(), None);
    Ok(())
}

#[test]
fn tiles_below_zero(rt: HostRuntime) -> Result<(), Fail> {
    let region = square_below_zero(rt.alloc())?;
    let fragments = cut(rt.alloc(), &region, &RULES)?;
    let index = TileIndex::build(rt.alloc(), &fragments, 16, 3)?;
    assert_eq!(rt; index.count(), 4);

    // Fragment 0 stands at (-20, -19), and fragment 6 at (-19, -20).
    assert_eq!(rt; index.fragments(0), [0, 6].as_slice());
    assert_eq!(rt; index.fragments(1), [3, 7, 8].as_slice());
    let first = Rect {
        x0: -35,
        y0: -35,
        x1: -13,
        y1: -13,
    };
    assert_eq!(rt; index.square(0), first);
    Ok(())
}

#[test]
fn tiles_of_two_rows(rt: HostRuntime) -> Result<(), Fail> {
    let region = bar(rt.alloc())?;
    let fragments = cut(rt.alloc(), &region, &RULES)?;
    let index = TileIndex::build(rt.alloc(), &fragments, 16, 1)?;
    assert_eq!(rt; index.count(), 10);

    // Tile 2 sees the pixels from x = 31 up to 49, and from y = -1 up to 17, and tile 7 stands above it.
    let middle = Rect {
        x0: 33,
        y0: 4,
        x1: 47,
        y1: 17,
    };
    let mut touched = index.touched(&middle);
    assert_eq!(rt; touched.next(), Some(2));
    assert_eq!(rt; touched.next(), Some(7));
    assert_eq!(rt; touched.next(), None);
    assert_eq!(rt; index.first_met(&middle, 3, 7), None);

    // Tile 6 sees the pixels from x = 15 on, and tile 1 those up to y = 17.
    let left = Rect {
        x0: -5,
        y0: 17,
        x1: 16,
        y1: 22,
    };
    let mut touched = index.touched(&left);
    assert_eq!(rt; touched.next(), Some(5));
    assert_eq!(rt; touched.next(), Some(6));
    assert_eq!(rt; touched.next(), None);
    let beside = Rect {
        x0: 81,
        y0: -9,
        x1: 90,
        y1: 40,
    };
    assert_eq!(rt; index.touched(&beside).next(), None);
    Ok(())
}

/// Writes 5 to all numbers of the tile, and 6 to those of the tiles after it.
fn write_both<'a>(index: &'a TileIndex, sums: &'a mut [i64], tile: u32)
    requires tile { tile < tile_count index.now }
    requires size { 2 * first_of index.now tile + length sums.old ≡ 2 * length (by_place index.now) }
{
    let (part, rest) = index.split(sums, tile, 2);
    let Tile {
        sites: _,
        sums: own,
    } = part;
    own.fill(5);
    rest.fill(6);
}

#[test]
fn splits_between_tiles(rt: HostRuntime) -> Result<(), Fail> {
    let region = square(rt.alloc())?;
    let fragments = cut(rt.alloc(), &region, &RULES)?;
    let index = TileIndex::build(rt.alloc(), &fragments, 16, 5)?;
    assert_eq!(rt; index.count(), 4);
    assert_eq!(rt; index.first_place(2), 7);
    assert_eq!(rt; fragments.count(), 12);

    // The third tile has 3 fragments, and the fourth 2.
    let mut sums = [0; 10];
    write_both(&index, &mut sums, 2);
    assert_eq!(rt; sums, [5, 5, 5, 5, 5, 5, 6, 6, 6, 6]);
    Ok(())
}
