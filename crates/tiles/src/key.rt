//! Fragments by the tiles in which they stand.

ghost use Rattle.std.specs.Prelude.{◌≡◌, ◌<◌, pos, ◌≤ℤ◌, IfOk, length};
ghost use Rattle.tiles.specs.Keys.{AreKeys, IsSquareWithin, ListsKeys, key_of};

use fragment::Fragments;
use opc_base::NoMemory;
use std::alloc::Global;

/// The square of a tile: from `a` times the side up to one side further in x, and so for `b` in y. Squares ascend by rows.
#[derive(Clone, Copy, PartialEq, Eq, PartialOrd, Ord, Debug)]
pub struct Square {
    pub b: i32,
    pub a: i32,
}

/// A fragment's tile, and the fragment.
#[derive(Clone, Copy, PartialEq, Eq, PartialOrd, Ord, Debug)]
pub struct Key {
    pub square: Square,
    pub number: u32,
}

/// The keys of all fragments, ascending by tile and in each tile by number.
pub fn sorted_keys(alloc: Global, fragments: &Fragments, side: i32) -> Result<Vec<Key>, NoMemory>
    requires least { pos 16 ≤ℤ side }
    requires most { side ≤ℤ pos 4096 }
    ensures { IfOk result (λ keys. AreKeys fragments.now side keys.items) }
{
    let mut keys = keys_of(alloc, fragments, side)?;
    keys.sort_unstable();
    Ok(keys)
}

/// The keys of all fragments by number.
fn keys_of(alloc: Global, fragments: &Fragments, side: i32) -> Result<Vec<Key>, NoMemory>
    requires least { pos 16 ≤ℤ side }
    requires most { side ≤ℤ pos 4096 }
    ensures { IfOk result (λ keys. ListsKeys fragments.now side (length fragments.now) keys.items) }
{
    let mut keys = Vec::new(alloc);
    for number in 0..fragments.count() {
        keys.push(key_of(fragments, side, number))?;
    }
    Ok(keys)
}

/// The key of a fragment.
fn key_of(fragments: &Fragments, side: i32, number: u32) -> Key
    requires least { pos 16 ≤ℤ side }
    requires most { side ≤ℤ pos 4096 }
    requires number { number < length fragments.now }
    ensures key { result ≡ key_of fragments.now side number }
    ensures near { IsSquareWithin side result.square }
{
    let site = fragments.site(number, -1);
    Key {
        square: Square {
            b: site.y.div_euclid(side),
            a: site.x.div_euclid(side),
        },
        number,
    }
}
