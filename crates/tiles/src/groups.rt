//! Which keys stand in one tile.

ghost use Rattle.std.specs.Prelude.{◌≡◌, ◌-◌, ◌<◌, ◌≤◌, true, false, IfOk, length};
ghost use Rattle.tiles.specs.Index.{HoldGroups};
ghost use Rattle.tiles.specs.Keys.{IsAscending, IsLastOf, IsNoLastOf};

use crate::key::{Key, Square};
use opc_base::NoMemory;
use std::alloc::Global;

/// The tiles that have a fragment, and the place at which each begins, with the number of all places at the end.
#[derive(Drop)]
pub struct Groups {
    pub squares: Vec<Square>,
    pub firsts: Vec<u32>,
}

/// The tiles of these keys.
pub fn groups_of(alloc: Global, keys: &[Key]) -> Result<Groups, NoMemory>
    requires few { length keys.now ≤ 32768 }
    requires ascending { IsAscending keys.now }
    ensures { IfOk result (λ g. HoldGroups keys.now g.squares.items g.firsts.items) }
{
    let mut squares = Vec::new(alloc);
    let mut firsts = Vec::new(alloc);
    for place in 0..keys.len() {
        let square = keys[place].square;
        if !is_last(&squares, square) {
            squares.push(square)?;
            firsts.push(place as u32)?;
        }
    }
    firsts.push(keys.len() as u32)?;
    Ok(Groups { squares, firsts })
}

/// Whether this is the last of the squares.
fn is_last(squares: &[Square], square: Square) -> bool
    ensures last { result ≡ true → IsLastOf square squares.now }
    ensures other { result ≡ false → IsNoLastOf square squares.now }
{
    match squares.last() {
        Some(last) => *last == square,
        None => false,
    }
}
