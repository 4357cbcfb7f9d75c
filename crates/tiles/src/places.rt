//! Fragments by place, and places by fragment.

ghost use Rattle.std.specs.Prelude.{◌≡◌, ℕ, ◌<◌, ◌≤◌, Some, IfOk, length, get_or, map, slice_get};
ghost use Rattle.tiles.specs.Places.{AreOneEach};

use crate::key::Key;
use opc_base::NoMemory;
use std::alloc::Global;

/// The numbers of the keys' fragments.
pub fn numbers_of(alloc: Global, keys: &[Key]) -> Result<Vec<u32>, NoMemory>
    ensures { IfOk result (λ numbers. numbers.items ≡ map (λ k. k.number) keys.now) }
{
    let mut numbers = Vec::new(alloc);
    for key in keys {
        numbers.push(key.number)?;
    }
    Ok(numbers)
}

/// Where each number stands in the list.
pub fn places_of(alloc: Global, numbers: &[u32]) -> Result<Vec<u32>, NoMemory>
    requires few { length numbers.now ≤ 32768 }
    requires one_each { AreOneEach numbers.now }
    ensures count { IfOk result (λ places. length places.items ≡ length numbers.now) }
    ensures placed { IfOk result (λ places. (i : ℕ) → i < length places.items → slice_get numbers.now (get_or places.items i 0) ≡ Some i) }
{
    let mut places = vec![in alloc; 0u32; numbers.len()]?;
    for place in 0..numbers.len() {
        places[numbers[place] as usize] = place as u32;
    }
    Ok(places)
}
