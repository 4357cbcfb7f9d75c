//! The blocks of a kernel with the entries 1 to 9, worked out by hand.

ghost use Rattle.std.specs.Prelude.{◌≡◌, ◌<◌, ◌≤◌, length, IfOk};
ghost use Rattle.opc_base.specs.Optics.{IsEntryWithin, KeepsTwoTransmissions};

use super::*;
use opc_base::{Entries, Entry, Kernel, KernelSet, Kernels, NoMemory, Steps};
use std::alloc::Global;
use std::marker::Brand;
use std::sync::ledger::{Blank, Ledger};
use std::test::Fail;

/// A kernel of reach 1 and weight 1 with these real parts, up to 63.
fn set_of(
    alloc: Global,
    reals: &[u8],
    covered: Entry,
    uncovered: Entry,
) -> Result<KernelSet, NoMemory>
    requires nine { length reals.now ≡ 9 }
    requires covered { IsEntryWithin 8 covered }
    requires uncovered { IsEntryWithin 8 uncovered }
    ensures { IfOk result KeepsTwoTransmissions }
{
    let mut entries = Vec::new(alloc);
    for re in reals {
        entries.push(Entry {
            re: i16::from(*re % 64),
            im: 0,
        })?;
    }
    let mut kernels = Vec::new(alloc);
    kernels.push(Kernel {
        weight: 1,
        entries: Entries::from_vec(entries),
    })?;
    Ok(KernelSet {
        reach: 1,
        covered,
        uncovered,
        kernels: Kernels::from_vec(kernels),
    })
}

/// The tables of the set.
fn tables_of(alloc: Global, set: &KernelSet) -> Result<Tables, NoMemory>
    requires { KeepsTwoTransmissions set.now }
{
    Tables::build(alloc, set)
}

/// The real part of a block, at a counter of its own.
fn counted_block<L: Ledger>(tables: &Tables, dx: i32, dy: i32, blank: Blank) -> i64
    requires name { blank.name ≡ L.name }
    requires parts { blank.parts ≡ L.parts }
    requires some { 0 < blank.parts }
{
    let mut steps: Steps<L> = Steps::new(blank);
    match tables.block(dx, dy, &mut steps) {
        [re, ..] => *re,
        [] => -1,
    }
}

fn real_block(tables: &Tables, dx: i32, dy: i32) -> i64 {
    counted_block::<Brand>(tables, dx, dy, Blank::new(1))
}

fn is_shared<T: Send + Sync>(_value: &T) {}

#[test]
fn blocks_within_and_beyond_the_reach(rt: HostRuntime) -> Result<(), Fail> {
    let one = Entry { re: 1, im: 0 };
    let nothing = Entry { re: 0, im: 0 };
    let set = set_of(rt.alloc(), &[1, 2, 3, 4, 5, 6, 7, 8, 9], one, nothing)?;
    let tables = tables_of(rt.alloc(), &set)?;
    let rows = [
        (-2, 5, 0),
        (-1, -1, 1),
        (0, 0, 12),
        (1, -1, 6),
        (-1, 5, 12),
        (0, 9, 27),
        (1, 1, 45),
        (2, 7, 45),
        (900, 900, 45),
    ];
    for (dx, dy, want) in rows {
        assert_eq!(rt; real_block(&tables, dx, dy), want, "at {dx} {dy}");
    }
    Ok(())
}

#[test]
fn ground_of_two_transmissions(rt: HostRuntime) -> Result<(), Fail> {
    let covered = Entry { re: 2, im: 0 };
    let uncovered = Entry { re: 0, im: 1 };
    let set = set_of(rt.alloc(), &[1; 9], covered, uncovered)?;
    let tables = tables_of(rt.alloc(), &set)?;
    is_shared(&tables);
    assert_eq!(rt; tables.lanes(), 2);
    assert_eq!(rt; tables.reach(), 1);
    assert_eq!(rt; tables.ground(), [0, 9].as_slice());
    assert_eq!(rt; real_block(&tables, 1, 1), 18);
    Ok(())
}
