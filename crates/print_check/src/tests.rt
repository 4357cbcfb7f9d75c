//! Printed images and their flaws, worked out by hand.

ghost use Rattle.std.specs.Prelude.{◌≡◌, ℕ, ◌+◌, ◌*◌, ◌≤◌, true, All, IfOk, length, sum_by, unsigned_abs};
ghost use Rattle.opc_base.specs.Canonical.{IsSolid};
ghost use Rattle.opc_base.specs.Cover.{AreRectangles, IsPlaced};
ghost use Rattle.opc_base.specs.Lanes.{weights_of};
ghost use Rattle.opc_base.specs.Optics.{IsEntryWithin, IsKernelWithin, KeepsTwoTransmissions};
ghost use Rattle.opc_base.specs.Plane.{IsRectWithin};

use crate::{Flaw, FlawKind, Line, flaws, print_all};
use opc_base::{
    Entries, Entry, Kernel, KernelSet, Kernels, NoMemory, NoWatch, Outline, Placed, Rect, Rects,
    Region, Watch,
};
use prefix_tables::Tables;
use rect_union::{UnionFault, union};
use std::alloc::Global;
use std::sync::atomic::{AtomicBool, Ordering};
use std::test::Fail;

/// The transmission that lets all light through.
const ALL: Entry = Entry { re: 1, im: 0 };

/// The transmission that lets no light through.
const NOTHING: Entry = Entry { re: 0, im: 0 };

/// Entries with these real parts, up to 127, each beside the same imaginary part.
fn entries_of(alloc: Global, reals: &[u8], im: u8) -> Result<Vec<Entry>, NoMemory>
    ensures size { IfOk result (λ entries. length entries.items ≡ length reals.now) }
    ensures within { IfOk result (λ entries. All (IsEntryWithin 128) entries.items) }
{
    let mut entries = Vec::new(alloc);
    for re in reals {
        entries.push(Entry {
            re: i16::from(*re % 128),
            im: i16::from(im % 128),
        })?;
    }
    Ok(entries)
}

/// So many kernels of a reach and a weight, each with these entries.
fn kernels_of(
    alloc: Global,
    reach: u16,
    count: u8,
    weight: u16,
    entries: &[Entry],
) -> Result<Kernels, NoMemory>
    requires size { length entries.now ≡ (2 * reach + 1) * (2 * reach + 1) }
    requires weight { 1 ≤ weight }
    requires entries { All (IsEntryWithin 128) entries.now }
    ensures count { IfOk result (λ kernels. length kernels ≡ count) }
    ensures weights { IfOk result (λ kernels. sum_by (λ k. k.weight) kernels ≡ count * weight) }
    ensures within { IfOk result (λ kernels. All (IsKernelWithin reach 128) kernels) }
{
    let mut kernels = Vec::new(alloc);
    for _ in 0..count {
        kernels.push(Kernel {
            weight,
            entries: Entries::from_vec(entries.to_vec(alloc)?),
        })?;
    }
    Ok(Kernels::from_vec(kernels))
}

/// A set of so many kernels of reach 1 and weight 1, each with these nine entries, under two transmissions.
fn set_of(
    alloc: Global,
    count: u8,
    entries: &[Entry],
    covered: Entry,
    uncovered: Entry,
) -> Result<KernelSet, NoMemory>
    requires some { 1 ≤ count }
    requires few { count ≤ 16 }
    requires nine { length entries.now ≡ 9 }
    requires entries { All (IsEntryWithin 128) entries.now }
    requires covered { IsEntryWithin 8 covered }
    requires uncovered { IsEntryWithin 8 uncovered }
    ensures { IfOk result KeepsTwoTransmissions }
{
    Ok(KernelSet {
        reach: 1,
        covered,
        uncovered,
        kernels: kernels_of(alloc, 1, count, 1, entries)?,
    })
}

/// The region that these rectangles cover together, without those that have no area or lie beyond the limit.
fn region_of_rects(alloc: Global, rects: &[Rect]) -> Result<Region, UnionFault>
    ensures few { IfOk result (λ region. length region ≤ 65536) }
    ensures within { IfOk result (All (IsRectWithin 1048000)) }
{
    union(alloc, &placed(alloc, rects)?)
}

/// The rectangles that have area and lie within the limit, as one placed shape.
fn placed(alloc: Global, rects: &[Rect]) -> Result<Placed, NoMemory> {
    let mut kept = Vec::new(alloc);
    for rect in rects {
        if is_placed(rect) {
            kept.push(*rect)?;
        }
    }
    let mut outlines = Vec::new(alloc);
    outlines.push(Outline::Path(Rects::from_vec(kept)))?;
    Ok(Placed::from_outlines(outlines))
}

/// Whether the rectangle has area and lies within the limit.
fn is_placed(rect: &Rect) -> bool
    ensures solid { result ≡ true → IsSolid rect.now }
    ensures within { result ≡ true → IsRectWithin 1048000 rect.now }
{
    rect.x0 < rect.x1
        && rect.y0 < rect.y1
        && is_within(rect.x0, rect.y0)
        && is_within(rect.x1, rect.y1)
}

fn is_within(x: i32, y: i32) -> bool
    ensures x { result ≡ true → unsigned_abs x ≤ 1048000 }
    ensures y { result ≡ true → unsigned_abs y ≤ 1048000 }
{
    x.unsigned_abs() <= 1_048_000 && y.unsigned_abs() <= 1_048_000
}

/// The rectangle between these corners.
fn rect(x0: i32, y0: i32, x1: i32, y1: i32) -> Rect
    ensures { result ≡ record { x0 = x0; y0 = y0; x1 = x1; y1 = y1 } }
{
    Rect { x0, y0, x1, y1 }
}

fn weights_of(alloc: Global, set: &KernelSet) -> Result<Vec<i64>, NoMemory>
    ensures { IfOk result (λ weights. weights.items ≡ weights_of set.now) }
{
    let weights = set
        .kernels
        .as_slice()
        .iter()
        .map(|kernel| i64::from(kernel.weight))
        .collect(alloc)?;
    Ok(weights)
}

/// One kernel of nine equal entries, for a mask that is open where it is covered.
fn nine_equal(alloc: Global) -> Result<KernelSet, NoMemory>
    ensures { IfOk result KeepsTwoTransmissions }
{
    let entries = entries_of(alloc, &[1, 1, 1, 1, 1, 1, 1, 1, 1], 0)?;
    let set = set_of(alloc, 1, &entries, ALL, NOTHING)?;
    Ok(set)
}

/// Four such kernels.
fn four_equal(alloc: Global) -> Result<KernelSet, NoMemory>
    ensures { IfOk result KeepsTwoTransmissions }
{
    let entries = entries_of(alloc, &[1, 1, 1, 1, 1, 1, 1, 1, 1], 0)?;
    let set = set_of(alloc, 4, &entries, ALL, NOTHING)?;
    Ok(set)
}

/// Sees whether two parts run side by side: each sets its own flag and looks for the other's.
#[derive(Drop)]
struct Meeting {
    entered: [AtomicBool; 2],
    met: [AtomicBool; 2],
}

impl Watch for Meeting {
    fn entered(&self, part: u32) {
        if part == 0 {
            meet(&self.entered[0], &self.entered[1], &self.met[0]);
        } else {
            meet(&self.entered[1], &self.entered[0], &self.met[1]);
        }
    }
}

fn meet(own: &AtomicBool, other: &AtomicBool, met: &AtomicBool) {
    own.store(true, Ordering::SeqCst);
    for _ in 0..500_000_000u32 {
        if other.load(Ordering::SeqCst) {
            met.store(true, Ordering::SeqCst);
            return;
        }
    }
}

#[test]
fn two_parts_run_side_by_side(rt: HostRuntime) -> Result<(), Fail> {
    let set = four_equal(rt.alloc())?;
    let tables = Tables::build(rt.alloc(), &set)?;
    let weights = weights_of(rt.alloc(), &set)?;
    let mask = region_of_rects(rt.alloc(), &[rect(1, 2, 31, 9)]).expect(&rt, "a region");
    let watch = Meeting {
        entered: [AtomicBool::new(false), AtomicBool::new(false)],
        met: [AtomicBool::new(false), AtomicBool::new(false)],
    };
    let printed = print_all(
        &rt,
        rt.alloc(),
        2,
        &mask,
        &tables,
        &weights,
        64,
        16,
        rect(0, 0, 32, 16),
        &watch,
    )?;
    assert_eq!(rt; printed.rects(), [rect(1, 2, 31, 9)].as_slice());
    assert!(rt; watch.met[0].load(Ordering::SeqCst));
    assert!(rt; watch.met[1].load(Ordering::SeqCst));
    Ok(())
}

#[test]
fn a_square_prints_as_itself(rt: HostRuntime) -> Result<(), Fail> {
    let set = nine_equal(rt.alloc())?;
    let tables = Tables::build(rt.alloc(), &set)?;
    let weights = weights_of(rt.alloc(), &set)?;
    let mask = region_of_rects(rt.alloc(), &[rect(0, 0, 10, 10)]).expect(&rt, "a region");
    let window = rect(-20, -20, 30, 30);
    for workers in [1, 2, 7, 64] {
        let printed = print_all(
            &rt,
            rt.alloc(),
            workers,
            &mask,
            &tables,
            &weights,
            16,
            16,
            window,
            &NoWatch,
        )?;
        assert_eq!(rt; printed.rects(), [rect(0, 0, 10, 10)].as_slice());
        let list = flaws(rt.alloc(), &mask, &printed, 10)?;
        assert_eq!(rt; list.len(), 0);
    }
    Ok(())
}

#[test]
fn two_bars_are_bridged(rt: HostRuntime) -> Result<(), Fail> {
    let set = nine_equal(rt.alloc())?;
    let tables = Tables::build(rt.alloc(), &set)?;
    let weights = weights_of(rt.alloc(), &set)?;
    let bars = region_of_rects(rt.alloc(), &[rect(0, 0, 6, 20), rect(8, 0, 14, 20)]).expect(
        &rt, "a region",
    );
    let window = rect(-17, -17, 31, 37);
    for (workers, side) in [(1, 16), (2, 64), (7, 4096), (7, 16), (2, 16), (1, 4096)] {
        let printed = print_all(
            &rt,
            rt.alloc(),
            workers,
            &bars,
            &tables,
            &weights,
            9,
            side,
            window,
            &NoWatch,
        )?;
        assert_eq!(rt; printed.rects().len(), 9);
        let list = flaws(rt.alloc(), &bars, &printed, 3)?;
        assert_eq!(rt; list.len(), 18);
        for (index, found) in list.iter().enumerate() {
            let wanted = Flaw {
                kind: FlawKind::Bridge,
                line: Line::Row,
                place: 1 + index as i32,
                from: -1,
                to: 15,
            };
            assert_eq!(rt; *found, wanted);
        }
    }
    Ok(())
}

#[test]
fn a_thin_line_is_pinched(rt: HostRuntime) -> Result<(), Fail> {
    let target = region_of_rects(rt.alloc(), &[rect(0, 0, 6, 3)]).expect(&rt, "a region");
    let printed = region_of_rects(rt.alloc(), &[rect(1, 1, 5, 2)]).expect(&rt, "a region");
    let list = flaws(rt.alloc(), &target, &printed, 3)?;
    assert_eq!(rt; list.len(), 4);
    Ok(())
}
