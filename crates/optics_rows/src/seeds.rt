//! Numbers from a seed, and sets of kernels and rectangles of such numbers.

ghost use Rattle.std.specs.Prelude.{◌≡◌, ◌+◌, ◌*◌, ◌<◌, ◌≤◌, ◌+ℤ◌, ◌≤ℤ◌, ◌<ℤ◌, pos, unsigned_abs, All, IfOk, length, sum_by};
ghost use Rattle.opc_base.specs.Optics.{IsEntryWithin, IsKernelWithin, KeepsOneTransmission, KeepsTwoTransmissions};
ghost use Rattle.opc_base.specs.Plane.{IsOrdered, IsPixWithin, IsRectWithin};

use opc_base::{Entries, Entry, Kernel, KernelSet, Kernels, NoMemory, Pix, Rect};
use std::alloc::Global;

/// Numbers that look random, the same for each seed.
#[derive(Drop)]
pub struct Numbers {
    state: u32,
}

/// From where to where a side goes.
#[derive(Clone, Copy)]
struct Span {
    from: i32,
    to: i32,
}

impl Numbers {
    /// The numbers of a seed.
    pub fn new(seed: u32) -> Self {
        Numbers { state: seed }
    }

    /// A number from `least` on, one of so many.
    pub fn next(&mut self, least: i16, count: u16) -> i32
        requires { 0 < count }
        ensures low { least ≤ℤ result }
        ensures high { result <ℤ (least +ℤ pos count) }
    {
        self.state = self
            .state
            .wrapping_mul(1_664_525)
            .wrapping_add(1_013_904_223);
        i32::from(least) + (self.state >> 16) as i32 % i32::from(count)
    }

    /// A complex number whose parts are from `-most` to `most`.
    pub fn entry(&mut self, most: u16) -> Entry
        requires { most ≤ 2048 }
        ensures { IsEntryWithin most result }
    {
        let least = -(most as i16);
        let count = 2 * most + 1;
        Entry {
            re: self.next(least, count) as i16,
            im: self.next(least, count) as i16,
        }
    }

    /// A rectangle with sides of 1 to `most` pixels that begins at most `most` pixels from a place on each side.
    pub fn rect(&mut self, near: Pix, most: u8) -> Rect
        requires near { IsPixWithin 1015808 near }
        requires some { 0 < most }
        ensures ordered { IsOrdered result }
        ensures within { IsRectWithin 1016319 result }
    {
        let across = self.span(near.x, most);
        let up = self.span(near.y, most);
        Rect {
            x0: across.from,
            y0: up.from,
            x1: across.to,
            y1: up.to,
        }
    }

    /// One side of such a rectangle.
    fn span(&mut self, near: i32, most: u8) -> Span
        requires near { unsigned_abs near ≤ 1015808 }
        requires some { 0 < most }
        ensures ordered { result.from ≤ℤ result.to }
        ensures from { unsigned_abs result.from ≤ 1016319 }
        ensures to { unsigned_abs result.to ≤ 1016319 }
    {
        let from = near + self.next(-i16::from(most), 2 * u16::from(most) + 1);
        let to = from + self.next(1, u16::from(most));
        Span { from, to }
    }

    /// A kernel of a weight of 1 to 9, whose entries have parts up to `most`.
    fn kernel(&mut self, alloc: Global, reach: u16, most: u16) -> Result<Kernel, NoMemory>
        requires reach { reach ≤ 64 }
        requires most { most ≤ 2048 }
        ensures within { IfOk result (IsKernelWithin reach most) }
        ensures light { IfOk result (λ kernel. kernel.weight ≤ 9) }
    {
        let width = 2 * usize::from(reach) + 1;
        let mut entries = Vec::new(alloc);
        for _ in 0..width * width {
            entries.push(self.entry(most))?;
        }
        Ok(Kernel {
            weight: self.next(1, 9) as u16,
            entries: Entries::from_vec(entries),
        })
    }

    /// So many such kernels.
    fn kernels(
        &mut self,
        alloc: Global,
        reach: u16,
        count: u8,
        most: u16,
    ) -> Result<Kernels, NoMemory>
        requires reach { reach ≤ 64 }
        requires most { most ≤ 2048 }
        ensures count { IfOk result (λ kernels. length kernels ≡ count) }
        ensures weights { IfOk result (λ kernels. sum_by (λ k. k.weight) kernels ≤ 9 * count) }
        ensures within { IfOk result (λ kernels. All (IsKernelWithin reach most) kernels) }
    {
        let mut kernels = Vec::new(alloc);
        for _ in 0..count {
            kernels.push(self.kernel(alloc, reach, most)?)?;
        }
        Ok(Kernels::from_vec(kernels))
    }

    /// A set of so many kernels under two transmissions.
    pub fn set(&mut self, alloc: Global, reach: u16, count: u8) -> Result<KernelSet, NoMemory>
        requires reach { reach ≤ 64 }
        requires some { 1 ≤ count }
        requires few { count ≤ 16 }
        ensures { IfOk result KeepsTwoTransmissions }
    {
        let kernels = self.kernels(alloc, reach, count, 128)?;
        Ok(KernelSet {
            reach,
            covered: self.entry(8),
            uncovered: self.entry(8),
            kernels,
        })
    }

    /// A set of so many kernels under one transmission: light passes through covered pixels alone.
    pub fn dark_set(&mut self, alloc: Global, reach: u16, count: u8) -> Result<KernelSet, NoMemory>
        requires reach { reach ≤ 64 }
        requires some { 1 ≤ count }
        requires few { count ≤ 16 }
        ensures { IfOk result KeepsOneTransmission }
    {
        Ok(KernelSet {
            reach,
            covered: Entry { re: 1, im: 0 },
            uncovered: Entry { re: 0, im: 0 },
            kernels: self.kernels(alloc, reach, count, 2048)?,
        })
    }
}
