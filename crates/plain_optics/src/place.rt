//! What one place of a kernel gives.

ghost use Rattle.std.specs.Prelude.{◌≡◌, ◌+◌, ◌*◌, ◌^◌, ◌<◌, ◌≤◌, unsigned_abs, length, Contains};
ghost use Rattle.opc_base.specs.Plane.{IsPixWithin, cover};
ghost use Rattle.opc_base.specs.Optics.{IsEntryWithin, KeepsBounds, entry_at, passes, product_im, product_re};
ghost use Rattle.opc_base.specs.Blocks.{place_at};
ghost use Rattle.plain_optics.specs.Places.{ArePartsWithin, place_im, place_re};

use crate::amplitude::Amplitude;
use opc_base::{Entry, Kernel, KernelSet, Pix, Rect};

/// What the kernel's place gives: its entry times what the mask lets through at the pixel that it sees.
pub fn place_amplitude(
    kernels: &KernelSet,
    kernel: &Kernel,
    rects: &[Rect],
    at: Pix,
    column: usize,
    row: usize,
) -> Amplitude
    requires bounds { KeepsBounds kernels.now }
    requires kernel { Contains kernels.now.kernels kernel.now }
    requires at { IsPixWithin 1048576 at }
    requires column { column < 2 * kernels.now.reach + 1 }
    requires row { row < 2 * kernels.now.reach + 1 }
    ensures re { result.re ≡ place_re kernels.now kernel.now (cover rects.now) at.x at.y (place_at kernels.now.reach column) (place_at kernels.now.reach row) }
    ensures im { result.im ≡ place_im kernels.now kernel.now (cover rects.now) at.x at.y (place_at kernels.now.reach column) (place_at kernels.now.reach row) }
    ensures small { ArePartsWithin 2048 result.re result.im }
{
    let u = column as i32 - i32::from(kernels.reach);
    let v = row as i32 - i32::from(kernels.reach);
    let entry = entry(kernels, kernel, column, row);
    let passed = passed(kernels, rects, at.x - u, at.y - v);
    product(entry, passed)
}

/// An entry of a kernel of the set.
fn entry(kernels: &KernelSet, kernel: &Kernel, column: usize, row: usize) -> Entry
    requires bounds { KeepsBounds kernels.now }
    requires kernel { Contains kernels.now.kernels kernel.now }
    requires column { column < 2 * kernels.now.reach + 1 }
    requires row { row < 2 * kernels.now.reach + 1 }
    ensures { result ≡ entry_at kernels.now.reach kernel.now.entries (place_at kernels.now.reach column) (place_at kernels.now.reach row) }
{
    kernel.entries.as_slice()[row * width(kernels) + column]
}

/// The number of entries in a row of a kernel, and of rows.
pub fn width(kernels: &KernelSet) -> usize
    ensures { result ≡ 2 * kernels.now.reach + 1 }
{
    2 * usize::from(kernels.reach) + 1
}

/// What the mask lets through at a pixel.
fn passed(kernels: &KernelSet, rects: &[Rect], x: i32, y: i32) -> Entry
    ensures { result ≡ passes kernels.now (cover rects.now) x y }
{
    if covers(rects, x, y) {
        kernels.covered
    } else {
        kernels.uncovered
    }
}

/// Whether some rectangle covers the pixel.
fn covers(rects: &[Rect], x: i32, y: i32) -> bool
    ensures { result ≡ cover rects.now x y }
{
    rects
        .iter()
        .any(|r| r.x0 <= x && x < r.x1 && r.y0 <= y && y < r.y1)
}

/// The product of two complex numbers.
fn product(a: Entry, b: Entry) -> Amplitude
    ensures re { result.re ≡ product_re a b }
    ensures im { result.im ≡ product_im a b }
{
    Amplitude {
        re: a.times_re(b),
        im: a.times_im(b),
    }
}
