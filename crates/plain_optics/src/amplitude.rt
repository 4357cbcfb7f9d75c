//! Amplitudes, place by place.

ghost use Rattle.std.specs.Prelude.{◌≡◌, ◌+◌, ◌*◌, ◌^◌, ◌<◌, ◌≤◌, unsigned_abs, length, Contains};
ghost use Rattle.opc_base.specs.Plane.{IsPixWithin, cover};
ghost use Rattle.opc_base.specs.Optics.{KeepsBounds, amplitude_im, amplitude_re};
ghost use Rattle.opc_base.specs.Blocks.{place_at};
ghost use Rattle.plain_optics.specs.Places.{ArePartsWithin, row_im, row_re};

use crate::place::{place_amplitude, width};
use opc_base::{Kernel, KernelSet, Pix, Rect};

/// What the coherent system of one kernel gives at a pixel: a complex number.
#[derive(Clone, Copy, Debug, PartialEq, Eq)]
pub struct Amplitude {
    pub re: i64,
    pub im: i64,
}

/// The amplitude of a kernel of the set at a pixel, for the mask whose covered pixels are those of the rectangles.
///
/// The rectangles may overlap, and lie anywhere. It takes no memory.
pub fn plain_amplitude(kernels: &KernelSet, kernel: &Kernel, rects: &[Rect], at: Pix) -> Amplitude
    requires bounds { KeepsBounds kernels.now }
    requires kernel { Contains kernels.now.kernels kernel.now }
    requires at { IsPixWithin 1048576 at }
    ensures re { result.re ≡ amplitude_re kernels.now kernel.now (cover rects.now) at.x at.y }
    ensures im { result.im ≡ amplitude_im kernels.now kernel.now (cover rects.now) at.x at.y }
    ensures small { ArePartsWithin 34080768 result.re result.im }
{
    let mut re = 0;
    let mut im = 0;
    for row in 0..width(kernels) {
        let part = row_amplitude(kernels, kernel, rects, at, row);
        re += part.re;
        im += part.im;
    }
    Amplitude { re, im }
}

/// What a row of the kernel gives.
fn row_amplitude(
    kernels: &KernelSet,
    kernel: &Kernel,
    rects: &[Rect],
    at: Pix,
    row: usize,
) -> Amplitude
    requires bounds { KeepsBounds kernels.now }
    requires kernel { Contains kernels.now.kernels kernel.now }
    requires at { IsPixWithin 1048576 at }
    requires row { row < 2 * kernels.now.reach + 1 }
    ensures re { result.re ≡ row_re kernels.now kernel.now (cover rects.now) at.x at.y (place_at kernels.now.reach row) }
    ensures im { result.im ≡ row_im kernels.now kernel.now (cover rects.now) at.x at.y (place_at kernels.now.reach row) }
    ensures small { ArePartsWithin (129 * 2048) result.re result.im }
{
    let mut re = 0;
    let mut im = 0;
    for column in 0..width(kernels) {
        let part = place_amplitude(kernels, kernel, rects, at, column, row);
        re += part.re;
        im += part.im;
    }
    Amplitude { re, im }
}
