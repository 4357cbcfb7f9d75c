//! Intensities from amplitudes.

ghost use Rattle.std.specs.Prelude.{◌≡◌, ◌*◌, ◌≤◌, unsigned_abs};
ghost use Rattle.opc_base.specs.Plane.{IsPixWithin, cover};
ghost use Rattle.opc_base.specs.Optics.{KeepsBounds, intensity, weighted_power};
ghost use Rattle.plain_optics.specs.Places.{ArePartsWithin};

use crate::amplitude::{Amplitude, plain_amplitude};
use opc_base::{KernelSet, Pix, Rect};

/// The intensity at a pixel, for the mask whose covered pixels are those of the rectangles: the sum over the kernels of
/// the weight times the power of the amplitude (Cobb 1998).
///
/// The rectangles may overlap, and lie anywhere. It takes no memory.
pub fn plain_intensity(kernels: &KernelSet, rects: &[Rect], at: Pix) -> i64
    requires bounds { KeepsBounds kernels.now }
    requires at { IsPixWithin 1048576 at }
    ensures { result ≡ intensity kernels.now (cover rects.now) at.x at.y }
{
    let mut sum = 0;
    for kernel in kernels.kernels.as_slice() {
        sum += weighted_power(kernel.weight, plain_amplitude(kernels, kernel, rects, at));
    }
    sum
}

/// What one kernel adds to the intensity.
fn weighted_power(weight: u16, amplitude: Amplitude) -> i64
    requires weight { weight ≤ 2048 }
    requires small { ArePartsWithin 34080768 amplitude.re amplitude.im }
    ensures value { result ≡ weighted_power weight amplitude.re amplitude.im }
    ensures small { unsigned_abs result ≤ weight * (2 * 34080768 * 34080768) }
{
    let Amplitude { re, im } = amplitude;
    i64::from(weight) * (re * re + im * im)
}
