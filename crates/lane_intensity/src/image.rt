//! Intensities from lanes.

ghost use Rattle.std.specs.Prelude.{◌≡◌, ℕ, ℤ, ◌+◌, ◌*◌, ◌<◌, ◌≤◌, ◌+ℤ◌, ◌*ℤ◌, length, unsigned_abs};
ghost use Rattle.opc_base.specs.Lanes.{LanesAre, amplitude_of_lane, weights_of};
ghost use Rattle.opc_base.specs.Optics.{intensity};
ghost use Rattle.opc_base.specs.Plane.{PixelSet};
ghost use Rattle.opc_base.specs.declared.kernels.KernelSet.{KernelSet};
ghost use Rattle.lane_intensity.specs.Differences.{AreLanes, AreSquares, IsLight, power_sum};

use std::simd::prelude::*;

/// The intensity of a list of lanes: the sum over the kernels of the weight times the power of the kernel's two lanes.
///
/// `acc` has two lanes for each weight. It takes no memory.
pub fn intensity(acc: &[i64], weights: &[i64]) -> i64
    requires lanes { AreLanes (2 * length weights.now) 34080768 acc.now }
    requires weights { IsLight weights.now }
    ensures value { result ≡ power_sum weights.now acc.now (length weights.now) }

    // for the amplitudes of a set of pixels under a set of kernels, the intensity at that pixel
    ensures image { (set : KernelSet) (pixels : PixelSet) (x y : ℤ) → weights.now ≡ weights_of set → LanesAre set (amplitude_of_lane set pixels x y) acc.now → result ≡ intensity set pixels x y }
{
    let mut sum = 0;
    let mut kernel = 0;
    while kernel + 4 <= weights.len() {
        sum = with_four(sum, acc, weights, kernel);
        kernel += 4;
    }
    while kernel < weights.len() {
        sum = with_one(sum, acc, weights, kernel);
        kernel += 1;
    }
    sum
}

/// The sum with what four more kernels add, whose eight lanes are squared in a vector.
#[inline]
fn with_four(sum: i64, acc: &[i64], weights: &[i64], kernel: usize) -> i64
    requires lanes { AreLanes (2 * length weights.now) 34080768 acc.now }
    requires weights { IsLight weights.now }
    requires kernel { kernel + 4 ≤ length weights.now }
    requires sum { sum ≡ power_sum weights.now acc.now kernel }
    ensures { result ≡ power_sum weights.now acc.now (kernel + 4) }
{
    let squares = squares_of(acc, 2 * kernel);
    let mut sum = sum;
    for next in 0..4 {
        sum += weighted(
            weights[kernel + next],
            squares[2 * next],
            squares[2 * next + 1],
        );
    }
    sum
}

/// The squares of eight lanes.
#[inline]
fn squares_of(acc: &[i64], lane: usize) -> [i64; 8]
    requires lane { lane + 8 ≤ length acc.now }
    requires lanes { AreLanes (length acc.now) 34080768 acc.now }
    ensures { AreSquares lane acc.now result }
{
    let lanes = i64x8::from_slice(&acc[lane..]);
    lanes.strict_mul(lanes).to_array()
}

/// The sum with what one more kernel adds.
#[inline]
fn with_one(sum: i64, acc: &[i64], weights: &[i64], kernel: usize) -> i64
    requires lanes { AreLanes (2 * length weights.now) 34080768 acc.now }
    requires weights { IsLight weights.now }
    requires kernel { kernel < length weights.now }
    requires sum { sum ≡ power_sum weights.now acc.now kernel }
    ensures { result ≡ power_sum weights.now acc.now (kernel + 1) }
{
    sum + weighted(
        weights[kernel],
        square(acc[2 * kernel]),
        square(acc[2 * kernel + 1]),
    )
}

/// The square of a lane.
#[inline]
fn square(lane: i64) -> i64
    requires { unsigned_abs lane ≤ 34080768 }
    ensures value { result ≡ lane *ℤ lane }
    ensures small { unsigned_abs result ≤ 34080768 * 34080768 }
{
    lane * lane
}

/// A weight times the power of two lanes, of which these are the squares.
#[inline]
fn weighted(weight: i64, re_square: i64, im_square: i64) -> i64
    requires weight { unsigned_abs weight ≤ 2048 }
    requires re { unsigned_abs re_square ≤ 34080768 * 34080768 }
    requires im { unsigned_abs im_square ≤ 34080768 * 34080768 }
    ensures { result ≡ weight *ℤ (re_square +ℤ im_square) }
{
    weight * (re_square + im_square)
}
