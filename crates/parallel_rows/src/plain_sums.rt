//! What the plain pixel sum gives for swept rectangles.

ghost use Rattle.std.specs.Prelude.{◌<◌, Contains, length};
ghost use Rattle.opc_base.specs.Optics.{KeepsBounds};
ghost use Rattle.opc_base.specs.Plane.{IsPixWithin};
ghost use Rattle.parallel_rows.specs.Scenes.{IsScene};

use crate::scene::{SAMPLES, Scene};
use opc_base::{Kernel, KernelSet, Pix, Swept};
use plain_optics::{Amplitude, plain_amplitude};

/// Whether all samples of all fragments hold what the plain pixel sum gives.
pub fn all_are_plain(scene: &Scene, list: &[Swept], sums: &[i64]) -> bool
    requires scene { IsScene scene.now }
{
    for i in 0..scene.fragments.count() {
        if !are_plain(scene, list, sums, i) {
            return false;
        }
    }
    true
}

/// The sum over the list of sign times what the plain pixel sum gives for the rectangle alone.
fn plain_change(set: &KernelSet, kernel: &Kernel, list: &[Swept], at: Pix) -> Amplitude
    requires bounds { KeepsBounds set.now }
    requires kernel { Contains set.now.kernels kernel.now }
    requires at { IsPixWithin 1048576 at }
{
    let mut re = 0i64;
    let mut im = 0i64;
    for one in list {
        let part = plain_amplitude(set, kernel, &[one.rect], at);
        let sign = i64::from(one.sign);
        re = re.wrapping_add(sign.wrapping_mul(part.re));
        im = im.wrapping_add(sign.wrapping_mul(part.im));
    }
    Amplitude { re, im }
}

/// Whether the two lanes of the `k`-th sample of fragment `i`, from the innermost on, hold what the plain pixel sum gives.
fn is_plain(scene: &Scene, list: &[Swept], sums: &[i64], i: u32, k: u8) -> bool
    requires scene { IsScene scene.now }
    requires fragment { i < length scene.now.fragments }
    requires sample { k < 4 }
{
    let at = scene.fragments.site(i, i32::from(k) - SAMPLES);
    let kernel = &scene.set.kernels.as_slice()[0];
    let want = plain_change(&scene.set, kernel, list, at);
    let sample = 4 * scene.index.place(i) as usize + usize::from(k);
    sums.get(2 * sample) == Some(&want.re) && sums.get(2 * sample + 1) == Some(&want.im)
}

/// Whether all samples of fragment `i` hold that.
fn are_plain(scene: &Scene, list: &[Swept], sums: &[i64], i: u32) -> bool
    requires scene { IsScene scene.now }
    requires fragment { i < length scene.now.fragments }
{
    for k in 0..4u8 {
        if !is_plain(scene, list, sums, i, k) {
            return false;
        }
    }
    true
}
