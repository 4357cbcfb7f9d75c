//! Where the error of a fragment is measured.
ghost use Rattle.std.specs.Prelude.{◌≡◌, ◌≤ℤ◌, pos, negsuc, if◌then◌else◌, int_lt};
ghost use Rattle.outline_model.specs.Outline.{middle_of, sample_place, site_of};
ghost use Rattle.outline_model.specs.Ranges.{IsInLayout, IsWithin};

use opc_base::{Pix, Side};
use outline_model::{Fragment, is_vertical};

/// The pixel of sample `t`.
pub fn site_of(fragment: &Fragment, t: i32) -> Pix
    requires edge { IsInLayout fragment.now.edge }
    requires lo { IsInLayout fragment.now.lo }
    requires hi { IsInLayout fragment.now.hi }
    requires ordered { fragment.now.lo ≤ℤ fragment.now.hi }
    requires low { negsuc 15 ≤ℤ t }
    requires high { t ≤ℤ pos 15 }
    ensures site { result ≡ site_of fragment.now t }
    ensures x_within { IsWithin 1048016 result.x }
    ensures y_within { IsWithin 1048016 result.y }
{
    let along = middle_of(fragment);
    let across = sample_place(fragment.side, fragment.edge, t);
    if is_vertical(fragment.side) {
        Pix {
            x: across,
            y: along,
        }
    } else {
        Pix {
            x: along,
            y: across,
        }
    }
}

/// Half way along the fragment on the target, rounded toward its low end.
fn middle_of(fragment: &Fragment) -> i32
    requires lo { IsInLayout fragment.now.lo }
    requires hi { IsInLayout fragment.now.hi }
    requires ordered { fragment.now.lo ≤ℤ fragment.now.hi }
    ensures middle { result ≡ middle_of fragment.now }
    ensures within { IsInLayout result }
{
    let half = (fragment.hi - fragment.lo).unsigned_abs() / 2;
    fragment.lo + half as i32
}

/// Where sample `t` lies across an edge.
fn sample_place(side: Side, edge: i32, t: i32) -> i32
    requires edge { IsInLayout edge }
    requires low { negsuc 15 ≤ℤ t }
    requires high { t ≤ℤ pos 15 }
    ensures place { result ≡ sample_place side edge t }
    ensures within { IsWithin 1048016 result }
{
    match side {
        Side::Left | Side::Down => edge - 1 - t,
        Side::Right | Side::Up => edge + t,
    }
}

/// 1 for a move outward, and -1 for a move inward.
pub fn sign_of(from: i32, to: i32) -> i8
    ensures { result ≡ (if int_lt from to then pos 1 else negsuc 0) }
{
    if from < to { 1 } else { -1 }
}
