//! What is added to the sums of one fragment.

ghost use Rattle.std.specs.Prelude.{◌≡◌, ℕ, false, ◌+◌, ◌*◌, ◌/◌, ◌%◌, ◌^◌, ◌<◌, ◌≤◌, pos, ◌≤ℤ◌, length};
ghost use Rattle.opc_base.specs.Changes.{RisesBy};
ghost use Rattle.opc_base.specs.Lanes.{lane_count, rect_change};
ghost use Rattle.opc_base.specs.Plane.{IsPixWithin};
ghost use Rattle.lane_intensity.specs.Differences.{AreLanes};
ghost use Rattle.tiles.specs.Meets.{meet};
ghost use Rattle.opc_parallel.specs.Stored.{sample_at, sample_change, stride_of};
ghost use Rattle.opc_parallel.specs.Conditions.{IsReady, IsSweepable, IsUnseen, setting_of, window_of};

use crate::work::Work;
use lane_intensity::add_rect;
use opc_base::{Pix, Rect, Steps, Swept};
use prefix_tables::Tables;
use std::sync::ledger::Ledger;
use tiles::meet;

/// How many numbers are stored for a fragment.
pub fn stride(work: &Work) -> usize
    requires { work.now.samples ≤ 16 }
    ensures stride { result ≡ stride_of (setting_of work.now) }
    ensures few { result ≤ 1024 }
{
    2 * work.samples as usize * work.tables.lanes()
}

/// Adds a rectangle to a fragment if some sample of it may see it. To any other fragment it adds nothing.
pub fn add_if_near<L: Ledger>(
    work: &Work,
    swept: Swept,
    number: u32,
    sums: &mut [i64],
    steps: &mut Steps<L>,
)
    requires ready { IsReady (setting_of work.now) }
    requires swept { IsSweepable swept }
    requires number { number < length work.now.fragments.now }
    requires sums { AreLanes (stride_of (setting_of work.now)) (2 ^ 62) sums.old }
    ensures rises { RisesBy (λ n. sample_change (setting_of work.now) swept number (n / lane_count work.now.tables.now) (n % lane_count work.now.tables.now)) 0 sums.old sums.new }
    ensures cost { steps.new ≤ steps.old + 8 * work.now.samples }
{
    let at = work.fragments.site(number, -1);
    if sees(work.tables.reach() + work.samples as i32, at, &swept.rect) {
        add_to_fragment(work, swept, number, sums, steps);
    }
}

/// Adds a rectangle to the samples of a fragment, from the first that sees it up to the last that does.
fn add_to_fragment<L: Ledger>(
    work: &Work,
    swept: Swept,
    number: u32,
    sums: &mut [i64],
    steps: &mut Steps<L>,
)
    requires ready { IsReady (setting_of work.now) }
    requires swept { IsSweepable swept }
    requires number { number < length work.now.fragments.now }
    requires sums { AreLanes (stride_of (setting_of work.now)) (2 ^ 62) sums.old }
    ensures rises { RisesBy (λ n. sample_change (setting_of work.now) swept number (n / lane_count work.now.tables.now) (n % lane_count work.now.tables.now)) 0 sums.old sums.new }
    ensures cost { steps.new ≤ steps.old + 8 * work.now.samples }
{
    let lanes = work.tables.lanes();
    let first = first_seeing(work, number, &swept.rect);
    let end = end_of_seeing(work, number, &swept.rect, first);
    for sample in first..end {
        let at = sample_site(work, number, sample);
        let start = sample as usize * lanes;
        let own = &mut sums[start..start + lanes];
        add_to_sample(own, work.tables, at, swept, steps);
    }
}

/// Adds a rectangle to the lanes of a pixel.
#[inline]
fn add_to_sample<L: Ledger>(
    acc: &mut [i64],
    tables: &Tables,
    at: Pix,
    swept: Swept,
    steps: &mut Steps<L>,
)
    requires lanes { AreLanes (lane_count tables.now) (2 ^ 62) acc.old }
    requires swept { IsSweepable swept }
    requires at { IsPixWithin 1048100 at }
    ensures rises { RisesBy (rect_change tables.now swept.rect swept.sign at.x at.y) 0 acc.old acc.new }
    ensures cost { steps.new ≤ steps.old + 4 }
{
    add_rect(acc, tables, at, swept.rect, swept.sign, steps);
}

/// The first sample of a fragment that sees a rectangle, or the number of all samples.
fn first_seeing(work: &Work, number: u32, rect: &Rect) -> u32
    requires ready { IsReady (setting_of work.now) }
    requires number { number < length work.now.fragments.now }
    ensures within { result ≤ 2 * work.now.samples }
    ensures before { (k : ℕ) → k < result → IsUnseen (setting_of work.now) number k rect.now }
{
    let mut first = 0;
    while first < 2 * work.samples && !sample_sees(work, number, first, rect) {
        first += 1;
    }
    first
}

/// The sample after the last one from `first` on that sees a rectangle, or `first`.
fn end_of_seeing(work: &Work, number: u32, rect: &Rect, first: u32) -> u32
    requires ready { IsReady (setting_of work.now) }
    requires number { number < length work.now.fragments.now }
    requires first { first ≤ 2 * work.now.samples }
    ensures order { first ≤ result }
    ensures within { result ≤ 2 * work.now.samples }
    ensures after { (k : ℕ) → result ≤ k → k < 2 * work.now.samples → IsUnseen (setting_of work.now) number k rect.now }
{
    let mut end = 2 * work.samples;
    while end > first && !sample_sees(work, number, end - 1, rect) {
        end -= 1;
    }
    end
}

/// Whether a sample of a fragment sees a rectangle. The innermost sample is number 0.
#[inline]
fn sample_sees(work: &Work, number: u32, sample: u32, rect: &Rect) -> bool
    requires ready { IsReady (setting_of work.now) }
    requires number { number < length work.now.fragments.now }
    requires sample { sample < 2 * work.now.samples }
    ensures unseen { result ≡ false → IsUnseen (setting_of work.now) number sample rect.now }
{
    sees(work.tables.reach(), sample_site(work, number, sample), rect)
}

/// The pixel of a sample of a fragment. The innermost sample is number 0.
#[inline]
fn sample_site(work: &Work, number: u32, sample: u32) -> Pix
    requires ready { IsReady (setting_of work.now) }
    requires number { number < length work.now.fragments.now }
    requires sample { sample < 2 * work.now.samples }
    ensures site { result ≡ sample_at (setting_of work.now) number sample }
    ensures within { IsPixWithin 1048100 result }
{
    work.fragments
        .site(number, sample as i32 - work.samples as i32)
}

/// Whether the rectangle has a pixel no further than this from a pixel, in x and in y.
#[inline]
fn sees(reach: i32, at: Pix, rect: &Rect) -> bool
    requires reach { (pos 0 ≤ℤ reach) × (reach ≤ℤ pos 80) }
    requires at { IsPixWithin 1048100 at }
    ensures { result ≡ meet (window_of reach at) rect.now }
{
    let window = Rect {
        x0: at.x - reach,
        y0: at.y - reach,
        x1: at.x + reach + 1,
        y1: at.y + reach + 1,
    };
    meet(&window, rect)
}
