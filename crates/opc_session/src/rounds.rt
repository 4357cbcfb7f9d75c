//! Rounds.

ghost use Rattle.std.specs.Prelude.{◌≡◌, ℕ, ◌+◌, ◌<◌, ◌≤◌, pos, if◌then◌else◌, length, slice_index_or, take, unsigned_abs};
ghost use Rattle.std.specs.Ordering.{int_eq};
ghost use Rattle.opc_session.specs.Errors.{greatest_size, sum_of_sizes};
ghost use Rattle.opc_session.specs.Kept.{AreLegal, Stands};
ghost use Rattle.opc_session.specs.Moves.{offset_at};
ghost use Rattle.opc_session.specs.Rounds.{TakeSteps, changes};
ghost use Rattle.opc_session.specs.Scenes.{AreSweeps, RoundMade, StepTaken, StepsMade};

use crate::readings::find_errors;
use crate::scene::Scene;
use crate::steps::{legal_step, take_offset};
use crate::stores::{know_tiles, store_all};
use mover::wish;
use opc_base::{RoundSummary, Steps, Swept, Totals, Watch};
use std::sync::ledger::Ledger;
use std::thread::Threads;

/// The greatest size and the sum of the sizes of these errors.
pub fn totals_of(errors: &[i32]) -> Totals
    requires few { length errors.now ≤ 32768 }
    requires small { (i : ℕ) → i < length errors.now → unsigned_abs (slice_index_or errors.now i (pos 0)) ≤ 256 }
    ensures worst { result.worst ≡ pos (greatest_size (λ i. slice_index_or errors.now i (pos 0)) (length errors.now)) }
    ensures total { result.total ≡ pos (sum_of_sizes (λ i. slice_index_or errors.now i (pos 0)) (length errors.now)) }
{
    let mut worst = 0;
    let mut total = 0;
    for i in 0..errors.len() {
        let size = errors[i].unsigned_abs();
        worst = size.max(worst);
        total += u64::from(size);
    }
    Totals {
        worst: worst as i32,
        total: total as i64,
    }
}

/// Fragment `i` takes the legal step of its wish for this error. What it sweeps stands after the first `kept` sweeps then;
/// the answer is how many there are.
fn take_step(
    scene: &Scene,
    error: i32,
    offsets: &mut [i32],
    i: u32,
    swept: &mut [Swept],
    kept: usize,
) -> usize
    requires fragment { i < length scene.now.fragments }
    requires error { unsigned_abs error ≤ 256 }
    requires legal { AreLegal scene.now.rules.mask scene.now.fragments offsets.old }
    requires room { kept < length swept.old }
    ensures legal { AreLegal scene.now.rules.mask scene.now.fragments offsets.new }
    ensures taken { StepTaken scene.now error i offsets.old offsets.new (take kept swept.old) (take result swept.new) }
    ensures count { result ≡ kept + (if int_eq (offset_at offsets.new i) (offset_at offsets.old i) then 0 else 1) }
{
    let from = offsets[i as usize];
    let wanted = wish(error, from, &scene.rules.mover);
    let step = legal_step(scene, offsets, i, wanted);
    take_offset(scene, offsets, i, from + step, swept, kept)
}

/// Each fragment in turn takes the legal step of its wish for its error. What they sweep stands first among the sweeps
/// then; the answer is how many there are.
fn take_steps(scene: &Scene, errors: &[i32], offsets: &mut [i32], swept: &mut [Swept]) -> usize
    requires errors { length errors.now ≡ length scene.now.fragments }
    requires small { (i : ℕ) → i < length errors.now → unsigned_abs (slice_index_or errors.now i (pos 0)) ≤ 256 }
    requires legal { AreLegal scene.now.rules.mask scene.now.fragments offsets.old }
    requires room { length swept.old ≡ length scene.now.fragments }
    ensures legal { AreLegal scene.now.rules.mask scene.now.fragments offsets.new }
    ensures sweeps { AreSweeps scene.now.fragments scene.now.set offsets.old offsets.new (take result swept.new) }
    ensures taken { TakeSteps scene.now.rules.mask scene.now.rules.mover scene.now.fragments (λ i. slice_index_or errors.now i (pos 0)) offsets.old (length scene.now.fragments) offsets.new (take result swept.new) }
    ensures count { result ≡ changes offsets.old offsets.new (length scene.now.fragments) }
    ensures few { result ≤ length swept.new }
{
    let mut kept = 0;
    for i in 0..scene.fragments.count() {
        kept = take_step(scene, errors[i as usize], offsets, i, swept, kept);
    }
    kept
}

/// Makes the steps of a round for errors that are given: finds all steps in order, and then adds all that they sweep to the
/// sums. The answer is how many fragments moved.
pub fn make_steps<R: Threads + Sync, W: Watch + Sync, L: Ledger>(
    rt: &R,
    scene: &Scene,
    errors: &[i32],
    offsets: &mut [i32],
    sums: &mut [i64],
    swept: &mut [Swept],
    watch: &W,
    steps: &mut Steps<L>,
) -> u32
    requires errors { length errors.now ≡ length scene.now.fragments }
    requires small { (i : ℕ) → i < length errors.now → unsigned_abs (slice_index_or errors.now i (pos 0)) ≤ 256 }
    requires stands { Stands scene.now offsets.old sums.old }
    requires swept_room { length swept.old ≡ length scene.now.fragments }
    ensures stands { Stands scene.now offsets.new sums.new }
    ensures made { StepsMade scene.now (λ i. slice_index_or errors.now i (pos 0)) offsets.old offsets.new result steps.old steps.new }
{
    know_tiles(scene);
    let kept = take_steps(scene, errors, offsets, swept);
    store_all(rt, scene, sums, &swept[..kept], watch, steps);
    kept as u32
}

/// Makes a round: finds all errors, and makes the steps for them.
pub fn make_round<R: Threads + Sync, W: Watch + Sync, L: Ledger>(
    rt: &R,
    scene: &Scene,
    offsets: &mut [i32],
    sums: &mut [i64],
    errors: &mut [i32],
    swept: &mut [Swept],
    watch: &W,
    steps: &mut Steps<L>,
) -> RoundSummary
    requires stands { Stands scene.now offsets.old sums.old }
    requires room { length errors.old ≡ length scene.now.fragments }
    requires swept_room { length swept.old ≡ length scene.now.fragments }
    ensures stands { Stands scene.now offsets.new sums.new }
    ensures made { RoundMade scene.now offsets.old offsets.new result steps.old steps.new }
{
    know_tiles(scene);
    find_errors(rt, scene, sums, errors);
    let totals = totals_of(errors);
    let moved = make_steps(rt, scene, errors, offsets, sums, swept, watch, steps);
    RoundSummary {
        worst: totals.worst,
        total: totals.total,
        moved,
    }
}
