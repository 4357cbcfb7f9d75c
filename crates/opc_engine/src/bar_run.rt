//! A run of rounds in which only the fragments of the target move.
ghost use Rattle.std.specs.Prelude.{◌≡◌, ◌<◌, ◌≤◌, pos, if◌then◌else◌, IfOk, length, unsigned_abs};
ghost use Rattle.opc_session.specs.Sessions.{SessionValue, error_at};
ghost use Rattle.opc_engine.specs.BarReady.{CanAssist, HasBarRun, OwnErrors, bar_subject_of};
ghost use Rattle.opc_engine.specs.BarRuns.{own_error};
ghost use Rattle.opc_engine.specs.BarTable.{totals_by};
ghost use Rattle.opc_engine.specs.Runs.{Counted, is_settled_by, unmoved};
ghost use Rattle.opc_engine.specs.Standing.{IsOver};

use crate::bar_prepare::BarPrepared;
use error_table::put_round;
use opc_base::{Bytes, NoMemory, RoundSummary, RunRules, Steps, Totals, Watch};
use opc_session::{Session, totals_of};
use std::alloc::Global;
use std::sync::ledger::{Blank, Ledger};
use std::thread::Threads;

/// Makes rounds until the errors of the target's fragments are settled, or as many as the rules say were made; and gives
/// the lines of the rounds.
pub fn run_bars<R: Threads + Sync, W: Watch + Sync, L: Ledger>(
    rt: &R,
    alloc: Global,
    given: &BarPrepared,
    session: &mut Session<'_>,
    watch: &W,
    blank: Blank,
) -> Result<Bytes, NoMemory>
    requires ready { CanAssist given.now }
    requires over { IsOver given.now.whole session.old }
    requires unmoved { session.old.offsets ≡ unmoved (bar_subject_of given.now).whole }
    requires name { blank.name ≡ L.name }
    requires parts { blank.parts ≡ L.parts }
    requires some { 0 < blank.parts }
    ensures over { IsOver given.now.whole session.new }
    ensures run { IfOk result (HasBarRun given.now session.new) }
{
    let mut errors = vec![in alloc; 0; session.count() as usize]?;
    make_rounds::<R, W, L>(rt, alloc, given, session, &mut errors, watch, blank)
}

/// Makes the rounds, with this room for the errors. The steps are counted for no one.
fn make_rounds<R: Threads + Sync, W: Watch + Sync, L: Ledger>(
    rt: &R,
    alloc: Global,
    given: &BarPrepared,
    session: &mut Session<'_>,
    errors: &mut [i32],
    watch: &W,
    blank: Blank,
) -> Result<Bytes, NoMemory>
    requires ready { CanAssist given.now }
    requires over { IsOver given.now.whole session.old }
    requires unmoved { session.old.offsets ≡ unmoved (bar_subject_of given.now).whole }
    requires room { length errors.old ≡ length session.old.fragments }
    requires name { blank.name ≡ L.name }
    requires parts { blank.parts ≡ L.parts }
    requires some { 0 < blank.parts }
    ensures over { IsOver given.now.whole session.new }
    ensures run { IfOk result (HasBarRun given.now session.new) }
{
    let mut steps: Steps<L> = Steps::new(blank);
    let mut lines = Bytes::from_vec(Vec::new(alloc));
    for made in 0..given.whole.rules.run.rounds {
        let totals = find_totals(given, session, errors);
        if are_settled(&totals, &given.whole.rules.run) {
            return Ok(lines);
        }
        let moved = session.take_steps(rt, errors, watch, &mut steps);
        let summary = RoundSummary {
            worst: totals.worst,
            total: totals.total,
            moved,
        };
        put_round(alloc, &mut lines, made + 1, &summary)?;
    }
    Ok(lines)
}

/// Finds the errors of the target's fragments, and their greatest size and the sum of their sizes. A bar's fragment counts
/// as one without an error.
pub fn find_totals(given: &BarPrepared, session: &Session<'_>, errors: &mut [i32]) -> Totals
    requires ready { CanAssist given.now }
    requires over { IsOver given.now.whole session.now }
    requires room { length errors.old ≡ length session.now.fragments }
    ensures errors { OwnErrors given.now session.now errors.new }
    ensures totals { result ≡ totals_by (own_error (bar_subject_of given.now).target) session.now }
{
    find_errors(given, &given.own, session, errors);
    totals_of(errors)
}

/// Finds the errors of the fragments that are the target's own.
fn find_errors(given: &BarPrepared, own: &[bool], session: &Session<'_>, errors: &mut [i32])
    requires ready { CanAssist given.now }
    requires own { own.now ≡ given.now.own.items }
    requires over { IsOver given.now.whole session.now }
    requires room { length errors.old ≡ length session.now.fragments }
    ensures { OwnErrors given.now session.now errors.new }
{
    let _ = given;
    for i in 0..session.count() {
        errors[i as usize] = counted_error(session, own[i as usize], i);
    }
}

/// The error of a fragment, if it is the target's own.
fn counted_error(session: &Session<'_>, own: bool, i: u32) -> i32
    requires fragment { i < length session.now.fragments }
    ensures error { result ≡ (if own then error_at session.now i else pos 0) }
    ensures small { unsigned_abs result ≤ 256 }
{
    if own { session.error(i) } else { 0 }
}

/// Whether each error is at most `16 settle + 8` sixteenths of a pixel, which the greatest of them tells.
pub fn are_settled(totals: &Totals, rules: &RunRules) -> bool
    ensures { (error : Counted) (s : SessionValue) → s.rules.run ≡ rules.now → totals.now ≡ totals_by error s → result ≡ is_settled_by error s }
{
    totals.worst <= 16 * rules.settle + 8
}
