//! The flaws of all rows, or of all columns.

ghost use Rattle.std.specs.Prelude.{◌≡◌, ◌≤◌, ◌<◌, ℕ, true, ◌++◌, All, AllPairs, OnOk, length, get_or, ◌-ℤ◌, ◌<ℤ◌, int_lt};
ghost use Rattle.print_check.specs.LineFlaws.{IsRunWithin, begins_in, bridges, ends_before, flaw_of, flaws_at, line_flaws, has_run_at, one_if, pinches, reach_place};
ghost use Rattle.print_check.specs.LineRuns.{IsBefore};
ghost use Rattle.print_check.specs.declared.line_runs.LineRun.{LineRun};

use crate::flaw::{Flaw, FlawKind, Line};
use crate::line_runs::LineRun;
use std::alloc::AllocError;

/// Adds the flaws of these lines, in order.
pub fn push_line_flaws(
    found: &mut Vec<Flaw>,
    line: Line,
    targets: &[LineRun],
    printed: &[LineRun],
    width: i32,
) -> Result<(), AllocError>
    requires sorted { AllPairs IsBefore printed.now }
    requires near { All (IsRunWithin 1048576) printed.now }
    requires wide { All (λ r. r.first <ℤ r.past) printed.now }
    ensures { OnOk result (found.new.items ≡ found.old.items ++ line_flaws line targets.now width printed.now) }
{
    let mut next = 0;
    for run in printed {
        next = first_reaching(targets, next, *run);
        push_flaws(found, line, targets, next, *run, width)?;
    }
    Ok(())
}

/// The first place from `next` on whose run does not end before this one begins.
fn first_reaching(targets: &[LineRun], next: usize, run: LineRun) -> usize
    requires next { next ≤ length targets.now }
    requires passed { (k : ℕ) (d : LineRun) → k < next → ends_before (get_or targets.now k d) run ≡ true }
    ensures is { result ≡ reach_place targets.now run }
    ensures within { result ≤ length targets.now }
    ensures passed { (k : ℕ) (d : LineRun) → k < result → ends_before (get_or targets.now k d) run ≡ true }
{
    for place in next..targets.len() {
        if !ends_before(targets[place], run) {
            return place;
        }
    }
    targets.len()
}

/// Whether the first run ends before the second one begins.
fn ends_before(first: LineRun, second: LineRun) -> bool
    ensures { result ≡ ends_before first second }
{
    first.row < second.row || (first.row == second.row && first.past <= second.first)
}

/// Adds the flaws of a run, the pinch first. The target's run at `next` is the first that does not end before it.
fn push_flaws(
    found: &mut Vec<Flaw>,
    line: Line,
    targets: &[LineRun],
    next: usize,
    run: LineRun,
    width: i32,
) -> Result<(), AllocError>
    requires near { IsRunWithin 1048576 run }
    requires next { next ≤ length targets.now }
    ensures { OnOk result (found.new.items ≡ found.old.items ++ flaws_at line targets.now next width run) }
{
    let pinch = pinches(targets, next, width, run);
    let bridge = bridges(targets, next, run);
    push_if(found, pinch, flaw(FlawKind::Pinch, line, run))?;
    push_if(found, bridge, flaw(FlawKind::Bridge, line, run))?;
    Ok(())
}

/// Whether the run is too short and has a pixel of the target.
fn pinches(targets: &[LineRun], next: usize, width: i32, run: LineRun) -> bool
    requires { IsRunWithin 1048576 run }
    ensures { result ≡ pinches targets.now next width run }
{
    has_run_at(targets, next, run) && is_short(run, width)
}

/// Whether the run has fewer pixels than this.
fn is_short(run: LineRun, width: i32) -> bool
    requires { IsRunWithin 1048576 run }
    ensures { result ≡ int_lt (run.past -ℤ run.first) width }
{
    run.past - run.first < width
}

/// Whether the run has a pixel of the target, a later one outside it, and a still later one of it.
fn bridges(targets: &[LineRun], next: usize, run: LineRun) -> bool
    requires { next ≤ length targets.now }
    ensures { result ≡ bridges targets.now next run }
{
    has_run_at(targets, next, run) && has_run_at(targets, next + 1, run)
}

/// Adds the flaw, if it is one.
fn push_if(found: &mut Vec<Flaw>, is: bool, flaw: Flaw) -> Result<(), AllocError>
    ensures { OnOk result (found.new.items ≡ found.old.items ++ one_if is flaw) }
{
    if is {
        found.push(flaw)?;
    }
    Ok(())
}

/// Whether there is a target's run at this place, and it begins in the row of this run and before its end.
fn has_run_at(targets: &[LineRun], place: usize, run: LineRun) -> bool
    ensures { result ≡ has_run_at targets.now place run }
{
    place < targets.len() && begins_in(targets[place], run)
}

/// Whether the first run is in the row of the second one and begins before that ends.
fn begins_in(first: LineRun, second: LineRun) -> bool
    ensures { result ≡ begins_in first second }
{
    first.row == second.row && first.first < second.past
}

fn flaw(kind: FlawKind, line: Line, run: LineRun) -> Flaw
    ensures { result ≡ flaw_of kind line run }
{
    Flaw {
        kind,
        line,
        place: run.row,
        from: run.first,
        to: run.past,
    }
}
