//! A correction of an input that is made from a number.
ghost use Rattle.std.specs.Prelude.{◌≡◌, ◌≤◌, ◌⊎◌, ◌++◌, Err, IfErr, IfOk, drop, length};
ghost use Rattle.opc_engine.specs.Prepare.{Prepares};
ghost use Rattle.opc_engine.specs.Ready.{CanOpen};
ghost use Rattle.opc_engine.specs.Trial.{Tries, trial_start};
ghost use Rattle.opc_engine.specs.TrialInput.{trial_kernels, trial_layout, trial_rules};
ghost use Rattle.opc_engine.specs.Wrapped.{HidesNoMemory};
ghost use Rattle.opc_engine.specs.Written.{IsTried};

use crate::correction::corrected;
use crate::ready::{Ready, ready_from};
use crate::trial_input::trial_files;
use crate::{Answer, EngineFault};
use opc_base::{Bytes, NoMemory, Watch};
use std::alloc::Global;
use std::thread::Threads;

/// What `correct` answers for the files of `trial_files`, with a line that says the number, how many fragments there are,
/// how many rounds were made, and what the table's last line says; n is from 1 to 64. No file of these is refused: tests
/// show it.
pub fn trial<R: Threads + Sync, W: Watch + Sync>(
    rt: &R,
    alloc: Global,
    n: u32,
    watch: &W,
) -> Result<Answer, EngineFault>
    requires some { 1 ≤ n }
    requires few { n ≤ 64 }
    ensures answer { IfOk result (Tries n) }
    ensures refusal { IfErr result (λ fault. (fault ≡ EngineFault.NoMemory)
        ⊎ Prepares (trial_layout n) trial_kernels trial_rules (Err fault)) }
    ensures memory { IfErr result (λ fault. ¬ HidesNoMemory fault) }
{
    let files = trial_files(alloc, n)?;
    let given = ready_from(
        alloc,
        files.layout.as_slice(),
        files.kernels.as_slice(),
        files.rules.as_slice(),
    )?;
    Ok(tried(rt, alloc, n, &given, watch)?)
}

/// The answer of `trial` for what is ready.
fn tried<R: Threads + Sync, W: Watch + Sync>(
    rt: &R,
    alloc: Global,
    n: u32,
    given: &Ready,
    watch: &W,
) -> Result<Answer, NoMemory>
    requires { CanOpen given.now }
    ensures { IfOk result (IsTried n given.now) }
{
    let correction = corrected(rt, alloc, given, watch)?;
    let count = given.fragments.count();
    let line = line_of(alloc, n, count, correction.rounds, &correction.answer.line)?;
    let Answer { mask, table, .. } = correction.answer;
    Ok(Answer { mask, table, line })
}

/// The line of `trial`: the last line of a table without its first word, after a start of its own.
fn line_of(
    alloc: Global,
    n: u32,
    fragments: u32,
    rounds: u32,
    last: &Bytes,
) -> Result<Bytes, NoMemory>
    requires { 4 ≤ length last.now }
    ensures { IfOk result (λ line. line ≡ trial_start n fragments rounds ++ drop 4 last.now) }
{
    let start = format!(in alloc; "trial {n} fragments {fragments} rounds {rounds} ")?;
    let mut line = Bytes::from_vec(start.into_bytes());
    line.append(&last.as_slice()[4..])?;
    Ok(line)
}
