//! `trial`: the words, the line that it says, and that each number is answered, as `simulate` answers its files.
ghost use Rattle.std.specs.Prelude.{◌≤◌};

use crate::hosts::no_files;
use crate::outputs::{Found, SIMULATE, count_lines, outputs_of};
use crate::runs::{check_calm, words_of_line};
use opc_base::{CalmHost, NoMemory, NoWatch};
use opc_cli::opc_run;
use opc_engine::trial_files;
use std::alloc::Global;
use std::process::Abort;
use std::test::Fail;
use std::thread::Threads;

/// `trial` of each number from the first to the last ends with status 0 and says one line, which has its number and as many
/// fragments as `simulate` of its files lists.
fn check_trials<R: Threads + Abort + Sync>(
    rt: &R,
    alloc: Global,
    first: u32,
    last: u32,
) -> Result<(), Fail>
    requires some { 1 ≤ first }
    requires few { last ≤ 64 }
{
    for number in first..=last {
        let mut host = CalmHost::new(alloc, no_files(alloc))?;
        let line = format!(in alloc; "trial {number}")?;
        let words = words_of_line(alloc, &line)?;
        let status = opc_run(rt, alloc, &words, &mut host, &NoWatch);
        assert!(rt; status == 0, "{line}: {status}");
        let fragments = simulated(rt, alloc, number)?;
        let begin = format!(in alloc; "trial {number} fragments {fragments} rounds ")?;
        assert!(rt; count_lines(host.said(), begin.as_bytes()) == 1, "{line}");
    }
    Ok(())
}

/// How many fragments `simulate` lists of the files of a trial, which has this number.
fn simulated<R: Threads + Abort + Sync>(rt: &R, alloc: Global, number: u32) -> Result<usize, Fail>
    requires some { 1 ≤ number }
    requires few { number ≤ 64 }
{
    let files = trial_files(alloc, number)?;
    let found = Found {
        layout: files.layout.as_slice(),
        kernels: files.kernels.as_slice(),
        rules: files.rules.as_slice(),
        moves: b"",
    };
    let (_, table) = outputs_of(rt, alloc, SIMULATE, &found)?;
    Ok(count_lines(&table, b"fragment "))
}

#[test]
fn the_first_trial(rt: HostRuntime) -> Result<(), NoMemory> {
    let alloc = rt.alloc();
    let mut host = CalmHost::new(alloc, no_files(alloc))?;
    let words = words_of_line(alloc, "trial 1")?;
    let status = opc_run(&rt, alloc, &words, &mut host, &NoWatch);
    assert!(rt; status == 0);
    assert!(rt; host.said().starts_with(b"trial 1 fragments 44 rounds "));
    assert!(rt; count_lines(host.said(), b"trial ") == 1);
    Ok(())
}

#[test]
fn words_that_are_no_trial(rt: HostRuntime) -> Result<(), NoMemory> {
    let alloc = rt.alloc();
    for line in [
        "trial",
        "trial 0",
        "trial 65",
        "trial -1",
        "trial 1 1",
        "trial +1",
        "trial 1e1",
    ] {
        check_calm(&rt, alloc, line, (b"", b""), (2, "opc: words\n"))?;
    }
    Ok(())
}

#[test]
fn trials_up_to_45(rt: HostRuntime) -> Result<(), Fail> {
    check_trials(&rt, rt.alloc(), 1, 45)
}

#[test]
fn trials_up_to_64(rt: HostRuntime) -> Result<(), Fail> {
    check_trials(&rt, rt.alloc(), 46, 64)
}
