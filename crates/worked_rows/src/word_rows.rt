//! Words without a command.

use crate::hosts::no_files;
use crate::runs::{are_same, check_calm, words_of_line};
use opc_base::{CalmHost, NoMemory, NoWatch};
use opc_cli::opc_run;

#[test]
fn words_without_a_command(rt: HostRuntime) -> Result<(), NoMemory> {
    let wanted = (2, "opc: words\n");
    let alloc = rt.alloc();
    check_calm(&rt, alloc, "probe a b TOP 1 0 1 1e3", (&[], &[]), wanted)?;
    check_calm(&rt, alloc, "probe a b TOP 1 0 1", (&[], &[]), wanted)?;
    check_calm(&rt, alloc, "probe a b TOP 1 65536 1 1", (&[], &[]), wanted)?;
    check_calm(
        &rt,
        alloc,
        "probe a b TOP 1 0 1 -1048577",
        (&[], &[]),
        wanted,
    )?;
    check_calm(&rt, alloc, "probe a b  1 0 1 1", (&[], &[]), wanted)?;
    check_calm(&rt, alloc, "trial 0", (&[], &[]), wanted)?;
    check_calm(&rt, alloc, "correct a b c a t", (&[], &[]), wanted)
}

#[test]
fn no_words(rt: HostRuntime) -> Result<(), NoMemory> {
    let alloc = rt.alloc();
    let mut host = CalmHost::new(alloc, no_files(alloc))?;
    let status = opc_run(&rt, alloc, &[], &mut host, &NoWatch);
    assert_eq!(rt; status, 2);
    assert!(rt; are_same(host.said(), b"opc: words\n"));
    Ok(())
}

#[test]
fn a_file_that_is_missing(rt: HostRuntime) -> Result<(), NoMemory> {
    let alloc = rt.alloc();
    let mut host = CalmHost::new(alloc, no_files(alloc))?;
    let words = words_of_line(alloc, "probe layout kernels TOP 1 0 5 5")?;
    let status = opc_run(&rt, alloc, &words, &mut host, &NoWatch);
    assert_eq!(rt; status, 3);
    assert!(rt; are_same(host.said(), b"opc: cannot read layout\n"));
    Ok(())
}
