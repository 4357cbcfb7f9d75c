//! Runs of commands that store files, over hosts in memory.
ghost use Rattle.std.specs.Prelude.{◌==◌, map};
ghost use Rattle.std.specs.List.{IsDistinct};

use crate::hosts::{no_files, none};
use crate::runs::{are_same, words_of_line};
use opc_base::{Bytes, Fail, Host, HostFault, MemHost, NoMemory, NoWatch};
use opc_cli::opc_run;
use std::alloc::Global;
use std::process::Abort;
use std::test;
use std::thread::Threads;

/// What the commands are asked for in the rows.
pub const SIMULATE: &str = "simulate layout kernels rules table";

pub const CORRECT: &str = "correct layout kernels rules mask table";

pub const MOVES: &str = "moves layout kernels rules moves mask table";

pub const CHECK: &str = "check layout kernels rules mask table";

pub const POLYGONS: &str = "polygons layout kernels rules mask table";

pub const ASSIST: &str = "assist layout kernels rules mask table 4 2 1 10";

/// One condition twice.
pub const WINDOW: &str = "window layout rules mask table kernels 37 1 kernels 37 1";

/// The files that a run finds.
#[derive(Clone, Copy)]
pub struct Found<'a> {
    pub layout: &'a [u8],
    pub kernels: &'a [u8],
    pub rules: &'a [u8],
    pub moves: &'a [u8],
}

/// The calls of the host that are made before a run, to store what it finds.
pub const BEFORE: u32 = 6;

/// What stands under the names of the outputs before a run.
pub const OLD: &[u8] = b"old";

/// Stores what a run finds, by six calls.
pub fn fill<H: Host>(alloc: Global, host: &mut H, found: &Found<'_>) -> Result<(), HostFault> {
    host.store(alloc, "layout", found.layout)?;
    host.store(alloc, "kernels", found.kernels)?;
    host.store(alloc, "rules", found.rules)?;
    host.store(alloc, "moves", found.moves)?;
    host.store(alloc, "mask", OLD)?;
    host.store(alloc, "table", OLD)
}

/// What a run leaves.
#[derive(Clone, Copy)]
pub struct Left<'a> {
    pub status: u8,
    pub mask: &'a [u8],
    pub table: &'a [u8],
    pub said: &'a [u8],
}

/// Whether a file has these bytes.
pub fn has_bytes(file: Option<&Bytes>, wanted: &[u8]) -> bool {
    match file {
        Some(bytes) => are_same(bytes.as_slice(), wanted),
        None => false,
    }
}

/// A host over these files, with the calls that fail; calls are counted with the six before the run.
pub fn host_over(alloc: Global, found: &Found<'_>, fails: Vec<Fail>) -> Result<MemHost, test::Fail>
    requires { IsDistinct (λ a b. a == b) (map (λ fail. fail.call) fails.items) }
{
    let mut host = MemHost::new(alloc, no_files(alloc), fails)?;
    fill(alloc, &mut host, found)?;
    Ok(host)
}

/// A run of this line over these files, in which these calls fail, leaves this.
pub fn check_left<R: Threads + Abort + Sync>(
    rt: &R,
    alloc: Global,
    line: &str,
    found: &Found<'_>,
    fails: Vec<Fail>,
    left: &Left<'_>,
) -> Result<(), test::Fail>
    requires { IsDistinct (λ a b. a == b) (map (λ fail. fail.call) fails.items) }
{
    let mut host = host_over(alloc, found, fails)?;
    let words = words_of_line(alloc, line)?;
    let status = opc_run(rt, alloc, &words, &mut host, &NoWatch);
    assert!(rt; status == left.status, "{line}: {status}");
    assert!(rt; are_same(host.said(), left.said), "{line}: said");
    assert!(rt; has_bytes(host.file("mask"), left.mask), "{line}: mask");
    assert!(rt; has_bytes(host.file("table"), left.table), "{line}: table");
    Ok(())
}

/// A run of this line over these files ends with this status and line, and stores nothing.
pub fn check_refused<R: Threads + Abort + Sync>(
    rt: &R,
    alloc: Global,
    line: &str,
    found: &Found<'_>,
    status: u8,
    said: &str,
) -> Result<(), test::Fail> {
    let left = Left {
        status,
        mask: OLD,
        table: OLD,
        said: said.as_bytes(),
    };
    check_left(rt, alloc, line, found, none(alloc), &left)
}

/// A run of this line over these files ends with status 0, stores this mask, and a table of these lines and this last one,
/// which it says.
pub fn check_answer<R: Threads + Abort + Sync>(
    rt: &R,
    alloc: Global,
    line: &str,
    found: &Found<'_>,
    mask: &[u8],
    lines: &str,
    last: &str,
) -> Result<(), test::Fail> {
    let table = format!(in alloc; "opc table 2\n{lines}{last}")?;
    let left = Left {
        status: 0,
        mask,
        table: table.as_bytes(),
        said: last.as_bytes(),
    };
    check_left(rt, alloc, line, found, none(alloc), &left)
}

/// How many lines of a text begin with this.
pub fn count_lines(text: &[u8], begin: &[u8]) -> usize {
    let mut count = 0usize;
    for line in text.split(|byte| *byte == b'\n') {
        if line.starts_with(begin) {
            count = count.saturating_add(1);
        }
    }
    count
}

/// The files that a run leaves under the names of mask and table, and what it said.
#[derive(Drop)]
pub struct Whole {
    pub mask: Vec<u8>,
    pub table: Vec<u8>,
    pub said: Vec<u8>,
}

/// What a run of this line leaves, after status 0.
pub fn whole_of<R: Threads + Abort + Sync>(
    rt: &R,
    alloc: Global,
    line: &str,
    found: &Found<'_>,
) -> Result<Whole, test::Fail> {
    let mut host = host_over(alloc, found, none(alloc))?;
    let words = words_of_line(alloc, line)?;
    let status = opc_run(rt, alloc, &words, &mut host, &NoWatch);
    assert!(rt; status == 0, "{line}: {status}");
    Ok(Whole {
        mask: bytes_of(alloc, host.file("mask"))?,
        table: bytes_of(alloc, host.file("table"))?,
        said: host.said().to_vec(alloc)?,
    })
}

/// The files that a run of this line leaves under the names of mask and table, after status 0.
pub fn outputs_of<R: Threads + Abort + Sync>(
    rt: &R,
    alloc: Global,
    line: &str,
    found: &Found<'_>,
) -> Result<(Vec<u8>, Vec<u8>), test::Fail> {
    let whole = whole_of(rt, alloc, line, found)?;
    Ok((whole.mask, whole.table))
}

/// A copy of a file, or nothing where there is none.
fn bytes_of(alloc: Global, file: Option<&Bytes>) -> Result<Vec<u8>, NoMemory> {
    match file {
        Some(bytes) => Ok(bytes.as_slice().to_vec(alloc)?),
        None => Ok(Vec::new(alloc)),
    }
}
