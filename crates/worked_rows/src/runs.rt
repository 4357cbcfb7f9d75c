//! A run of the program over a host in memory.
ghost use Rattle.std.specs.Prelude.{◌==◌, map};
ghost use Rattle.std.specs.List.{IsDistinct};

use crate::hosts::{files_of, none};
use opc_base::{Fail, MemHost, NoMemory, NoWatch};
use opc_cli::opc_run;
use std::alloc::Global;
use std::process::Abort;
use std::thread::Threads;

/// The words of a line, which a blank parts.
pub fn words_of_line(alloc: Global, line: &str) -> Result<Vec<String>, NoMemory> {
    let mut words = Vec::new(alloc);
    for word in line.split(' ') {
        words.push(String::from_str(alloc, word)?)?;
    }
    Ok(words)
}

/// Whether two texts have the same bytes.
pub fn are_same(left: &[u8], right: &[u8]) -> bool {
    left == right
}

/// A run of this line over these files, in which these calls fail, ends with this status, and says this.
pub fn check<R: Threads + Abort + Sync>(
    rt: &R,
    alloc: Global,
    line: &str,
    files: (&[u8], &[u8]),
    fails: Vec<Fail>,
    wanted: (u8, &str),
) -> Result<(), NoMemory>
    requires { IsDistinct (λ a b. a == b) (map (λ fail. fail.call) fails.items) }
{
    let files = files_of(alloc, files.0, files.1)?;
    let mut host = MemHost::new(alloc, files, fails)?;
    let words = words_of_line(alloc, line)?;
    let status = opc_run(rt, alloc, &words, &mut host, &NoWatch);
    assert!(rt; status == wanted.0, "{line}: {status}");
    assert!(rt; are_same(host.said(), wanted.1.as_bytes()), "{line}");
    Ok(())
}

/// A run in which no call fails.
pub fn check_calm<R: Threads + Abort + Sync>(
    rt: &R,
    alloc: Global,
    line: &str,
    files: (&[u8], &[u8]),
    wanted: (u8, &str),
) -> Result<(), NoMemory> {
    check(rt, alloc, line, files, none(alloc), wanted)
}

/// A kernel file of one kernel of reach 0 and weight 1, whose one entry is 1.
const POINT: &[u8] = b"OPK1\x00\x01\x00\x00\x00\x01\x00\x01\x00\x00";

/// `probe` under the kernel of one entry says this at each pixel: 1 where it is covered, and else 0.
pub fn check_cover<R: Threads + Abort + Sync>(
    rt: &R,
    alloc: Global,
    layout: &[u8],
    rows: &[(i32, i32, u32)],
) -> Result<(), NoMemory> {
    for (x, y, intensity) in rows {
        let line = format!(in alloc; "probe layout kernels TOP 1 0 {x} {y}")?;
        let said = format!(in alloc; "intensity {intensity}\n")?;
        check_calm(rt, alloc, &line, (layout, POINT), (0, &said))?;
    }
    Ok(())
}

/// `probe` refuses the layout with this line.
pub fn check_refused<R: Threads + Abort + Sync>(
    rt: &R,
    alloc: Global,
    layout: &[u8],
    line: &str,
) -> Result<(), NoMemory> {
    let words = "probe layout kernels TOP 1 0 5 5";
    check_calm(rt, alloc, words, (layout, POINT), (5, line))
}
