//! Masks as polygons, by `polygons` beside `correct`.

use crate::drawing::{Drawing, Point};
use crate::files::{ONES, kernel_of};
use crate::hosts::{no_files, none};
use crate::outputs::POLYGONS;
use crate::runs::words_of_line;
use opc_base::{Bytes, Host, MemHost, NoWatch};
use opc_cli::opc_run;
use std::alloc::Global;
use std::process::Abort;
use std::test::Fail;
use std::thread::Threads;

/// The rules of a target of one layer, up to the rounds.
const RULES: &str =
    "top = \"TOP\"\nlayer = 1\ndatatype = 0\ngrid = 1\nthreshold = 37\nsamples = 2\npiece = 100\ncorner_out = 5\ncorner_in = 5\nline_end = 10\ngain_num = 1\ngain_den = 1\nmax_step = 4\nmax_in = 8\nmax_out = 16\nsettle = 0\nwidth = 2\nspace = 2\ntile = 16\nworkers = 1\nout_layer = 1\nout_datatype = 0\nout_name = \"MASK\"\n";

/// The layout with these polygons, under this name of four letters.
fn layout_of(alloc: Global, name: &[u8; 4], polygons: &[&[Point]]) -> Result<Vec<u8>, Fail> {
    let mut drawing = Drawing::new(alloc)?;
    for points in polygons {
        drawing.boundary(points)?;
    }
    let mut bytes = drawing.end()?;
    if bytes.len() >= 98 {
        bytes[94..98].copy_from_slice(name);
    }
    Ok(bytes)
}

/// The bytes of a file, or none where it isn't there.
fn bytes_of(file: Option<&Bytes>) -> &[u8] {
    match file {
        Some(bytes) => bytes.as_slice(),
        None => &[],
    }
}

/// `polygons` stores this mask file for these polygons after so many rounds, and says what `correct` says; both store one
/// table.
fn check<R: Threads + Abort + Sync>(
    rt: &R,
    alloc: Global,
    polygons: &[&[Point]],
    rounds: u8,
    mask: &[&[Point]],
) -> Result<(), Fail> {
    let mut host = MemHost::new(alloc, no_files(alloc), none(alloc))?;
    host.store(alloc, "layout", &layout_of(alloc, b"TOP\0", polygons)?)?;
    host.store(alloc, "kernels", &kernel_of(alloc, &ONES)?)?;
    let rules = format!(in alloc; "{RULES}rounds = {rounds}\n")?;
    host.store(alloc, "rules", rules.as_bytes())?;
    let words = words_of_line(alloc, "correct layout kernels rules old old_table")?;
    let status = opc_run(rt, alloc, &words, &mut host, &NoWatch);
    assert_eq!(rt; status, 0);
    let line = host.said().to_vec(alloc)?;
    let words = words_of_line(alloc, POLYGONS)?;
    let status = opc_run(rt, alloc, &words, &mut host, &NoWatch);
    assert_eq!(rt; status, 0);
    assert_eq!(rt;
        host.said(),
        [line.as_slice(), line.as_slice()].concat(alloc)?.as_slice()
    );
    assert_eq!(rt;
        bytes_of(host.file("table")),
        bytes_of(host.file("old_table"))
    );
    assert_eq!(rt;
        bytes_of(host.file("mask")),
        layout_of(alloc, b"MASK", mask)?.as_slice()
    );
    Ok(())
}

#[test]
fn the_square_of_one_round(rt: HostRuntime) -> Result<(), Fail> {
    let square = [(0, 0), (10, 0), (10, 10), (0, 10), (0, 0)];
    let mask = [(-1, -1), (11, -1), (11, 11), (-1, 11), (-1, -1)];
    check(&rt, rt.alloc(), &[&square], 4, &[&mask])
}

// Two bars that overlap, and a polygon that walks round a frame and through it to its hole.
#[test]
fn bars_and_a_frame(rt: HostRuntime) -> Result<(), Fail> {
    let low = [(0, 0), (10, 0), (10, 4), (0, 4), (0, 0)];
    let high = [(5, 2), (12, 2), (12, 8), (5, 8), (5, 2)];
    let frame = [
        (20, 0),
        (30, 0),
        (30, 10),
        (20, 10),
        (20, 5),
        (23, 5),
        (23, 7),
        (27, 7),
        (27, 3),
        (23, 3),
        (23, 5),
        (20, 5),
        (20, 0),
    ];
    let bars = [
        (0, 0),
        (10, 0),
        (10, 2),
        (12, 2),
        (12, 8),
        (5, 8),
        (5, 4),
        (0, 4),
        (0, 0),
    ];
    let seamed = [
        (20, 0),
        (30, 0),
        (30, 10),
        (20, 10),
        (20, 3),
        (23, 3),
        (23, 7),
        (27, 7),
        (27, 3),
        (23, 3),
        (20, 3),
        (20, 0),
    ];
    check(
        &rt,
        rt.alloc(),
        &[&low, &high, &frame],
        0,
        &[&bars, &seamed],
    )
}
