//! A correction is the same whatever the tiles and the workers are.

use crate::outputs::{CORRECT, Found, count_lines, outputs_of};
use crate::rules::rules_of;
use crate::runs::are_same;
use opc_base::NoMemory;
use opc_engine::trial_files;
use std::alloc::Global;
use std::test::Fail;

/// The rules of a trial, with this side of a tile and this number of workers.
fn trial_rules<'a>(alloc: Global, tile: &'a str, workers: &'a str) -> Result<Vec<u8>, NoMemory> {
    let changes = [
        ("top", "\"TRIAL\""),
        ("threshold", "40000000"),
        ("samples", "6"),
        ("piece", "20"),
        ("corner_out", "10"),
        ("corner_in", "10"),
        ("line_end", "20"),
        ("max_step", "2"),
        ("max_in", "4"),
        ("max_out", "6"),
        ("width", "8"),
        ("space", "8"),
        ("tile", tile),
        ("workers", workers),
    ];
    rules_of(alloc, &changes)
}

#[test]
fn nine_pairs_of_tile_and_workers(rt: HostRuntime) -> Result<(), Fail> {
    let alloc = rt.alloc();
    let files = trial_files(alloc, 4)?;
    let rules = trial_rules(alloc, "64", "4")?;
    assert!(rt; are_same(files.rules.as_slice(), &rules));
    let found = Found {
        layout: files.layout.as_slice(),
        kernels: files.kernels.as_slice(),
        rules: &rules,
        moves: b"",
    };
    let (mask, table) = outputs_of(&rt, alloc, CORRECT, &found)?;
    // 44 a cell, and two more where the second cell's first bar is 89 high.
    assert!(rt; count_lines(&table, b"fragment ") == 178);
    for tile in ["16", "64", "4096"] {
        for workers in ["1", "2", "7"] {
            let rules = trial_rules(alloc, tile, workers)?;
            let found = Found {
                rules: &rules,
                ..found
            };
            let outputs = outputs_of(&rt, alloc, CORRECT, &found)?;
            assert!(rt; are_same(&outputs.0, &mask), "{tile} {workers}: mask");
            assert!(rt; are_same(&outputs.1, &table), "{tile} {workers}: table");
        }
    }
    Ok(())
}
