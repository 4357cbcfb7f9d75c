//! What is not proved: that levels are right, and so spare the search from each structure.

use crate::falls::{lowest_not_falling, never_rises};
use crate::levels::levels_of;
use std::alloc::{AllocError, Global};
use std::process::Abort;

/// 0 references 1; 1 and 2 each other; 2 references 3, which references itself; nothing reaches 4.
#[test]
fn gives_one_level_to_those_that_reach_one_another(rt: HostRuntime) -> Result<(), AllocError> {
    let alloc = rt.alloc();
    let rows: [&[usize]; 5] = [&[1], &[2], &[1, 3], &[3], &[0]];
    let mut graph = Vec::new(alloc);
    for row in rows {
        graph.push(row.to_vec(alloc)?)?;
    }
    let levels = levels_of(alloc, &graph, 0)?;
    assert_eq!(rt; levels.as_slice(), &[2, 1, 1, 0, 0][..]);
    Ok(())
}

/// As many structures as a file may have.
const MOST: usize = 65_535;

/// A chain of all structures, in which those from `first` on are rings of so many: the last of a ring references its first.
fn chain_with_rings(
    alloc: Global,
    first: usize,
    size: usize,
) -> Result<Vec<Vec<usize>>, AllocError> {
    let mut graph = Vec::new(alloc);
    for structure in 0..MOST {
        let mut row = Vec::new(alloc);
        if structure + 1 < MOST {
            row.push(structure + 1)?;
        }
        let place = (structure + 1).saturating_sub(first);
        if place > 0 && place % size.max(1) == 0 {
            row.push((structure + 1).saturating_sub(size))?;
        }
        graph.push(row)?;
    }
    Ok(graph)
}

/// The lowest structure on a cycle is told by the levels of such a chain, which pass the check that spares the search.
fn check(
    rt: &impl Abort,
    alloc: Global,
    first: usize,
    size: usize,
    lowest: Option<usize>,
) -> Result<(), AllocError> {
    let graph = chain_with_rings(alloc, first, size)?;
    let levels = levels_of(alloc, &graph, 0)?;
    let marks = vec![in alloc; true; graph.len()]?;
    assert!(rt; never_rises(&graph, &marks, &levels), "{first} {size}");
    assert_eq!(rt;
        lowest_not_falling(&graph, &marks, &levels),
        lowest,
        "{first} {size}"
    );
    Ok(())
}

/// A chain, one ring of all, rings of three and of one, and a ring at the end of a chain.
#[test]
fn levels_tell_the_lowest_of_many(rt: HostRuntime) -> Result<(), AllocError> {
    let alloc = rt.alloc();
    check(&rt, alloc, MOST, 1, None)?;
    check(&rt, alloc, 0, MOST, Some(0))?;
    check(&rt, alloc, 0, 3, Some(0))?;
    check(&rt, alloc, 7, 1, Some(7))?;
    check(&rt, alloc, 60_000, 5535, Some(60_000))?;
    Ok(())
}
