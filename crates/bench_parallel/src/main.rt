//! Work for a measurement of the parallel phase.
//!
//! The words are a number of workers and a count of squares. The edges of so many squares are cut into fragments, each of
//! which sweeps what a move outward by one pixel adds to the mask, and so many workers add all of that to the sums of all
//! fragments: 8 kernels of reach 40, and 8 samples to a side. Where the workers are 0, nothing is added. The line that is
//! printed depends on all sums. `bench/parallel.py` takes the times.
#![tactic(auto)]

mod layout;
mod sums;

use std::env;
use std::env::Env;
use std::process::ExitCode;

/// How many workers there are where no word says it.
const TWO: u32 = 2;

/// How many squares there are where no word says it.
const FEW: u32 = 4;

fn main(rt: HostRuntime) -> ExitCode {
    let workers = number_word(&rt, 1, TWO);
    let count = number_word(&rt, 2, FEW);
    let Ok(sum) = sums::sum_of_squares(&rt, rt.alloc(), workers, count) else {
        return ExitCode::FAILURE;
    };
    match println!(rt; "{sum}") {
        Ok(()) => ExitCode::SUCCESS,
        Err(_) => ExitCode::FAILURE,
    }
}

/// The number that the word at this place says, the program's own name being at 0.
fn number_word<R: Env + AllocGlobal>(rt: &R, place: usize, otherwise: u32) -> u32 {
    match word(rt, place) {
        Some(word) => word.parse().unwrap_or(otherwise),
        None => otherwise,
    }
}

fn word<R: Env + AllocGlobal>(rt: &R, place: usize) -> Option<String> {
    match env::args(rt) {
        Ok(all) => all.skip(place).next(),
        Err(_) => None,
    }
}
