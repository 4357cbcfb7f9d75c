//! Work for a measurement of the session.
//!
//! The words are a count of squares, a number of workers, how many sessions are opened, and how many rounds and moves each
//! makes then. The four edges of each square are a fragment each, under 8 kernels of reach 40, with 8 samples to a side.
//! Where no session is opened, the squares are cut and the tables are built all the same. The line that is printed depends
//! on all errors and offsets. `bench/session.py` takes the times.
#![tactic(auto)]

mod work;

use std::env;
use std::env::Env;
use std::process::ExitCode;
use work::Work;

fn main(rt: HostRuntime) -> ExitCode {
    let work = Work {
        squares: number_word(&rt, 1, 4),
        workers: number_word(&rt, 2, 2),
        sessions: number_word(&rt, 3, 1),
        rounds: number_word(&rt, 4, 1),
        moves: number_word(&rt, 5, 8),
    };
    let Ok(sum) = work::sum_of_sessions(&rt, rt.alloc(), &work) else {
        return ExitCode::FAILURE;
    };
    match println!(rt; "{sum}") {
        Ok(()) => ExitCode::SUCCESS,
        Err(_) => ExitCode::FAILURE,
    }
}

/// The number that the word at this place says, the program's own name being at 0.
fn number_word<R: Env + AllocGlobal>(rt: &R, place: usize, otherwise: u32) -> u32 {
    match word(rt, place) {
        Some(word) => word.parse().unwrap_or(otherwise),
        None => otherwise,
    }
}

fn word<R: Env + AllocGlobal>(rt: &R, place: usize) -> Option<String> {
    match env::args(rt) {
        Ok(all) => all.skip(place).next(),
        Err(_) => None,
    }
}
