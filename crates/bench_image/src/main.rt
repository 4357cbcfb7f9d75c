//! Work for a measurement of the printed image.
//!
//! The words are a number of workers, the side of a tile, a count of squares of ten pixels and a number of rows. A window of
//! 2,048 columns and so many rows is printed, with 8 kernels of reach 40, over so many squares; where the workers are 0,
//! nothing is printed. The line that is printed depends on all rectangles. `bench/image.py` takes the times.
#![tactic(auto)]

mod image;

use std::env;
use std::env::Env;
use std::process::ExitCode;

fn main(rt: HostRuntime) -> ExitCode {
    let words = image::Words {
        workers: number_word(&rt, 1, 2),
        side: number_word(&rt, 2, 64),
        squares: number_word(&rt, 3, 4),
        rows: number_word(&rt, 4, 64),
    };
    let Ok(sum) = image::sum_of_places(&rt, rt.alloc(), &words) else {
        return ExitCode::FAILURE;
    };
    match println!(rt; "{sum}") {
        Ok(()) => ExitCode::SUCCESS,
        Err(_) => ExitCode::FAILURE,
    }
}

/// The number that the word at this place says, the program's own name being at 0.
fn number_word<R: Env + AllocGlobal>(rt: &R, place: usize, otherwise: u32) -> u32 {
    match word(rt, place) {
        Some(word) => word.parse().unwrap_or(otherwise),
        None => otherwise,
    }
}

fn word<R: Env + AllocGlobal>(rt: &R, place: usize) -> Option<String> {
    match env::args(rt) {
        Ok(all) => all.skip(place).next(),
        Err(_) => None,
    }
}
