//! Adds rectangles to the lanes of a pixel, as many as the first word says, and prints a number that depends on the sums.
//!
//! `bench/add_rect.c` does the same and prints the same number, so that the two can be timed side by side: 16 kernels of
//! reach 64, and rectangles with sides of up to 100 pixels round the pixel, each added to the lanes of the ground. With
//! the word `set` both make these kernels alone, without tables, so that the time of the tables can be told from it.
#![tactic(auto)]

mod sums;

use opc_base::NoMemory;
use std::alloc::Global;
use std::env;
use std::env::Env;
use std::process::ExitCode;

/// How many rectangles are added where no word says it.
const FEW: u32 = 1000;

fn main(rt: HostRuntime) -> ExitCode {
    let Ok(number) = number_for(rt.alloc(), first_word(&rt)) else {
        return ExitCode::FAILURE;
    };
    match println!(rt; "{number}") {
        Ok(()) => ExitCode::SUCCESS,
        Err(_) => ExitCode::FAILURE,
    }
}

/// What the word asks for: an entry of the kernels, or the sum of so many sums.
fn number_for(alloc: Global, word: Option<String>) -> Result<i64, NoMemory> {
    match word {
        Some(word) if word.as_str() == "set" => sums::last_entry(alloc),
        Some(word) => sums::sum_of_sums(alloc, word.parse().unwrap_or(FEW)),
        None => sums::sum_of_sums(alloc, FEW),
    }
}

/// The first word after the program's own name.
fn first_word<R: Env + AllocGlobal>(rt: &R) -> Option<String> {
    match env::args(rt) {
        Ok(all) => all.skip(1).next(),
        Err(_) => None,
    }
}
