//! Work for a measurement of the geometry of masks.
//!
//! The words are a layer and a count: `tower` makes a region of so many rectangles, `mask` writes its mask file and `tall`
//! the file of its polygons; `frames` unites so many sides of frames and `polygons` writes their polygons; `target` unites so
//! many squares and checks them, and `cut` cuts them into fragments too; `bars` finds the bars of so many squares, and `apart`
//! finds that they have none; `moves` judges so many moves of the fragments of 8,192 squares. Each prints a line with numbers
//! that are known beforehand. With no words a small piece of each is done, and the cut at its limit. `bench/geometry.py` takes
//! the times.
#![tactic(auto)]

mod fault;
mod layers;
mod layouts;

use fault::BenchFault;
use layers::{run, run_all};
use std::alloc::Global;
use std::env;

fn main(rt: HostRuntime) -> Result<(), BenchFault> {
    let mut words = Vec::new(rt.alloc());
    for word in env::args(&rt)?.skip(1) {
        words.push(word)?;
    }
    let line = match words.as_slice() {
        [layer, count] => run(rt.alloc(), layer.as_str(), number_of(count.as_str())?)?,
        _ => run_all(rt.alloc())?,
    };
    println!(rt; "{line}")?;
    Ok(())
}

fn number_of(word: &str) -> Result<u32, BenchFault> {
    match word.parse::<u32>() {
        Ok(number) => Ok(number),
        Err(_) => Err(BenchFault::Words),
    }
}
