//! Tests of printed images and of their flaws, over numbers from a seed.
//!
//! `print_rows` compares the printed pixels of windows with the plain pixel sum at each pixel; `flaw_rows` compares the
//! flaws of random sets with those that a plain judge finds, who looks at every pixel.
#![tactic(auto)]

#[cfg(test)]
mod flaw_rows;
#[cfg(test)]
mod plain_flaws;
#[cfg(test)]
mod print_rows;
