//! Rule files and moves files.
//!
//! A rule file is a TOML document whose table has exactly the keys of `Key`, each a whole number in its range or a name. A
//! moves file is a list of lines: a fragment's number, a blank, and how far it is to move.
//!
//! ```
//! let rules = read_rules(alloc, bytes)?; // or the first fault: RuleFault::MissingKey { key: Key::Grid }
//! let moves = read_moves(alloc, b"1 2\n7 -1\n")?;
//! ```
#![tactic(auto)]

mod check;
mod fault;
mod key;
mod moves_text;
mod rules_text;
#[cfg(test)]
mod tests;
mod values;

pub use fault::{MoveFault, RuleFault};
pub use key::Key;
pub use moves_text::read_moves;
pub use rules_text::read_rules;
