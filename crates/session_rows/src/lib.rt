//! Worked examples of the session, as tests: moves one by one, lists of moves and rounds, each with the numbers that were
//! found by hand or by the plain pixel sum.
//!
//! `scene` makes targets with all that a session is opened with, and `play` plays a session of one. `plain` compares what
//! is stored with the plain pixel sum, and `reach` counts the tiles that moves reach.
#![tactic(auto)]

pub mod plain;
pub mod play;
pub mod reach;
#[cfg(test)]
mod rows;
pub mod scene;
#[cfg(test)]
mod seeded_rows;
#[cfg(test)]
mod table;
#[cfg(test)]
mod watch_rows;
