//! Worked examples of scatter bars, as tests, with bars that were found by hand; and random layouts, of which the bars are
//! compared with those of a plain judge that looks at each pair.
#![tactic(auto)]

pub mod plain;
#[cfg(test)]
mod rows;
pub mod scene;
#[cfg(test)]
mod seeded_rows;
