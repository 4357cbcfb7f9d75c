//! Runs of a row.

/// The numbers from `first` up to but not including `past`.
#[derive(Clone, Copy, Debug, PartialEq, Eq)]
pub struct Run {
    pub first: i32,
    pub past: i32,
}
