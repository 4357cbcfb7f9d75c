//! The reader of GDSII layouts (Stream Format Manual 6.0): a library, or the first fault in file order.
//!
//! The records of a file are followed by a state machine, one record after another:
//!
//! ```text
//! bytes ─ next_record ─ judge: kind, state, body, name ─ take: head, structures, the open element ─ advance
//!                        └ the record's fault              └ want of memory
//! ```
//!
//! `State` says where a reader stands in the grammar; `Progress` adds what else a record is judged by; `Draft` holds the
//! library so far, and `OpenElement` what the records of one element have said, until ENDEL closes it.
//!
//! ```text
//! let library = read_library(alloc, bytes)?;
//! let top = library.number_of(&name);
//! for i in 0..library.count() {
//!     let structure = library.structure(i);
//!     ..
//! }
//! ```
#![tactic(auto)]

mod body;
mod codes;
mod draft;
mod library;
mod name_numbers;
mod names;
mod numbers;
mod open_element;
mod progress;
mod reader;
#[cfg(test)]
mod record_tests;
#[cfg(test)]
mod samples;
mod state;
#[cfg(test)]
mod tests;

pub use crate::library::Library;
pub use crate::reader::read_library;
pub use gds_model::{
    Element, Elements, Grid, LayoutFault, Points, RecordKind, Reference, Shape, ShapeKind,
    Structure,
};
