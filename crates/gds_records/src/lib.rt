//! The records of a GDSII stream file (Stream Format Manual 6.0, "Record Description").
//!
//! A file is a list of records. A record is a two-byte length that counts its own four header bytes,
//! a record type, a data type and a body:
//!
//! ```text
//! 00 06  00 02  02 58        HEADER, two-byte signed numbers, 600
//! ```
//!
//! All numbers stand with the high byte first. `next_record` says what stands at an offset of a file,
//! `point_at` reads a point of the body of an XY record, and `put_record` appends a record:
//!
//! ```text
//! match next_record(bytes, at) {
//!     Next::Record(record) => at += 4 + record.body.len(),
//!     Next::End => ..
//!     Next::Cut { offset } => ..
//!     Next::BadLength { offset } => ..
//! }
//! ```
#![tactic(auto)]

mod library_head;
mod points;
mod reading;
mod real;
#[cfg(test)]
mod real_tests;
#[cfg(test)]
mod tests;
mod writing;

pub use crate::library_head::Head;
pub use crate::points::{Point, point_at};
pub use crate::reading::{Next, Record, next_record};
pub use crate::real::{is_one, quarter_turns};
pub use crate::writing::put_record;
