//! The mask file: a stream file (Stream Format Manual 6.0) with one structure, which has a BOUNDARY for each canonical
//! rectangle of the mask.
//!
//! ```text
//! HEADER BGNLIB LIBNAME UNITS              as in the layout
//!   BGNSTR STRNAME                         the dates of the layout, the name of the mask's structure
//!     BOUNDARY LAYER DATATYPE XY ENDEL     64 bytes for each rectangle
//!   ENDSTR
//! ENDLIB
//! ```
//!
//! A caller holds the head of the layout that it read, and the mask's region:
//!
//! ```text
//! let file = write_mask(alloc, library.head(), &mask, &rules.out, rules.pick.grid)?;
//! ```
//!
//! The clauses of `write_mask` say each byte (`file`, by `specs/MaskFile.antt`), that the file has exactly these records
//! (`records`), and that they are a sentence of the grammar, whose library has one structure with a BOUNDARY for each
//! rectangle (`library`, by `specs/MaskLibrary.antt`), that this structure covers exactly the region's pixels
//! (`expands`, by `specs/Expansion.antt`), and that nothing is wrong with it (`faultless`, by `specs/Faultless.antt`).
#![tactic(auto)]

mod boundary;
mod mask;
mod opening;
mod outlines;

pub use mask::write_mask;
pub use outlines::write_outlines;
