//! Worked examples of masks as polygons, as tests.
//!
//! `cases` is a table of masks with the points of their polygons, which a plain walk over pixels found
//! (`bench/polygon_cases.py`). Each mask's file is compared with these points byte by byte, and read again.
#![tactic(auto)]

#[cfg(test)]
mod cases;
pub mod files;
#[cfg(test)]
mod rows;
