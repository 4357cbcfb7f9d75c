//! The pixels that placed outlines cover, as canonical rectangles.
//!
//! A sweep goes up the rows, counts how often each outline winds round the pixels of a row, and stacks the runs in which
//! some count is not 0. It costs its rows times the columns that are active in a row. A union first sweeps the rectangles
//! of all outlines at once, and gives up where that takes long. Then it goes in vertical strips from the left: what ends at
//! the right border of a strip is swept again with the next one. Where strips would take long too, each four outlines are
//! swept by themselves, and the disjoint rectangles that they cover stand for them; those are joined by fours in turn,
//! until few are left for one last sweep.
//!
//! A region of signed corners is cut into strips by moving the corners that lie outside of a strip to its nearer side. The
//! last sweep of a union stops as soon as more rectangles stand than a target may have corners, and a group of outlines that
//! cover too many rectangles is not joined.
#![tactic(auto)]

mod beside;
mod boxes;
mod columns;
mod corners;
mod cut;
mod join;
mod load;
mod merge;
mod once;
mod outlines;
mod quadrants;
mod rect_corners;
mod run;
mod runs;
mod spread;
mod stack;
mod strips;
mod sweep;
mod swept;
mod target;
mod windings;

pub use corners::region_of;
pub use rect_corners::{first_touch, push_corners};
pub use run::Run;
pub use runs::RunBuilder;
pub use stack::{Growing, add_slab};
pub use target::{UnionFault, union};

#[cfg(test)]
mod tests;
