//! Worked examples of the geometry of masks, as tests: shapes and their union, fragments and moves, the mask rules, and
//! the mask file, each by direct calls of the layer.
//!
//! `shapes` makes regions of polygons and rectangles. `moving` holds a target's fragments with offsets that keep all
//! rules, and judges moves. `plain_rules` judges a whole outline pixel by pixel, and is what `first_broken` is compared
//! with. Each other module has the rows of one subject, with numbers that were found by hand.
#![tactic(auto)]

#[cfg(test)]
mod cover_rows;
pub mod dice;
pub mod fault;
#[cfg(test)]
mod fragment_rows;
#[cfg(test)]
mod judge_rows;
#[cfg(test)]
mod mask_rows;
#[cfg(test)]
mod move_rows;
pub mod moving;
pub mod outline_walk;
pub mod plain_rules;
#[cfg(test)]
mod region_rows;
#[cfg(test)]
mod rows;
pub mod shapes;
#[cfg(test)]
mod union_rows;
pub mod written;
