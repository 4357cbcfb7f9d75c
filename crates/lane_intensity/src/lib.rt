//! Adds what rectangles and corners of a mask give to the lanes of a pixel, and takes the intensity from them.
//!
//! A list of lanes has two numbers for each kernel of a set: the real part of an amplitude, and then its imaginary part.
//! A rectangle adds the difference of four blocks of the tables, and a corner its sign times one block (Cobb 1998). Eight
//! lanes go at a time, in a vector, and a plain loop takes the rest.
//!
//! ```text
//! acc.copy_from_slice(tables.ground());
//! add_corners(&mut acc, &tables, at, &corners, &mut steps);
//! let intensity = intensity(&acc, &weights);
//! ```
//!
//! The clauses that matter: `add_rect` adds to each lane what the rectangle's pixels give, in every position, and so takes
//! the amplitudes of a mask to those of the mask after a move; from the ground on, `add_corners` gives the amplitudes of
//! each set that the corners add up to; and `intensity` of amplitudes is the definition's intensity.
#![tactic(auto)]

mod corner_sums;
mod image;
mod rect_sums;

pub use corner_sums::add_corners;
pub use image::intensity;
pub use rect_sums::add_rect;
