//! The plain pixel sum, pixel by pixel: amplitudes and intensities in the plainest order.
//!
//! It is slow, and as near to the definition as a program can be. Faster bodies are compared with it.
//!
//! ```text
//! let intensity = plain_intensity(&kernels, &[Rect { x0: 0, y0: 0, x1: 10, y1: 10 }], Pix { x: 5, y: 5 });
//! ```
//!
//! Its contract: the result is the definition `intensity` of the pixels that the rectangles cover, for kernels within
//! the bounds of a kernel file.
#![tactic(auto)]

mod amplitude;
mod intensity;
mod place;
#[cfg(test)]
mod tests;

pub use amplitude::{Amplitude, plain_amplitude};
pub use intensity::plain_intensity;
