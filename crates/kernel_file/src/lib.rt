//! Kernel files: the optics of an exposure as bytes, in two formats.
//!
//! A file is a head and then its kernels. All numbers have two bytes, the higher one first.
//!
//! ```text
//! OPK1 | count | reach |                                        kernels
//! OPK2 | count | reach | covered re im | uncovered re im |      kernels
//! kernel: weight | entry re im | entry re im | ..    rows v from -reach to reach, in each u from -reach to reach
//! ```
//!
//! The first format has a mask that is open where it is covered and dark elsewhere, the second one names what each lets
//! through. [`read_kernels`] answers the set that a file spells, `kernel_set` of its bytes, exactly where nothing is
//! wrong with it, and else its first fault, `kernel_fault`: both are functions of the bytes by their places, in `specs/`.
//!
//! ```rust
//! match read_kernels(alloc, bytes) {
//!     Ok(set) => use_set(&set),
//!     Err(KernelFault::BadEntry { offset }) => println!(rt; "kernels: bad entry at {offset}")?,
//!     Err(fault) => println!(rt; "kernels: {fault}")?,
//! }
//! ```
#![tactic(auto)]

mod fault;
mod format;
mod head;
mod kernels;
mod numbers;
mod read;
#[cfg(test)]
mod tests;

pub use fault::KernelFault;
pub use read::read_kernels;
