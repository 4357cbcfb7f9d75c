//! The commands of `opc` as functions of the bytes of their files.
//!
//! `correct` reads a layout, kernels and rules, moves the fragments of the target's edges in rounds, and answers the mask
//! file and the error table; `moves` moves them by hand, and `simulate` not at all. `specs/Corrections.antt` says what each
//! answers: the record `Corrects` has the whole promise of `correct`, and the order of refusals is read from `Prepares` in
//! `specs/Prepare.antt`, a line for each stage. `trial` corrects an input that it makes from a number. `prepare` gives what a
//! correction under several conditions begins with, each condition with its kernel file. `laws` says that files call for one
//! result at most, and that tiles and workers change none.
//!
//! `probe` reads a kernel file and a layout, and answers the intensity at one pixel of the target:
//!
//! ```text
//! let n = probe(alloc, &layout, &kernels, &Ask { top, layer: 1, datatype: 0, at: Pix { x: 5, y: 5 } })?;
//! ```
//!
//! Its stages, each a function that answers or refuses: the kernel set of the kernel file; the library of the layout; the
//! target, which is what the chosen shapes cover as the top structure places them; the image of the target at the pixel.
//!
//! Its clause `answer` says that this is the plain pixel sum over the set of pixels that the placed shapes cover; its
//! clause `refusal` says that any other answer is the first refusal of the files, or want of memory.
#![tactic(auto)]

mod answer;
mod ask;
mod assistance;
mod bar_key;
mod bar_prepare;
mod bar_print;
mod bar_run;
mod bar_table;
mod bar_written;
mod correction;
mod fault;
mod flaw_list;
mod hand_moves;
mod image;
mod kernels;
mod laws;
mod layout;
mod limits;
mod one_pixel;
mod polygon_mask;
mod prepared;
mod printing;
mod ready;
mod ready_target;
mod rules;
mod run;
mod sets;
mod simulation;
mod table;
mod target;
mod trial_cells;
mod trial_input;
mod trial_shapes;
mod trying;
mod window;
mod written;

pub use answer::Answer;
pub use ask::{Ask, Which};
pub use assistance::assist;
pub use bar_key::BarKey;
pub use correction::correct;
pub use fault::EngineFault;
pub use hand_moves::moves;
pub use laws::{answers_are_one, sharing_changes_nothing};
pub use limits::{MAX_KERNELS, MAX_LAYOUT, MAX_MOVES, MAX_RULES, MAX_WINDOW};
pub use one_pixel::probe;
pub use polygon_mask::polygons;
pub use prepared::{Prepared, prepare};
pub use printing::check;
pub use sets::Sets;
pub use simulation::simulate;
pub use trial_input::{TrialFiles, trial_files};
pub use trying::trial;
