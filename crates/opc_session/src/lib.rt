//! A correction as it stands: how far each fragment of a target has moved, and what each of its samples sees of the mask.
//!
//! The amplitudes of all samples are stored tile by tile. A move changes them by the one rectangle that it sweeps, in the
//! tiles that this reaches, and a round by all that its moves sweep, in parts that run side by side.
//!
//! ```text
//! let mut session = Session::open(rt, alloc, &fragments, &region, &tables, &weights, &rules)?;
//! let summary = session.round(rt, &NoWatch, &mut steps);
//! let answer = session.move_one(i, 2, &mut steps);
//! let region = session.mask()?;
//! ```
//!
//! Contracts see a session as its fragments, kernels, rules and offsets: no definition of a move or a round knows of sums,
//! tiles or workers. The clauses that matter: `error`, `intensity` and `sums` are what the plain pixel sum gives for the
//! mask at these offsets, which `mask` answers; and `move_one`, `move_list` and `round` are the moves and the round of
//! `specs/Moves` and `specs/Rounds`, whose laws in `proofs/UniqueLaws` say that these decide what comes of them.
#![tactic(auto)]

mod laws;
mod lists;
mod moving;
mod opening;
mod outline;
mod readings;
mod rounds;
mod scene;
mod session;
mod steps;
mod stores;

pub use laws::tiles_and_workers_change_nothing;
pub use rounds::totals_of;
pub use session::Session;
