//! Scatter bars: thin rectangles beside the long edges of a target, which change its image and are not to print.
//!
//! Each edge that is long enough proposes a bar that lies a gap outward of it, and leaves out some pixels at both of its
//! ends. The edges are taken in order, and a proposal is kept where it has the space of the mask rules all round: to the
//! target, and to the bars that were kept before. So the target with its bars keeps the rules that the target keeps.
//!
//! ```text
//! let bars = bars_of(alloc, &region, &fragments, &rules.mask, &bar_rules)?;
//! let both = with_bars(alloc, &region, &bars)?;
//! let own = own_fragments(alloc, &region, &cut(alloc, &both, &rules.cut)?)?; // the fragments that are no bar's
//! ```
#![tactic(auto)]

mod bar_rules;
mod bars;
mod boxes;
mod own;
mod proposal;
mod union;

pub use bar_rules::BarRules;
pub use bars::bars_of;
pub use own::own_fragments;
pub use union::with_bars;

#[cfg(test)]
mod tests;
