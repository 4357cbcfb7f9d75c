//! What all layers of `opc` speak of: pixels and sets of pixels, kernels and the image that they give.
//!
//! The plane is divided into pixels: pixel (x, y) is the unit square from (x, y) to (x + 1, y + 1). A mask is a set of
//! covered pixels, which contracts see as a test. The image of a mask is the sum of coherent systems (Cobb 1998): each
//! kernel sums what the mask passes over its window, and the intensity is the weighted sum of the powers of these sums.
//!
//! The outside is a trait, `Host`: files by name, a place to say things, and faults that are counted.
//!
//! The definitions stand in `specs/`, in this order:
//!
//! - `Sums`: sums of integers;
//! - `Plane`, `Corners`, `Runs`, `Canonical`: sets of pixels and what a move does to one, their signed corners, their
//!   canonical rectangles;
//! - `Cover`, `Target`: what placed shapes cover;
//! - `Optics`, `Blocks`, `Lanes`: the plain pixel sum, sums over blocks of a window, and the lanes of a set of kernels;
//! - `Changes`: numbers of a slice that rise, each by what its place gives;
//! - `Ranges`, `Rules`: ranges of numbers and names, and rules that are equal but for a part;
//! - `Outside`, `Memory`, `Calm`: what a host holds, tells and counts, and the hosts in memory.
#![tactic(auto)]

mod broken;
mod bytes;
mod calm_host;
mod fault;
mod file_map;
mod host;
mod kernels;
mod mem_host;
mod moves;
mod name;
mod outline;
mod pixes;
mod plane;
mod product;
mod rects;
mod region;
mod rules;
mod shared;
mod steps;
mod text;
mod watch;

pub use broken::{Broken, Place, RuleName};
pub use bytes::Bytes;
pub use calm_host::CalmHost;
pub use fault::{HostFault, LoadFault, NoMemory};
pub use host::{Host, MAX_LOAD};
pub use kernels::{Entries, Entry, Kernel, KernelSet, Kernels};
pub use mem_host::{Fail, MemHost};
pub use moves::{Move, Moved, RoundSummary, Swept, Totals};
pub use name::Name;
pub use outline::{Outline, Placed};
pub use pixes::Pixes;
pub use plane::{Corner, Pix, Rect, Side};
pub use rects::Rects;
pub use region::Region;
pub use rules::{CutRules, MaskRules, MoveRules, OutPick, Pick, Rules, RunRules, SiteRules};
pub use steps::Steps;
pub use text::Text;
pub use watch::{NoWatch, Watch};
