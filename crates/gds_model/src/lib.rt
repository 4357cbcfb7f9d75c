//! What a GDSII stream file says: the definitions that the reader and the writer of layouts are proved against, and the
//! types in which they hold a layout (Stream Format Manual 6.0).
//!
//! The definitions stand in `specs/`, in this order:
//!
//! - `RecordKind`, `Body`: the records of the format, by their two code bytes, and the bodies that they may have;
//! - `Grammar`, `StreamFile`: what a grammar describes, and the grammar of a stream file. A sentence is the list of leaves
//!   of a parse tree; a leaf holds the offset and the body of its record;
//! - `Names`: the name in a body;
//! - `Faults`: what may be wrong at a record, and the first fault of a file in file order;
//! - `Elements`, `Library`: the library that a sentence describes;
//! - `Reach`: which structures the references of a library reach;
//! - `Placement`, `PlacedList`: where references place points, and the list of the shapes that a structure places;
//! - `PathRects`, `Outlines`: the rectangles of a path, and what a placed shape is in pixels;
//! - `PlaceFaults`: why a layer can't be expanded, in five stages.
//!
//! A layout is a list of structures in file order; a structure has elements, each a shape or a reference:
//!
//! ```text
//! match element {
//!     Element::Shape(shape) => .. shape.layer, shape.points.as_slice() ..
//!     Element::Reference(reference) => .. reference.name.as_slice() ..
//! }
//! ```
#![tactic(auto)]

mod elements;
mod layout_fault;
mod place_fault;
mod points;
mod position;
mod record_kind;
mod reference;
mod shape;

pub use elements::{Element, Elements, Structure};
pub use layout_fault::LayoutFault;
pub use place_fault::PlaceFault;
pub use points::Points;
pub use position::{Direction, DoubledRect, PathForm, Position};
pub use record_kind::RecordKind;
pub use reference::{Grid, Reference};
pub use shape::{Shape, ShapeKind};
