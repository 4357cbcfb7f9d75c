//! Structures, and lists of their elements.
ghost use Rattle.std.specs.Prelude.{◌≡◌};

use crate::{Reference, Shape};
use opc_base::Name;
use std::marker::Model;

/// An element of a structure: a shape, or a reference to a structure. TEXT and NODE aren't kept.
#[derive(Debug, Drop)]
pub enum Element {
    Shape(Shape),
    Reference(Reference),
}

/// A list of elements, in file order.
#[derive(Debug, Drop)]
pub struct Elements {
    items: Vec<Element>,
}

impl Model for Elements {
    ghost use Rattle.std.specs.Prelude.{List};
    ghost use Rattle.gds_model.specs.declared.elements.Element.{Element};

    ghost Value = { List Element };

    ghost view = { λ l. l.items.items };
}

impl Elements {
    /// The elements of this list.
    pub fn from_vec(items: Vec<Element>) -> Self
        ensures list { result ≡ items.items }
    {
        Elements { items }
    }

    /// Lends the list.
    pub fn as_slice(&self) -> &[Element]
        ensures list { result.now ≡ self.now }
    {
        self.items.as_slice()
    }
}

/// A structure: its name, without trailing zero bytes, and its elements.
#[derive(Debug, Drop)]
pub struct Structure {
    pub name: Name,
    pub elements: Elements,
}
