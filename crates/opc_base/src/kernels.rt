//! The kernels of a sum of coherent systems.
ghost use Rattle.std.specs.Prelude.{◌≡◌};

use std::marker::Model;

/// A complex number with whole parts: an entry of a kernel, or what a mask lets through.
#[derive(Clone, Copy, Debug, PartialEq, Eq)]
pub struct Entry {
    pub re: i16,
    pub im: i16,
}

/// The entries of a kernel, by rows from the lowest, each from the left.
#[derive(Debug, Drop)]
pub struct Entries {
    items: Vec<Entry>,
}

impl Model for Entries {
    ghost use Rattle.std.specs.Prelude.{List};
    ghost use Rattle.opc_base.specs.declared.kernels.Entry.{Entry};

    ghost Value = { List Entry };

    ghost view = { λ l. l.items.items };
}

impl Entries {
    /// The entries of this list.
    pub fn from_vec(items: Vec<Entry>) -> Self
        ensures list { result ≡ items.items }
    {
        Entries { items }
    }

    /// Lends the list.
    pub fn as_slice(&self) -> &[Entry]
        ensures list { result.now ≡ self.now }
    {
        self.items.as_slice()
    }
}

/// A coherent system (Cobb 1998): its weight in the sum, and its entries.
#[derive(Debug, Drop)]
pub struct Kernel {
    pub weight: u16,
    pub entries: Entries,
}

/// A list of kernels.
#[derive(Debug, Drop)]
pub struct Kernels {
    items: Vec<Kernel>,
}

impl Model for Kernels {
    ghost use Rattle.std.specs.Prelude.{List};
    ghost use Rattle.opc_base.specs.declared.kernels.Kernel.{Kernel};

    ghost Value = { List Kernel };

    ghost view = { λ l. l.items.items };
}

impl Kernels {
    /// The kernels of this list.
    pub fn from_vec(items: Vec<Kernel>) -> Self
        ensures list { result ≡ items.items }
    {
        Kernels { items }
    }

    /// Lends the list.
    pub fn as_slice(&self) -> &[Kernel]
        ensures list { result.now ≡ self.now }
    {
        self.items.as_slice()
    }
}

/// The optics: kernels whose entries reach so many pixels to each side, and what a covered and any other pixel of the
/// mask lets through.
#[derive(Debug, Drop)]
pub struct KernelSet {
    pub reach: u16,
    pub covered: Entry,
    pub uncovered: Entry,
    pub kernels: Kernels,
}
