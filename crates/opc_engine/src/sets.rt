//! Kernels for each of several conditions.
ghost use Rattle.std.specs.Prelude.{◌≡◌};

use opc_base::KernelSet;
use std::marker::Model;

/// The kernel sets of kernel files, in their order.
#[derive(Debug, Drop)]
pub struct Sets {
    items: Vec<KernelSet>,
}

impl Model for Sets {
    ghost use Rattle.std.specs.Prelude.{List};
    ghost use Rattle.opc_base.specs.declared.kernels.KernelSet.{KernelSet};

    ghost Value = { List KernelSet };

    ghost view = { λ s. s.items.items };
}

impl Sets {
    /// The sets of this list.
    pub fn from_vec(items: Vec<KernelSet>) -> Self
        ensures list { result ≡ items.items }
    {
        Sets { items }
    }

    /// Lends the list.
    pub fn as_slice(&self) -> &[KernelSet]
        ensures list { result.now ≡ self.now }
    {
        self.items.as_slice()
    }

    /// The list itself.
    pub fn into_vec(self) -> Vec<KernelSet>
        ensures list { result.items ≡ self }
    {
        self.items
    }
}
