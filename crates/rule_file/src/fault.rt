//! What may be wrong with a rule file or a moves file.
ghost use Rattle.std.specs.Prelude.{◌≡◌};
ghost use Rattle.rule_file.specs.declared.fault.RuleFault.TheVariants as rules;
ghost use Rattle.rule_file.specs.declared.fault.MoveFault.TheVariants as moves;

use crate::key::Key;
use opc_base::NoMemory;
use std::alloc::AllocFailed;

/// Why a rule file is refused. The first of these counts, and among keys the first in their order.
#[derive(Clone, Copy, Debug, PartialEq, Eq)]
pub enum RuleFault {
    /// The bytes aren't UTF-8, or the text is no TOML document.
    NotToml,
    /// The table has a key that a rule file doesn't have.
    Unknown,
    MissingKey { key: Key },
    WrongType { key: Key },
    OutOfRange { key: Key },
    NoMemory,
}

impl From<NoMemory> for RuleFault {
    ghost from_gives = { λ _ e. e ≡ rules.NoMemory };

    fn from(_: NoMemory) -> Self {
        RuleFault::NoMemory
    }
}

/// Why a moves file is refused.
#[derive(Clone, Copy, Debug, PartialEq, Eq)]
pub enum MoveFault {
    /// The first line that is no move, counted from 1.
    BadLine { line: u32 },
    NoMemory,
}

impl<T: Drop> From<AllocFailed<T>> for MoveFault {
    ghost from_gives = { λ _ e. e ≡ moves.NoMemory };

    fn from(_: AllocFailed<T>) -> Self {
        MoveFault::NoMemory
    }
}
