//! The commands, and why words have none.
ghost use Rattle.std.specs.Prelude.{◌≡◌};
ghost use Rattle.opc_cli.specs.declared.command.WordFault.TheVariants as fault;

use crate::conditions::ConditionList;
use opc_base::{NoMemory, Text};
use opc_engine::Ask;
use std::alloc::{AllocError, AllocFailed};

/// What the program is to do. File names are as in the words.
#[derive(Drop)]
pub enum Command {
    /// Says the intensity at a pixel of the target of a layout.
    Probe {
        layout: Text,
        kernels: Text,
        ask: Ask,
    },
    /// Stores the error table of a target of which no fragment has moved.
    Simulate {
        layout: Text,
        kernels: Text,
        rules: Text,
        table: Text,
    },
    /// Stores the mask file and the error table after a run of rounds.
    Correct {
        layout: Text,
        kernels: Text,
        rules: Text,
        mask: Text,
        table: Text,
    },
    /// Stores the mask file, with a polygon for each component, and the error table after a run of rounds.
    Polygons {
        layout: Text,
        kernels: Text,
        rules: Text,
        mask: Text,
        table: Text,
    },
    /// Stores the mask file and the error table after the moves of a moves file.
    Moves {
        layout: Text,
        kernels: Text,
        rules: Text,
        moves: Text,
        mask: Text,
        table: Text,
    },
    /// Stores the printed image of the mask after a run of rounds, and the list of its flaws.
    Check {
        layout: Text,
        kernels: Text,
        rules: Text,
        printed: Text,
        list: Text,
    },
    /// Stores the mask file and the table of a correction with scatter bars, whose four numbers are in pixels.
    Assist {
        layout: Text,
        kernels: Text,
        rules: Text,
        mask: Text,
        table: Text,
        gap: i32,
        width: i32,
        end: i32,
        min: i32,
    },
    /// Stores the mask file and the table of a correction for two to four conditions at once.
    Window {
        layout: Text,
        rules: Text,
        mask: Text,
        table: Text,
        conditions: ConditionList,
    },
    /// Says what a correction of a made input came to; `n` is 1 to 64.
    Trial {
        n: u32,
    },
}

/// Why there is no command: the words have none, or memory ran out.
#[derive(Clone, Copy, Debug, PartialEq, Eq)]
pub enum WordFault {
    Words,
    NoMemory,
}

impl From<NoMemory> for WordFault {
    ghost from_gives = { λ _ e. e ≡ fault.NoMemory };

    fn from(_: NoMemory) -> Self {
        WordFault::NoMemory
    }
}

impl From<AllocError> for WordFault {
    ghost from_gives = { λ _ e. e ≡ fault.NoMemory };

    fn from(_: AllocError) -> Self {
        WordFault::NoMemory
    }
}

impl<T: Drop> From<AllocFailed<T>> for WordFault {
    ghost from_gives = { λ _ e. e ≡ fault.NoMemory };

    fn from(_: AllocFailed<T>) -> Self {
        WordFault::NoMemory
    }
}
