//! The statuses of a run.
ghost use Rattle.std.specs.Prelude.{◌≡◌};
ghost use Rattle.opc_cli.specs.Fault.{status_of_which, status_of_fault};
ghost use Rattle.opc_cli.specs.Stop.{status_of};

use crate::stop::Stop;
use opc_engine::{EngineFault, Which};

/// All was done.
pub const DONE: u8 = 0;

/// The words have no command.
pub const BAD_WORDS: u8 = 2;

/// A load failed, or its file is absent.
pub const CANNOT_READ: u8 = 3;

/// A store or the last say failed.
pub const CANNOT_WRITE: u8 = 4;

/// The layout is refused.
pub const BAD_LAYOUT: u8 = 5;

/// A kernel file is refused.
pub const BAD_KERNELS: u8 = 6;

/// The rule file is refused.
pub const BAD_RULES: u8 = 7;

/// The moves file is refused.
pub const BAD_MOVES: u8 = 8;

/// The target breaks a mask rule.
pub const BAD_TARGET: u8 = 9;

/// Memory ran out.
pub const NO_MEMORY: u8 = 10;

/// The status of a fault of this file.
fn status_of_which(which: Which) -> u8
    ensures { result ≡ status_of_which which }
{
    match which {
        Which::Layout => BAD_LAYOUT,
        Which::Kernels => BAD_KERNELS,
        Which::Rules => BAD_RULES,
        Which::Moves => BAD_MOVES,
    }
}

/// The status of a fault of the engine.
fn status_of_fault(fault: &EngineFault) -> u8
    ensures { result ≡ status_of_fault fault.now }
{
    match fault {
        EngineFault::TooLong { which } => status_of_which(*which),
        EngineFault::Rules(_) | EngineFault::BadBars { .. } => BAD_RULES,
        EngineFault::Kernels(_) => BAD_KERNELS,
        EngineFault::Layout(_) | EngineFault::Place(_) | EngineFault::TooManyCorners => BAD_LAYOUT,
        EngineFault::Target(_) => BAD_TARGET,
        EngineFault::TooManyFragments { .. } | EngineFault::TooWide { .. } => BAD_LAYOUT,
        EngineFault::Moves(_) | EngineFault::NoFragment { .. } => BAD_MOVES,
        EngineFault::NoMemory => NO_MEMORY,
    }
}

/// The status of a stop.
pub fn status_of(stop: &Stop<'_>) -> u8
    ensures { result ≡ status_of stop.now }
{
    match stop {
        Stop::Words => BAD_WORDS,
        Stop::Read(_) => CANNOT_READ,
        Stop::Write(_) | Stop::Said => CANNOT_WRITE,
        Stop::Refused(fault) => status_of_fault(fault),
        Stop::NoMemory => NO_MEMORY,
    }
}
