//! The library of a layout file.
ghost use Rattle.std.specs.Prelude.{◌≡◌, ◌⊎◌, IfOk, IfErr};
ghost use Rattle.opc_engine.specs.Heads.{IsHead};
ghost use Rattle.opc_engine.specs.LayoutTarget.{IsRead, IsUnread};
ghost use Rattle.opc_engine.specs.Wrapped.{HidesNoMemory};

use crate::{EngineFault, MAX_LAYOUT, Which};
use gds_library::{Library, read_library};
use std::alloc::Global;

/// The library of a layout file, or why it has none: it is too long, or it has a fault.
#[tactic(auto, using(crate::proofs::MemoryLaws::layout_hides_nothing))]
pub fn read_layout(alloc: Global, layout: &[u8]) -> Result<Library, EngineFault>
    ensures library { IfOk result (λ library. IsRead layout.now library) }
    ensures head { IfOk result (λ library. IsHead library.head) }
    ensures refusal { IfErr result (λ fault. (fault ≡ EngineFault.NoMemory) ⊎ IsUnread layout.now fault) }
    ensures memory { IfErr result (λ fault. ¬ HidesNoMemory fault) }
{
    if layout.len() > MAX_LAYOUT {
        return Err(EngineFault::TooLong {
            which: Which::Layout,
        });
    }
    Ok(read_library(alloc, layout)?)
}
