//! The files that a command reads.
ghost use Rattle.std.specs.Prelude.{◌≡◌, [], ◌∷◌, ◌++◌, ℕ, List, IfOk, IfErr, OnOk};
ghost use Rattle.opc_base.specs.Outside.{Loads};
ghost use Rattle.opc_cli.specs.Command.{kernel_files, names_of};
ghost use Rattle.opc_cli.specs.Sources.{AreLoaded, IsLoaded};
ghost use Rattle.opc_cli.specs.Steps.{LoadStops, LoadsStop};

use crate::conditions::ConditionWords;
use crate::limits::limit_of;
use crate::stop::Stop;
use opc_base::{Bytes, Host, LoadFault, Text};
use opc_engine::Which;
use std::alloc::Global;

/// The file of this name, as far as one byte past the limit of its kind.
pub fn load_named<'a, H: Host>(
    alloc: Global,
    host: &mut H,
    name: &'a Text,
    which: Which,
) -> Result<Bytes, Stop<'a>>
    ensures bytes { IfOk result (IsLoaded (H.outside host.old).files which name.now) }
    ensures stop { IfErr result (LoadStops name.now (H.outside host.old) (H.outside host.new)) }
    ensures rest { Loads (H.outside host.old) (H.outside host.new) }
{
    match host.load(alloc, name.as_str(), limit_of(which)) {
        Ok(bytes) => Ok(bytes),
        Err(LoadFault::Absent | LoadFault::Failed) => Err(Stop::Read(name)),
        Err(LoadFault::NoMemory) => Err(Stop::NoMemory),
    }
}

/// The files of a correction.
#[derive(Drop)]
pub struct Sources {
    pub layout: Bytes,
    pub kernels: Bytes,
    pub rules: Bytes,
}

/// Loads the files of a correction, in the order of the words.
pub fn load_sources<'a, H: Host>(
    alloc: Global,
    host: &mut H,
    layout: &'a Text,
    kernels: &'a Text,
    rules: &'a Text,
) -> Result<Sources, Stop<'a>>
    ensures loaded { IfOk result (λ sources. AreLoaded (H.outside host.old).files
        ((Which.Layout, layout.now) ∷ (Which.Kernels, kernels.now) ∷ (Which.Rules, rules.now) ∷ [])
        (sources.layout ∷ sources.kernels ∷ sources.rules ∷ [])) }
    ensures stop { IfErr result (LoadsStop (layout.now ∷ kernels.now ∷ rules.now ∷ []) (H.outside host.old) (H.outside host.new)) }
    ensures rest { Loads (H.outside host.old) (H.outside host.new) }
{
    Ok(Sources {
        layout: load_named(alloc, host, layout, Which::Layout)?,
        kernels: load_named(alloc, host, kernels, Which::Kernels)?,
        rules: load_named(alloc, host, rules, Which::Rules)?,
    })
}

/// Loads the kernel files of these conditions in their order, each time that one is named, behind those of a list.
pub fn load_kernels<'a, H: Host>(
    alloc: Global,
    host: &mut H,
    conditions: &'a [ConditionWords],
    kernels: &mut Vec<Bytes>,
) -> Result<(), Stop<'a>>
    ensures loaded { OnOk result ((more : List (List ℕ)) × (kernels.new.items ≡ kernels.old.items ++ more)
        × AreLoaded (H.outside host.old).files (kernel_files conditions.now) more) }
    ensures stop { IfErr result (LoadsStop (names_of (kernel_files conditions.now)) (H.outside host.old) (H.outside host.new)) }
    ensures rest { Loads (H.outside host.old) (H.outside host.new) }
{
    let [first, rest @ ..] = conditions else {
        return Ok(());
    };
    kernels.push(load_named(alloc, host, &first.kernels, Which::Kernels)?)?;
    load_kernels(alloc, host, rest, kernels)
}
