//! The command `correct`.
ghost use Rattle.std.specs.Prelude.{◌≡◌, IfOk, IfErr};
ghost use Rattle.opc_base.specs.Outside.{Loads};
ghost use Rattle.opc_cli.specs.Steps.{Answers, CommandStops};

use crate::answer::Answer;
use crate::command::Command;
use crate::loads::load_sources;
use crate::outputs::mask_and_table;
use crate::stop::Stop;
use opc_base::{Host, Text, Watch};
use std::alloc::Global;
use std::thread::Threads;

/// `correct`: the mask file and the error table after a run of rounds.
pub fn correct<'a, R: Threads + Sync, H: Host, W: Watch + Sync>(
    rt: &R,
    alloc: Global,
    host: &mut H,
    layout: &'a Text,
    kernels: &'a Text,
    rules: &'a Text,
    mask: &'a Text,
    table: &'a Text,
    watch: &W,
) -> Result<Answer<'a>, Stop<'a>>
    ensures answer { IfOk result (Answers (Command.Correct layout.now kernels.now rules.now mask.now table.now) (H.outside host.old)) }
    ensures stop { IfErr result (CommandStops (Command.Correct layout.now kernels.now rules.now mask.now table.now) (H.outside host.old) (H.outside host.new)) }
    ensures rest { Loads (H.outside host.old) (H.outside host.new) }
{
    let sources = load_sources(alloc, host, layout, kernels, rules)?;
    let given = opc_engine::correct(
        rt,
        alloc,
        sources.layout.as_slice(),
        sources.kernels.as_slice(),
        sources.rules.as_slice(),
        watch,
    )?;
    mask_and_table(alloc, mask, table, given)
}
