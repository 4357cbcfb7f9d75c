//! The command `trial`.
ghost use Rattle.std.specs.Prelude.{◌≡◌, ◌≤◌, IfOk, IfErr};
ghost use Rattle.opc_base.specs.Outside.{Loads};
ghost use Rattle.opc_cli.specs.Steps.{Answers, CommandStops};

use crate::answer::Answer;
use crate::command::Command;
use crate::outputs::line_alone;
use crate::stop::Stop;
use opc_base::{Host, Watch};
use std::alloc::Global;
use std::thread::Threads;

/// `trial`: the line of a correction of a made input.
pub fn trial<'a, R: Threads + Sync, H: Host, W: Watch + Sync>(
    rt: &R,
    alloc: Global,
    host: &mut H,
    n: u32,
    watch: &W,
) -> Result<Answer<'a>, Stop<'a>>
    requires { (1 ≤ n) × (n ≤ 64) }
    ensures answer { IfOk result (Answers (Command.Trial n) (H.outside host.old)) }
    ensures stop { IfErr result (CommandStops (Command.Trial n) (H.outside host.old) (H.outside host.new)) }
    ensures rest { Loads (H.outside host.old) (H.outside host.new) }
{
    let given = opc_engine::trial(rt, alloc, n, watch)?;
    Ok(line_alone(alloc, given))
}
