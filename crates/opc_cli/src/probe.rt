//! The command `probe`.
ghost use Rattle.std.specs.Prelude.{◌≡◌, IfOk, IfErr};
ghost use Rattle.opc_base.specs.Outside.{Loads};
ghost use Rattle.opc_engine.specs.AskRanges.{IsAsk};
ghost use Rattle.opc_cli.specs.Steps.{Answers, CommandStops};

use crate::answer::Answer;
use crate::command::Command;
use crate::lines::intensity_line;
use crate::loads::load_named;
use crate::stop::Stop;
use opc_base::{Host, Text};
use opc_engine::{Ask, Which};
use std::alloc::Global;

/// `probe`: the intensity at a pixel of the target.
pub fn probe<'a, H: Host>(
    alloc: Global,
    host: &mut H,
    layout: &'a Text,
    kernels: &'a Text,
    ask: &Ask,
) -> Result<Answer<'a>, Stop<'a>>
    requires { IsAsk ask.now }
    ensures answer { IfOk result (Answers (Command.Probe layout.now kernels.now ask.now) (H.outside host.old)) }
    ensures stop { IfErr result (CommandStops (Command.Probe layout.now kernels.now ask.now) (H.outside host.old) (H.outside host.new)) }
    ensures rest { Loads (H.outside host.old) (H.outside host.new) }
{
    let layout = load_named(alloc, host, layout, Which::Layout)?;
    let kernels = load_named(alloc, host, kernels, Which::Kernels)?;
    let intensity = opc_engine::probe(alloc, layout.as_slice(), kernels.as_slice(), ask)?;
    Ok(Answer {
        outputs: Vec::new(alloc),
        line: intensity_line(alloc, intensity)?,
    })
}
