//! What the program does for a command.
ghost use Rattle.std.specs.Prelude.{◌≡◌, IfOk, OnOk, IfErr};
ghost use Rattle.opc_base.specs.Outside.{Loads};
ghost use Rattle.opc_cli.specs.Command.{MeetsConditions};
ghost use Rattle.opc_cli.specs.Steps.{Answers, CommandStops, ServeStops, Serves, Counts};

use crate::answer::Answer;
use crate::assist::assist;
use crate::check::check;
use crate::command::Command;
use crate::correct::correct;
use crate::deliver::deliver;
use crate::moves::moves;
use crate::polygons::polygons;
use crate::probe::probe;
use crate::simulate::simulate;
use crate::stop::Stop;
use crate::trial::trial;
use crate::window::window;
use assist_bars::BarRules;
use opc_base::{Host, Watch};
use std::alloc::Global;
use std::thread::Threads;

/// What a command gives for its files.
fn answer_to<'a, R: Threads + Sync, H: Host, W: Watch + Sync>(
    rt: &R,
    alloc: Global,
    command: &'a Command,
    host: &mut H,
    watch: &W,
) -> Result<Answer<'a>, Stop<'a>>
    requires { MeetsConditions command.now }
    ensures answer { IfOk result (Answers command.now (H.outside host.old)) }
    ensures stop { IfErr result (CommandStops command.now (H.outside host.old) (H.outside host.new)) }
    ensures rest { Loads (H.outside host.old) (H.outside host.new) }
{
    match command {
        Command::Probe {
            layout,
            kernels,
            ask,
        } => probe(alloc, host, layout, kernels, ask),
        Command::Simulate {
            layout,
            kernels,
            rules,
            table,
        } => simulate(rt, alloc, host, layout, kernels, rules, table, watch),
        Command::Correct {
            layout,
            kernels,
            rules,
            mask,
            table,
        } => correct(rt, alloc, host, layout, kernels, rules, mask, table, watch),
        Command::Polygons {
            layout,
            kernels,
            rules,
            mask,
            table,
        } => polygons(rt, alloc, host, layout, kernels, rules, mask, table, watch),
        Command::Moves {
            layout,
            kernels,
            rules,
            moves: list,
            mask,
            table,
        } => moves(
            rt, alloc, host, layout, kernels, rules, list, mask, table, watch,
        ),
        Command::Check {
            layout,
            kernels,
            rules,
            printed,
            list,
        } => check(
            rt, alloc, host, layout, kernels, rules, printed, list, watch,
        ),
        Command::Assist {
            layout,
            kernels,
            rules,
            mask,
            table,
            gap,
            width,
            end,
            min,
        } => {
            let bars = BarRules {
                gap: *gap,
                width: *width,
                end: *end,
                min: *min,
            };
            assist(
                rt, alloc, host, layout, kernels, rules, mask, table, &bars, watch,
            )
        }
        Command::Window {
            layout,
            rules,
            mask,
            table,
            conditions,
        } => window(
            rt, alloc, host, layout, rules, mask, table, conditions, watch,
        ),
        Command::Trial { n } => trial(rt, alloc, host, *n, watch),
    }
}

/// Loads a command's files, and stores and says its answer.
pub fn serve<'a, R: Threads + Sync, H: Host, W: Watch + Sync>(
    rt: &R,
    alloc: Global,
    command: &'a Command,
    host: &mut H,
    watch: &W,
) -> Result<(), Stop<'a>>
    requires { MeetsConditions command.now }
    ensures ok { OnOk result (Serves command.now (H.outside host.old) (H.outside host.new)) }
    ensures stop { IfErr result (ServeStops command.now (H.outside host.old) (H.outside host.new)) }
    ensures counts { Counts (H.outside host.old) (H.outside host.new) }
{
    let answer = answer_to(rt, alloc, command, host, watch)?;
    deliver(alloc, host, &answer)
}
