//! The command `window`.
ghost use Rattle.std.specs.Prelude.{◌≡◌, ◌≤◌, IfOk, IfErr, length};
ghost use Rattle.opc_base.specs.Outside.{Loads};
ghost use Rattle.opc_engine.specs.Prepared.{CanCorrect, window_subject_of};
ghost use Rattle.opc_cli.specs.Command.{AreConditionsOfWords};
ghost use Rattle.opc_cli.specs.SeveralConditions.{IsCorrectedUnder, conditions_with};
ghost use Rattle.opc_cli.specs.Steps.{Answers, CommandStops};

use crate::answer::Answer;
use crate::command::Command;
use crate::conditions::{ConditionList, ConditionWords};
use crate::loads::{load_kernels, load_named};
use crate::outputs::mask_and_table;
use crate::stop::Stop;
use gds_writer::write_mask;
use opc_base::{Host, KernelSet, NoMemory, Text, Watch};
use opc_engine::{Prepared, Which};
use process_window::{Condition, run};
use std::alloc::Global;
use std::thread::Threads;

/// `window`: the mask file and the table of a correction for several conditions at once. The kernel files are loaded behind
/// the layout and the rules, as the words name them.
pub fn window<'a, R: Threads + Sync, H: Host, W: Watch + Sync>(
    rt: &R,
    alloc: Global,
    host: &mut H,
    layout: &'a Text,
    rules: &'a Text,
    mask: &'a Text,
    table: &'a Text,
    conditions: &'a ConditionList,
    watch: &W,
) -> Result<Answer<'a>, Stop<'a>>
    requires { AreConditionsOfWords conditions.now }
    ensures answer { IfOk result (Answers (Command.Window layout.now rules.now mask.now table.now conditions.now) (H.outside host.old)) }
    ensures stop { IfErr result (CommandStops (Command.Window layout.now rules.now mask.now table.now conditions.now) (H.outside host.old) (H.outside host.new)) }
    ensures rest { Loads (H.outside host.old) (H.outside host.new) }
{
    let layout = load_named(alloc, host, layout, Which::Layout)?;
    let rules = load_named(alloc, host, rules, Which::Rules)?;
    let mut kernels = Vec::new(alloc);
    load_kernels(alloc, host, conditions.as_slice(), &mut kernels)?;
    let prepared = opc_engine::prepare(alloc, layout.as_slice(), &kernels, rules.as_slice())?;
    let given = answer_under(rt, alloc, prepared, conditions.as_slice(), watch)?;
    mask_and_table(alloc, mask, table, given)
}

/// The mask file, the table and its last line of what is prepared, under these conditions.
fn answer_under<R: Threads + Sync, W: Watch + Sync>(
    rt: &R,
    alloc: Global,
    given: Prepared,
    words: &[ConditionWords],
    watch: &W,
) -> Result<opc_engine::Answer, NoMemory>
    requires ready { CanCorrect given }
    requires conditions { AreConditionsOfWords words.now }
    requires one_each { length given.sets ≡ length words.now }
    ensures { IfOk result (IsCorrectedUnder (window_subject_of given) words.now) }
{
    let Prepared {
        head,
        region,
        fragments,
        rules,
        sets,
    } = given;
    let conditions = conditions_with(alloc, words, sets.into_vec())?;
    let outcome = run(rt, alloc, &fragments, &region, &rules, &conditions, watch)?;
    let mask = write_mask(alloc, &head, &outcome.mask, &rules.out, rules.pick.grid)?;
    Ok(opc_engine::Answer {
        mask,
        table: outcome.table,
        line: outcome.line,
    })
}

/// The conditions that words name, with the sets of their kernel files.
fn conditions_with(
    alloc: Global,
    words: &[ConditionWords],
    sets: Vec<KernelSet>,
) -> Result<Vec<Condition>, NoMemory>
    ensures { IfOk result (λ conditions. conditions.items ≡ conditions_with words.now sets.items) }
{
    let conditions = words
        .iter()
        .zip(sets)
        .map(|(words, kernels)| Condition {
            kernels,
            threshold: words.threshold,
            weight: words.weight,
        })
        .collect(alloc)?;
    Ok(conditions)
}
