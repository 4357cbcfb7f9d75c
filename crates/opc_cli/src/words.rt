//! The words of a command line.
ghost use Rattle.std.specs.Prelude.{◌≡◌, Some, None, [], ◌∷◌, IfOk, IsErrOf};
ghost use Rattle.opc_engine.specs.AskRanges.{IsAsk};
ghost use Rattle.opc_cli.specs.Command.{texts, is_top, ask_from, ask_of, probe_with, probe_of, simulate_of, correct_of, moves_of, check_of, command_with, command_of, MeetsConditions, polygons_of, trial_of, assist_with, assist_of, window_with, window_of};

use crate::command::{Command, WordFault};
use crate::condition_words::conditions_of;
use crate::names::has_new_names;
use crate::numbers::{bars_of, count_from, layer_from, pixel_from};
use opc_base::{Name, NoMemory, Text};
use opc_engine::Ask;
use std::alloc::Global;

/// What the words after the program's own name ask for. Where they have no command the answer is `Words`.
pub fn words_of(alloc: Global, words: &[String]) -> Result<Command, WordFault>
    ensures command { IfOk result (λ command. command_of (texts words.now) ≡ Some command) }
    ensures words { IsErrOf result WordFault.Words → command_of (texts words.now) ≡ None }
    ensures conditions { IfOk result MeetsConditions }
{
    let [name, words @ ..] = words else {
        return Err(WordFault::Words);
    };
    let command = command_with(alloc, name, words)?;
    if !has_new_names(&command) {
        return Err(WordFault::Words);
    }
    Ok(command)
}

/// What the words after a command's name ask for, whatever the names of its files.
fn command_with(alloc: Global, name: &str, words: &[String]) -> Result<Command, WordFault>
    ensures command { IfOk result (λ command. command_with name.now (texts words.now) ≡ Some command) }
    ensures words { IsErrOf result WordFault.Words → command_with name.now (texts words.now) ≡ None }
    ensures conditions { IfOk result MeetsConditions }
{
    match name {
        "probe" => probe_of(alloc, words),
        "simulate" => simulate_of(alloc, words),
        "correct" => correct_of(alloc, words),
        "polygons" => polygons_of(alloc, words),
        "moves" => moves_of(alloc, words),
        "check" => check_of(alloc, words),
        "trial" => trial_of(words),
        "assist" => assist_of(alloc, words),
        "window" => window_of(alloc, words),
        _ => Err(WordFault::Words),
    }
}

fn probe_of(alloc: Global, words: &[String]) -> Result<Command, WordFault>
    ensures command { IfOk result (λ command. probe_of (texts words.now) ≡ Some command) }
    ensures words { IsErrOf result WordFault.Words → probe_of (texts words.now) ≡ None }
    ensures conditions { IfOk result MeetsConditions }
{
    let [layout, kernels, words @ ..] = words else {
        return Err(WordFault::Words);
    };
    probe_with(alloc, layout, kernels, words)
}

fn probe_with(
    alloc: Global,
    layout: &str,
    kernels: &str,
    words: &[String],
) -> Result<Command, WordFault>
    ensures command { IfOk result (λ command. probe_with layout.now kernels.now (texts words.now) ≡ Some command) }
    ensures words { IsErrOf result WordFault.Words → probe_with layout.now kernels.now (texts words.now) ≡ None }
    ensures conditions { IfOk result MeetsConditions }
{
    let ask = ask_of(alloc, words)?;
    Ok(Command::Probe {
        layout: text_of(alloc, layout)?,
        kernels: text_of(alloc, kernels)?,
        ask,
    })
}

/// What is asked of a layout.
fn ask_of(alloc: Global, words: &[String]) -> Result<Ask, WordFault>
    ensures ask { IfOk result (λ ask. ask_of (texts words.now) ≡ Some ask) }
    ensures words { IsErrOf result WordFault.Words → ask_of (texts words.now) ≡ None }
    ensures conditions { IfOk result IsAsk }
{
    let [top, layer, datatype, x, y] = words else {
        return Err(WordFault::Words);
    };
    ask_from(alloc, top, layer, datatype, x, y)
}

fn ask_from(
    alloc: Global,
    top: &str,
    layer: &str,
    datatype: &str,
    x: &str,
    y: &str,
) -> Result<Ask, WordFault>
    ensures ask { IfOk result (λ ask. ask_from top.now layer.now datatype.now x.now y.now ≡ Some ask) }
    ensures words { IsErrOf result WordFault.Words → ask_from top.now layer.now datatype.now x.now y.now ≡ None }
    ensures conditions { IfOk result IsAsk }
{
    if !is_top(top) {
        return Err(WordFault::Words);
    }
    let Some(layer) = layer_from(layer) else {
        return Err(WordFault::Words);
    };
    let Some(datatype) = layer_from(datatype) else {
        return Err(WordFault::Words);
    };
    let Some(at) = pixel_from(x, y) else {
        return Err(WordFault::Words);
    };
    Ok(Ask {
        top: Name::from_vec(top.as_bytes().to_vec(alloc)?),
        layer,
        datatype,
        at,
    })
}

fn simulate_of(alloc: Global, words: &[String]) -> Result<Command, WordFault>
    ensures command { IfOk result (λ command. simulate_of (texts words.now) ≡ Some command) }
    ensures words { IsErrOf result WordFault.Words → simulate_of (texts words.now) ≡ None }
    ensures conditions { IfOk result MeetsConditions }
{
    let [layout, kernels, rules, table] = words else {
        return Err(WordFault::Words);
    };
    Ok(Command::Simulate {
        layout: text_of(alloc, layout)?,
        kernels: text_of(alloc, kernels)?,
        rules: text_of(alloc, rules)?,
        table: text_of(alloc, table)?,
    })
}

fn correct_of(alloc: Global, words: &[String]) -> Result<Command, WordFault>
    ensures command { IfOk result (λ command. correct_of (texts words.now) ≡ Some command) }
    ensures words { IsErrOf result WordFault.Words → correct_of (texts words.now) ≡ None }
    ensures conditions { IfOk result MeetsConditions }
{
    let [layout, kernels, rules, mask, table] = words else {
        return Err(WordFault::Words);
    };
    Ok(Command::Correct {
        layout: text_of(alloc, layout)?,
        kernels: text_of(alloc, kernels)?,
        rules: text_of(alloc, rules)?,
        mask: text_of(alloc, mask)?,
        table: text_of(alloc, table)?,
    })
}

fn check_of(alloc: Global, words: &[String]) -> Result<Command, WordFault>
    ensures command { IfOk result (λ command. check_of (texts words.now) ≡ Some command) }
    ensures words { IsErrOf result WordFault.Words → check_of (texts words.now) ≡ None }
    ensures conditions { IfOk result MeetsConditions }
{
    let [layout, kernels, rules, printed, list] = words else {
        return Err(WordFault::Words);
    };
    Ok(Command::Check {
        layout: text_of(alloc, layout)?,
        kernels: text_of(alloc, kernels)?,
        rules: text_of(alloc, rules)?,
        printed: text_of(alloc, printed)?,
        list: text_of(alloc, list)?,
    })
}

fn polygons_of(alloc: Global, words: &[String]) -> Result<Command, WordFault>
    ensures command { IfOk result (λ command. polygons_of (texts words.now) ≡ Some command) }
    ensures words { IsErrOf result WordFault.Words → polygons_of (texts words.now) ≡ None }
    ensures conditions { IfOk result MeetsConditions }
{
    let [layout, kernels, rules, mask, table] = words else {
        return Err(WordFault::Words);
    };
    Ok(Command::Polygons {
        layout: text_of(alloc, layout)?,
        kernels: text_of(alloc, kernels)?,
        rules: text_of(alloc, rules)?,
        mask: text_of(alloc, mask)?,
        table: text_of(alloc, table)?,
    })
}

fn moves_of(alloc: Global, words: &[String]) -> Result<Command, WordFault>
    ensures command { IfOk result (λ command. moves_of (texts words.now) ≡ Some command) }
    ensures words { IsErrOf result WordFault.Words → moves_of (texts words.now) ≡ None }
    ensures conditions { IfOk result MeetsConditions }
{
    let [layout, kernels, rules, moves, mask, table] = words else {
        return Err(WordFault::Words);
    };
    Ok(Command::Moves {
        layout: text_of(alloc, layout)?,
        kernels: text_of(alloc, kernels)?,
        rules: text_of(alloc, rules)?,
        moves: text_of(alloc, moves)?,
        mask: text_of(alloc, mask)?,
        table: text_of(alloc, table)?,
    })
}

fn assist_of(alloc: Global, words: &[String]) -> Result<Command, WordFault>
    ensures command { IfOk result (λ command. assist_of (texts words.now) ≡ Some command) }
    ensures words { IsErrOf result WordFault.Words → assist_of (texts words.now) ≡ None }
    ensures conditions { IfOk result MeetsConditions }
{
    let [layout, kernels, rules, mask, table, words @ ..] = words else {
        return Err(WordFault::Words);
    };
    assist_with(alloc, layout, kernels, rules, mask, table, words)
}

fn assist_with(
    alloc: Global,
    layout: &str,
    kernels: &str,
    rules: &str,
    mask: &str,
    table: &str,
    words: &[String],
) -> Result<Command, WordFault>
    ensures command { IfOk result (λ command. assist_with layout.now kernels.now rules.now mask.now table.now (texts words.now) ≡ Some command) }
    ensures words { IsErrOf result WordFault.Words → assist_with layout.now kernels.now rules.now mask.now table.now (texts words.now) ≡ None }
    ensures conditions { IfOk result MeetsConditions }
{
    let Some(bars) = bars_of(words) else {
        return Err(WordFault::Words);
    };
    Ok(Command::Assist {
        layout: text_of(alloc, layout)?,
        kernels: text_of(alloc, kernels)?,
        rules: text_of(alloc, rules)?,
        mask: text_of(alloc, mask)?,
        table: text_of(alloc, table)?,
        gap: bars.gap,
        width: bars.width,
        end: bars.end,
        min: bars.min,
    })
}

fn window_of(alloc: Global, words: &[String]) -> Result<Command, WordFault>
    ensures command { IfOk result (λ command. window_of (texts words.now) ≡ Some command) }
    ensures words { IsErrOf result WordFault.Words → window_of (texts words.now) ≡ None }
    ensures conditions { IfOk result MeetsConditions }
{
    let [layout, rules, mask, table, words @ ..] = words else {
        return Err(WordFault::Words);
    };
    window_with(alloc, layout, rules, mask, table, words)
}

fn window_with(
    alloc: Global,
    layout: &str,
    rules: &str,
    mask: &str,
    table: &str,
    words: &[String],
) -> Result<Command, WordFault>
    ensures command { IfOk result (λ command. window_with layout.now rules.now mask.now table.now (texts words.now) ≡ Some command) }
    ensures words { IsErrOf result WordFault.Words → window_with layout.now rules.now mask.now table.now (texts words.now) ≡ None }
    ensures conditions { IfOk result MeetsConditions }
{
    let conditions = conditions_of(alloc, words)?;
    Ok(Command::Window {
        layout: text_of(alloc, layout)?,
        rules: text_of(alloc, rules)?,
        mask: text_of(alloc, mask)?,
        table: text_of(alloc, table)?,
        conditions,
    })
}

fn trial_of(words: &[String]) -> Result<Command, WordFault>
    ensures command { IfOk result (λ command. trial_of (texts words.now) ≡ Some command) }
    ensures words { IsErrOf result WordFault.Words → trial_of (texts words.now) ≡ None }
    ensures conditions { IfOk result MeetsConditions }
{
    let [number] = words else {
        return Err(WordFault::Words);
    };
    match count_from(number) {
        Some(n) => Ok(Command::Trial { n }),
        None => Err(WordFault::Words),
    }
}

fn text_of(alloc: Global, word: &str) -> Result<Text, NoMemory>
    ensures { IfOk result (λ text. text ≡ word.now) }
{
    Ok(Text::from_string(String::from_str(alloc, word)?))
}

/// Whether it may be the name of a structure.
fn is_top(text: &str) -> bool
    ensures { result ≡ is_top text.now }
{
    1 <= text.len() && text.len() <= 255
}
