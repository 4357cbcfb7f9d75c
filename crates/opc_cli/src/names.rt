//! The rule on the names of stored files.
ghost use Rattle.std.specs.Prelude.{◌≡◌, ◌++◌, map};
ghost use Rattle.opc_cli.specs.Command.{is_new, are_new, kernel_files, names_of, reads, writes};

use crate::command::Command;
use crate::conditions::ConditionWords;
use opc_base::Text;

/// Whether each file that a command stores has a name of its own.
pub fn has_new_names(command: &Command) -> bool
    ensures { result ≡ are_new (reads command.now) (writes command.now) }
{
    match command {
        Command::Probe { .. } | Command::Trial { .. } => true,
        Command::Simulate {
            layout,
            kernels,
            rules,
            table,
        } => is_new(table, &[layout, kernels, rules]),
        Command::Correct {
            layout,
            kernels,
            rules,
            mask,
            table,
        }
        | Command::Polygons {
            layout,
            kernels,
            rules,
            mask,
            table,
        } => is_new(mask, &[layout, kernels, rules])
            && is_new(table, &[mask, layout, kernels, rules]),
        Command::Moves {
            layout,
            kernels,
            rules,
            moves,
            mask,
            table,
        } => {
            is_new(mask, &[layout, kernels, rules, moves])
                && is_new(table, &[mask, layout, kernels, rules, moves])
        }
        Command::Assist {
            layout,
            kernels,
            rules,
            mask,
            table,
            ..
        } => {
            is_new(mask, &[layout, kernels, rules])
                && is_new(table, &[mask, layout, kernels, rules])
        }
        Command::Check {
            layout,
            kernels,
            rules,
            printed,
            list,
        } => {
            is_new(printed, &[layout, kernels, rules])
                && is_new(list, &[printed, layout, kernels, rules])
        }
        Command::Window {
            layout,
            rules,
            mask,
            table,
            conditions,
        } => {
            let conditions = conditions.as_slice();
            is_new_beside(mask, &[layout, rules], conditions)
                && is_new_beside(table, &[mask, layout, rules], conditions)
        }
    }
}

/// Whether a name is none of some others, and none of a kernel file of these conditions.
#[tactic(auto, using(crate::proofs::NameLaws::new_beside))]
fn is_new_beside(name: &Text, others: &[&Text], conditions: &[ConditionWords]) -> bool
    ensures { result ≡ is_new name.now (map (λ other. other.now) others.now ++ names_of (kernel_files conditions.now)) }
{
    is_new(name, others) && is_no_kernel_file(name, conditions)
}

/// Whether a name is none of a kernel file of these conditions.
fn is_no_kernel_file(name: &Text, conditions: &[ConditionWords]) -> bool
    ensures { result ≡ is_new name.now (names_of (kernel_files conditions.now)) }
{
    let [first, rest @ ..] = conditions else {
        return true;
    };
    first.kernels.as_str() != name.as_str() && is_no_kernel_file(name, rest)
}

/// Whether a name is none of some others.
fn is_new(name: &Text, others: &[&Text]) -> bool
    ensures { result ≡ is_new name.now (map (λ other. other.now) others.now) }
{
    let [first, rest @ ..] = others else {
        return true;
    };
    first.as_str() != name.as_str() && is_new(name, rest)
}
