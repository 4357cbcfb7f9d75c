//! The conditions among the words of a command line.
ghost use Rattle.std.specs.Prelude.{◌≡◌, ◌++◌, None, Some, All, IfOk, IsErrOf, IsSomeAnd, OnOk};
ghost use Rattle.opc_cli.specs.Command.{texts, condition_from, conditions_from, conditions_of, IsConditionOfWords, AreConditionsOfWords};

use crate::command::WordFault;
use crate::conditions::{ConditionList, ConditionWords};
use crate::numbers::{threshold_from, weight_from};
use opc_base::Text;
use std::alloc::Global;

/// The conditions that these words name, three words each: two to four of them.
pub fn conditions_of(alloc: Global, words: &[String]) -> Result<ConditionList, WordFault>
    ensures conditions { IfOk result (λ conditions. conditions_of (texts words.now) ≡ Some conditions) }
    ensures words { IsErrOf result WordFault.Words → conditions_of (texts words.now) ≡ None }
    ensures ranges { IfOk result AreConditionsOfWords }
{
    if words.len() > 12 {
        return Err(WordFault::Words);
    }
    let mut conditions = Vec::new(alloc);
    add_conditions(alloc, &mut conditions, words)?;
    if conditions.len() < 2 || conditions.len() > 4 {
        return Err(WordFault::Words);
    }
    Ok(ConditionList::from_vec(conditions))
}

/// Adds the conditions that these words name, three words each, to a list.
fn add_conditions(
    alloc: Global,
    conditions: &mut Vec<ConditionWords>,
    words: &[String],
) -> Result<(), WordFault>
    ensures conditions { OnOk result (IsSomeAnd (conditions_from (texts words.now)) (λ named. conditions.new.items ≡ conditions.old.items ++ named)) }
    ensures words { IsErrOf result WordFault.Words → conditions_from (texts words.now) ≡ None }
    ensures ranges { OnOk result (All IsConditionOfWords conditions.old.items → All IsConditionOfWords conditions.new.items) }
{
    if words.is_empty() {
        return Ok(());
    }
    let [kernels, threshold, weight, words @ ..] = words else {
        return Err(WordFault::Words);
    };
    let condition = condition_from(alloc, kernels, threshold, weight)?;
    conditions.push(condition)?;
    add_conditions(alloc, conditions, words)
}

/// The condition that three words name.
fn condition_from(
    alloc: Global,
    kernels: &str,
    threshold: &str,
    weight: &str,
) -> Result<ConditionWords, WordFault>
    ensures condition { IfOk result (λ condition. condition_from kernels.now threshold.now weight.now ≡ Some condition) }
    ensures words { IsErrOf result WordFault.Words → condition_from kernels.now threshold.now weight.now ≡ None }
    ensures range { IfOk result IsConditionOfWords }
{
    let Some(threshold) = threshold_from(threshold) else {
        return Err(WordFault::Words);
    };
    let Some(weight) = weight_from(weight) else {
        return Err(WordFault::Words);
    };
    Ok(ConditionWords {
        kernels: Text::from_string(String::from_str(alloc, kernels)?),
        threshold,
        weight,
    })
}
