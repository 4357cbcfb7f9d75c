//! The rules of a rule file.
ghost use Rattle.std.specs.Prelude.{◌≡◌, ◌⊎◌, Ok, Err, IfOk, IfErr};
ghost use Rattle.opc_engine.specs.Prepare.{RulesGive};
ghost use Rattle.opc_engine.specs.Wrapped.{HidesNoMemory};

use crate::{EngineFault, MAX_RULES, Which};
use opc_base::Rules;
use rule_file::read_rules;
use std::alloc::Global;

/// The rules of a file, or its first refusal: it is too long, or has a fault.
#[tactic(auto, using(crate::proofs::MemoryLaws::rules_hide_nothing))]
pub fn rules_of(alloc: Global, rules: &[u8]) -> Result<Rules, EngineFault>
    ensures rules { IfOk result (λ read. RulesGive rules.now (Ok read)) }
    ensures refusal { IfErr result (λ fault. (fault ≡ EngineFault.NoMemory) ⊎ RulesGive rules.now (Err fault)) }
    ensures memory { IfErr result (λ fault. ¬ HidesNoMemory fault) }
{
    if rules.len() > MAX_RULES {
        return Err(EngineFault::TooLong {
            which: Which::Rules,
        });
    }
    Ok(read_rules(alloc, rules)?)
}
