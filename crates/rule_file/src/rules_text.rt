//! Reading a rule file.
ghost use Rattle.std.specs.Prelude.{◌≡◌, ◌⊎◌, None, Some, OnOk, IfOk, IfErr, IsUtf8};
ghost use Rattle.toml.specs.Parse.{parse_document};
ghost use Rattle.toml.specs.View.{table_view};
ghost use Rattle.rule_file.specs.RuleText.{SaysRules, rule_fault};

use crate::check::table_fault;
use crate::fault::RuleFault;
use crate::values::rules;
use opc_base::Rules;
use std::alloc::Global;
use toml::Table;

/// Reads a rule file: a TOML document whose table has exactly the keys of `Key`, each in its range. The fault is the first
/// in the order of `RuleFault`, and among keys in the order of `Key`.
pub fn read_rules(alloc: Global, bytes: &[u8]) -> Result<Rules, RuleFault>
    ensures valid { OnOk result (rule_fault bytes.now ≡ None) }
    ensures rules { IfOk result (SaysRules bytes.now) }
    ensures fault { IfErr result (λ fault. (fault ≡ RuleFault.NoMemory) ⊎ (rule_fault bytes.now ≡ Some fault)) }
{
    let table = document(alloc, bytes)?;
    match table_fault(&table) {
        Some(fault) => Err(fault),
        None => Ok(rules(alloc, &table)?),
    }
}

fn document(alloc: Global, bytes: &[u8]) -> Result<Table, RuleFault>
    ensures text { OnOk result (IsUtf8 bytes.now) }
    ensures table { IfOk result (λ table. parse_document bytes.now ≡ Some (table_view table)) }
    ensures fault { IfErr result (λ fault. (fault ≡ RuleFault.NoMemory) ⊎ (rule_fault bytes.now ≡ Some fault)) }
{
    match toml::table_from_slice(alloc, bytes) {
        Ok(table) => Ok(table),
        Err(error) => {
            if error.is_memory() {
                Err(RuleFault::NoMemory)
            } else {
                Err(RuleFault::NotToml)
            }
        }
    }
}
