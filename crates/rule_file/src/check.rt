//! The first fault of a table.
ghost use Rattle.std.specs.Prelude.{◌≡◌, IfNone, not, option_map, string_bytes};
ghost use Rattle.std.specs.BTreeMap.{keys as map_keys};
ghost use Rattle.std.specs.List.{list_all, list_any};
ghost use Rattle.opc_base.specs.Ranges.{is_name_byte};
ghost use Rattle.toml.specs.View.{table_view, view};
ghost use Rattle.rule_file.specs.Keys.{is_key, is_mask_name, is_top, keys, kind_of};
ghost use Rattle.rule_file.specs.RuleText.{AllKeysPass, first_fault, has_unknown, key_fault, kind_fault, table_fault, value_at, whole_fault};

use crate::fault::RuleFault;
use crate::key::{KEYS, Key, Kind};
use toml::{Table, Value};

/// The first fault: an unknown key, or the first key that is missing, of the wrong type or out of its range.
pub fn table_fault(table: &Table) -> Option<RuleFault>
    ensures fault { result ≡ table_fault (table_view table.now) }
    ensures pass { IfNone result (AllKeysPass (table_view table.now)) }
{
    if has_unknown(table) {
        Some(RuleFault::Unknown)
    } else {
        first_fault(table)
    }
}

fn has_unknown(table: &Table) -> bool
    ensures { result ≡ has_unknown (table_view table.now) }
{
    has_other(table)
}

// The table has a name that is no key.
fn has_other(table: &Table) -> bool
    ensures { result ≡ list_any (λ name. not (is_key (string_bytes name))) (map_keys table.now) }
{
    table.keys().any(|name| !is_key(name.as_str()))
}

fn is_key(name: &str) -> bool
    ensures { result ≡ is_key name.now }
{
    KEYS.iter().any(|key| key.name() == name)
}

fn first_fault(table: &Table) -> Option<RuleFault>
    ensures fault { result ≡ first_fault (table_view table.now) keys }
    ensures pass { IfNone result (AllKeysPass (table_view table.now)) }
{
    for key in KEYS {
        match key_fault(table, key) {
            Some(fault) => return Some(fault),
            None => continue,
        }
    }
    None
}

fn key_fault(table: &Table, key: Key) -> Option<RuleFault>
    ensures { result ≡ key_fault (table_view table.now) key }
{
    match value_at(table, key) {
        Some(value) => kind_fault(key, value),
        None => Some(RuleFault::MissingKey { key }),
    }
}

/// The value at a key.
pub fn value_at<'a>(table: &'a Table, key: Key) -> Option<&'a Value>
    ensures { option_map (λ value. view value.now) result ≡ value_at (table_view table.now) key }
{
    table.get(key.name())
}

fn kind_fault(key: Key, value: &Value) -> Option<RuleFault>
    ensures { result ≡ kind_fault key (kind_of key) (view value.now) }
{
    match key.kind() {
        Kind::Whole(low, high) => whole_fault(key, low, high, value.as_integer()),
        Kind::TopName => match value.as_str() {
            Some(text) if is_top(text) => None,
            Some(_) => Some(RuleFault::OutOfRange { key }),
            None => Some(RuleFault::WrongType { key }),
        },
        Kind::MaskName => match value.as_str() {
            Some(text) if is_mask_name(text) => None,
            Some(_) => Some(RuleFault::OutOfRange { key }),
            None => Some(RuleFault::WrongType { key }),
        },
    }
}

fn whole_fault(key: Key, low: i64, high: i64, whole: Option<i64>) -> Option<RuleFault>
    ensures { result ≡ whole_fault key low high whole }
{
    match whole {
        Some(n) if low <= n && n <= high => None,
        Some(_) => Some(RuleFault::OutOfRange { key }),
        None => Some(RuleFault::WrongType { key }),
    }
}

fn is_top(text: &str) -> bool
    ensures { result ≡ is_top text.now }
{
    1 <= text.len() && text.len() <= 255
}

fn is_mask_name(text: &str) -> bool
    ensures { result ≡ is_mask_name text.now }
{
    1 <= text.len() && text.len() <= 32 && has_name_bytes(text.as_bytes())
}

fn has_name_bytes(text: &[u8]) -> bool
    ensures { result ≡ list_all is_name_byte text.now }
{
    text.iter().all(|byte| is_name_byte(*byte))
}

fn is_name_byte(byte: u8) -> bool
    ensures { result ≡ is_name_byte byte }
{
    byte.is_ascii_alphanumeric() || byte == b'_' || byte == b'?' || byte == b'$'
}
