//! Rule files.

use opc_base::NoMemory;
use std::alloc::Global;

/// The rule file that the rows begin with: its keys and their values.
const RULES: [(&str, &str); 24] = [
    ("top", "\"TOP\""),
    ("layer", "1"),
    ("datatype", "0"),
    ("grid", "1"),
    ("threshold", "37"),
    ("samples", "2"),
    ("piece", "100"),
    ("corner_out", "5"),
    ("corner_in", "5"),
    ("line_end", "10"),
    ("gain_num", "1"),
    ("gain_den", "1"),
    ("max_step", "4"),
    ("max_in", "8"),
    ("max_out", "16"),
    ("settle", "0"),
    ("rounds", "4"),
    ("width", "2"),
    ("space", "2"),
    ("tile", "16"),
    ("workers", "1"),
    ("out_layer", "1"),
    ("out_datatype", "0"),
    ("out_name", "\"MASK\""),
];

/// The value of a key, unless it is changed.
fn value_of<'a>(key: &str, value: &'a str, changes: &[(&str, &'a str)]) -> &'a str {
    for (changed, new) in changes {
        if *changed == key {
            return new;
        }
    }
    value
}

/// The rule file with these values in place of its own.
pub fn rules_of(alloc: Global, changes: &[(&str, &str)]) -> Result<Vec<u8>, NoMemory> {
    let mut out = Vec::new(alloc);
    for (key, value) in RULES {
        let value = value_of(key, value, changes);
        let line = format!(in alloc; "{key} = {value}\n")?;
        out.extend_from_slice(line.as_bytes())?;
    }
    Ok(out)
}
