//! What becomes of the engine's answers.
ghost use Rattle.std.specs.Prelude.{◌≡◌, [], ◌∷◌, IfOk, IfErr};
ghost use Rattle.opc_cli.specs.Plan.{both_stored, line_said, table_stored};
ghost use Rattle.opc_cli.specs.Steps.{delivery_of};

use crate::answer::{Answer, Output};
use crate::stop::Stop;
use opc_base::{Bytes, Text};
use std::alloc::Global;

/// Nothing is stored, and the line is said.
pub fn line_alone<'a>(alloc: Global, given: opc_engine::Answer) -> Answer<'a>
    ensures { delivery_of result ≡ line_said given }
{
    Answer {
        outputs: Vec::new(alloc),
        line: given.line,
    }
}

/// The table is stored, and its last line is said.
pub fn table_alone<'a>(
    alloc: Global,
    table: &'a Text,
    given: opc_engine::Answer,
) -> Result<Answer<'a>, Stop<'a>>
    ensures answer { IfOk result (λ answer. delivery_of answer ≡ table_stored table.now given) }
    ensures stop { IfErr result (λ stop. stop ≡ Stop.NoMemory) }
{
    let opc_engine::Answer {
        table: bytes,
        line,
        ..
    } = given;
    let mut outputs = Vec::new(alloc);
    outputs.push(Output { name: table, bytes })?;
    Ok(Answer { outputs, line })
}

/// The mask file and then the table are stored, and the table's last line is said.
pub fn mask_and_table<'a>(
    alloc: Global,
    mask: &'a Text,
    table: &'a Text,
    given: opc_engine::Answer,
) -> Result<Answer<'a>, Stop<'a>>
    ensures answer { IfOk result (λ answer. delivery_of answer ≡ both_stored mask.now table.now given) }
    ensures stop { IfErr result (λ stop. stop ≡ Stop.NoMemory) }
{
    let mask = Output {
        name: mask,
        bytes: given.mask,
    };
    let table = Output {
        name: table,
        bytes: given.table,
    };
    two_outputs(alloc, mask, table, given.line)
}

/// Two files are stored, the first before the second, and a line is said.
pub fn two_outputs<'a>(
    alloc: Global,
    first: Output<'a>,
    second: Output<'a>,
    line: Bytes,
) -> Result<Answer<'a>, Stop<'a>>
    ensures answer { IfOk result (λ answer. delivery_of answer ≡ record {
      stores = (first.entry.name.now, first.entry.bytes) ∷ (second.entry.name.now, second.entry.bytes) ∷ [];
      line = line;
    }) }
    ensures stop { IfErr result (λ stop. stop ≡ Stop.NoMemory) }
{
    let mut outputs = Vec::new(alloc);
    outputs.push(first)?;
    outputs.push(second)?;
    Ok(Answer { outputs, line })
}
