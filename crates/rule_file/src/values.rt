//! The rules of a table whose keys all pass.
ghost use Rattle.std.specs.Prelude.{◌≡◌, pos, Some, option_copied, IfOk};
ghost use Rattle.toml.specs.View.{table_view};
ghost use Rattle.rule_file.specs.Keys.{HoldsNumber, HoldsText, IsName, IsSmall, IsWholeKind, kind_of};
ghost use Rattle.rule_file.specs.RuleText.{AllKeysPass, HasCut, HasMask, HasMover, HasOut, HasPick, HasRules, HasRun, HasSite, text_at, whole_at};

use crate::check::value_at;
use crate::key::Key;
use opc_base::{
    CutRules, MaskRules, MoveRules, Name, NoMemory, OutPick, Pick, Rules, RunRules, SiteRules,
};
use std::alloc::Global;
use toml::Table;

/// The rules that the table's values are.
pub fn rules(alloc: Global, table: &Table) -> Result<Rules, NoMemory>
    requires { AllKeysPass (table_view table.now) }
    ensures { IfOk result (HasRules (table_view table.now)) }
{
    Ok(Rules {
        pick: pick(alloc, table)?,
        site: site(table),
        cut: cut(table),
        mover: mover(table),
        mask: mask(table),
        run: run(table),
        out: out(alloc, table)?,
    })
}

fn pick(alloc: Global, table: &Table) -> Result<Pick, NoMemory>
    requires { AllKeysPass (table_view table.now) }
    ensures { IfOk result (HasPick (table_view table.now)) }
{
    Ok(Pick {
        top: name(alloc, text(table, Key::Top))?,
        layer: count(table, Key::Layer) as u16,
        datatype: count(table, Key::Datatype) as u16,
        grid: small(table, Key::Grid),
    })
}

fn site(table: &Table) -> SiteRules
    requires { AllKeysPass (table_view table.now) }
    ensures { HasSite (table_view table.now) result }
{
    SiteRules {
        threshold: whole(table, Key::Threshold),
        samples: small(table, Key::Samples),
    }
}

fn cut(table: &Table) -> CutRules
    requires { AllKeysPass (table_view table.now) }
    ensures { HasCut (table_view table.now) result }
{
    CutRules {
        piece: small(table, Key::Piece),
        corner_out: small(table, Key::CornerOut),
        corner_in: small(table, Key::CornerIn),
        line_end: small(table, Key::LineEnd),
    }
}

fn mover(table: &Table) -> MoveRules
    requires { AllKeysPass (table_view table.now) }
    ensures { HasMover (table_view table.now) result }
{
    MoveRules {
        gain_num: small(table, Key::GainNum),
        gain_den: small(table, Key::GainDen),
        max_step: small(table, Key::MaxStep),
        max_in: small(table, Key::MaxIn),
        max_out: small(table, Key::MaxOut),
    }
}

fn mask(table: &Table) -> MaskRules
    requires { AllKeysPass (table_view table.now) }
    ensures { HasMask (table_view table.now) result }
{
    MaskRules {
        width: small(table, Key::Width),
        space: small(table, Key::Space),
        max_in: small(table, Key::MaxIn),
        max_out: small(table, Key::MaxOut),
    }
}

fn run(table: &Table) -> RunRules
    requires { AllKeysPass (table_view table.now) }
    ensures { HasRun (table_view table.now) result }
{
    RunRules {
        settle: small(table, Key::Settle),
        rounds: count(table, Key::Rounds),
        tile: small(table, Key::Tile),
        workers: count(table, Key::Workers),
    }
}

fn out(alloc: Global, table: &Table) -> Result<OutPick, NoMemory>
    requires { AllKeysPass (table_view table.now) }
    ensures { IfOk result (HasOut (table_view table.now)) }
{
    Ok(OutPick {
        layer: count(table, Key::OutLayer) as u16,
        datatype: count(table, Key::OutDatatype) as u16,
        name: name(alloc, text(table, Key::OutName))?,
    })
}

fn name(alloc: Global, text: &str) -> Result<Name, NoMemory>
    ensures { IfOk result (λ name. name ≡ text.now) }
{
    Ok(Name::from_vec(text.as_bytes().to_vec(alloc)?))
}

fn small(table: &Table, key: Key) -> i32
    requires pass { AllKeysPass (table_view table.now) }
    requires small { IsSmall (kind_of key) }
    ensures value { whole_at (table_view table.now) key ≡ Some result }
    ensures range { HoldsNumber (kind_of key) result }
{
    whole(table, key) as i32
}

fn count(table: &Table, key: Key) -> u32
    requires pass { AllKeysPass (table_view table.now) }
    requires small { IsSmall (kind_of key) }
    ensures value { whole_at (table_view table.now) key ≡ Some (pos result) }
    ensures range { HoldsNumber (kind_of key) (pos result) }
{
    whole(table, key) as u32
}

fn whole(table: &Table, key: Key) -> i64
    requires pass { AllKeysPass (table_view table.now) }
    requires whole { IsWholeKind (kind_of key) }
    ensures value { whole_at (table_view table.now) key ≡ Some result }
    ensures range { HoldsNumber (kind_of key) result }
{
    match find_whole(table, key) {
        Some(n) => n,
        None => unreachable!(),
    }
}

fn text(table: &Table, key: Key) -> &str
    requires pass { AllKeysPass (table_view table.now) }
    requires name { IsName (kind_of key) }
    ensures value { text_at (table_view table.now) key ≡ Some result.now }
    ensures range { HoldsText (kind_of key) result.now }
{
    match find_text(table, key) {
        Some(text) => text,
        None => unreachable!(),
    }
}

fn find_whole(table: &Table, key: Key) -> Option<i64>
    ensures { result ≡ whole_at (table_view table.now) key }
{
    match value_at(table, key) {
        Some(value) => value.as_integer(),
        None => None,
    }
}

fn find_text(table: &Table, key: Key) -> Option<&str>
    ensures { option_copied result ≡ text_at (table_view table.now) key }
{
    match value_at(table, key) {
        Some(value) => value.as_str(),
        None => None,
    }
}
