//! The lines that are said.
ghost use Rattle.std.specs.Prelude.{◌≡◌, IfOk, string_bytes};
ghost use Rattle.error_table.specs.Table.{rule_name};
ghost use Rattle.opc_cli.specs.Plan.{intensity_line};
ghost use Rattle.opc_cli.specs.Fault.{bar_text, which_text, rules_text, kernels_text, layout_text, place_text, moves_text, fault_line};
ghost use Rattle.opc_cli.specs.Stop.{line_of};

use crate::stop::Stop;
use gds_model::{LayoutFault, PlaceFault};
use kernel_file::KernelFault;
use opc_base::{Broken, Bytes, NoMemory, Pix, Place, RuleName};
use opc_engine::{BarKey, EngineFault, Which};
use rule_file::{MoveFault, RuleFault};
use std::alloc::Global;

/// Said of want of memory, from bytes that are there from the start.
pub const OUT_OF_MEMORY: &str = "opc: out of memory\n";

/// The answer of `probe`.
pub fn intensity_line(alloc: Global, intensity: i64) -> Result<Bytes, NoMemory>
    ensures { IfOk result (λ line. line ≡ intensity_line intensity) }
{
    let line = format!(in alloc; "intensity {intensity}\n")?;
    Ok(Bytes::from_vec(line.into_bytes()))
}

/// The file that a line speaks of.
fn which_text(which: Which) -> &'static str
    ensures { result.now ≡ which_text which }
{
    match which {
        Which::Layout => "layout",
        Which::Kernels => "kernels",
        Which::Rules => "rules",
        Which::Moves => "moves",
    }
}

/// What a line says of a kernel file. A wrapped fault is never want of memory, so that has no text here or below.
fn kernels_text(alloc: Global, fault: &KernelFault) -> Result<String, NoMemory>
    ensures { IfOk result (λ text. string_bytes text ≡ kernels_text fault.now) }
{
    let text = match fault {
        KernelFault::BadMagic => String::from_str(alloc, "bad magic")?,
        KernelFault::WrongLength => String::from_str(alloc, "wrong length")?,
        KernelFault::BadCount => String::from_str(alloc, "bad count")?,
        KernelFault::BadReach => String::from_str(alloc, "bad reach")?,
        KernelFault::BadTransmission { offset } => {
            format!(in alloc; "bad transmission at {offset}")?
        }
        KernelFault::BadWeight { kernel } => format!(in alloc; "bad weight of kernel {kernel}")?,
        KernelFault::BadEntry { offset } => format!(in alloc; "bad entry at {offset}")?,
        KernelFault::WeightSum => String::from_str(alloc, "weights sum")?,
        KernelFault::NoMemory => return Err(NoMemory),
    };
    Ok(text)
}

/// What a line says of a record that doesn't fit.
fn unexpected_text(alloc: Global, offset: usize, kind: u8) -> Result<String, NoMemory>
    ensures { IfOk result (λ text. string_bytes text ≡ layout_text (LayoutFault.Unexpected offset kind)) }
{
    Ok(format!(in alloc; "unexpected record {kind} at {offset}")?)
}

/// What a line says of a layout.
fn layout_text(alloc: Global, fault: &LayoutFault) -> Result<String, NoMemory>
    ensures { IfOk result (λ text. string_bytes text ≡ layout_text fault.now) }
{
    let text = match fault {
        LayoutFault::Cut { offset } => format!(in alloc; "cut at {offset}")?,
        LayoutFault::BadLength { offset } => format!(in alloc; "bad length at {offset}")?,
        LayoutFault::Unexpected { offset, kind } => unexpected_text(alloc, *offset, *kind)?,
        LayoutFault::TooManyStructures { offset } => {
            format!(in alloc; "too many structures at {offset}")?
        }
        LayoutFault::BadBody { offset } => format!(in alloc; "bad body at {offset}")?,
        LayoutFault::Duplicate { offset } => format!(in alloc; "duplicate name at {offset}")?,
        LayoutFault::Trailing { offset } => format!(in alloc; "trailing byte at {offset}")?,
        LayoutFault::NoMemory => return Err(NoMemory),
    };
    Ok(text)
}

/// What a line says of what a layout places.
fn place_text(alloc: Global, fault: &PlaceFault) -> Result<String, NoMemory>
    ensures { IfOk result (λ text. string_bytes text ≡ place_text fault.now) }
{
    let text = match fault {
        PlaceFault::NoTop => String::from_str(alloc, "no top structure")?,
        PlaceFault::Missing { offset } => format!(in alloc; "missing structure at {offset}")?,
        PlaceFault::BadMag { offset } => format!(in alloc; "bad magnification at {offset}")?,
        PlaceFault::BadAngle { offset } => format!(in alloc; "bad angle at {offset}")?,
        PlaceFault::BadArray { offset } => format!(in alloc; "bad array at {offset}")?,
        PlaceFault::Cycle { structure } => {
            format!(in alloc; "cycle through structure {structure}")?
        }
        PlaceFault::TooManyPoints { count } => format!(in alloc; "too many points {count}")?,
        PlaceFault::NotClosed { offset } => format!(in alloc; "not closed at {offset}")?,
        PlaceFault::NotRectilinear { offset } => format!(in alloc; "not rectilinear at {offset}")?,
        PlaceFault::RoundPath { offset } => format!(in alloc; "path ends at {offset}")?,
        PlaceFault::OffGrid { offset } => format!(in alloc; "off grid at {offset}")?,
        PlaceFault::OutOfRange { offset } => format!(in alloc; "out of range at {offset}")?,
        PlaceFault::NoMemory => return Err(NoMemory),
    };
    Ok(text)
}

/// What a line says of a rule file.
fn rules_text(alloc: Global, fault: &RuleFault) -> Result<String, NoMemory>
    ensures { IfOk result (λ text. string_bytes text ≡ rules_text fault.now) }
{
    let text = match fault {
        RuleFault::NotToml => String::from_str(alloc, "not toml")?,
        RuleFault::Unknown => String::from_str(alloc, "unknown key")?,
        RuleFault::MissingKey { key } => {
            let name = key.name();
            format!(in alloc; "missing {name}")?
        }
        RuleFault::WrongType { key } => {
            let name = key.name();
            format!(in alloc; "wrong type {name}")?
        }
        RuleFault::OutOfRange { key } => {
            let name = key.name();
            format!(in alloc; "out of range {name}")?
        }
        RuleFault::NoMemory => return Err(NoMemory),
    };
    Ok(text)
}

/// Which number of scatter bars doesn't suit the rules.
fn bar_text(key: BarKey) -> &'static str
    ensures { result.now ≡ bar_text key }
{
    match key {
        BarKey::Gap => "gap",
        BarKey::Width => "width",
        BarKey::Min => "min",
    }
}

/// What a line says of a moves file.
fn moves_text(alloc: Global, fault: &MoveFault) -> Result<String, NoMemory>
    ensures { IfOk result (λ text. string_bytes text ≡ moves_text fault.now) }
{
    let text = match fault {
        MoveFault::BadLine { line } => format!(in alloc; "bad line {line}")?,
        MoveFault::NoMemory => return Err(NoMemory),
    };
    Ok(text)
}

/// The line of a target that breaks a mask rule.
fn target_line(alloc: Global, broken: Broken) -> Result<String, NoMemory>
    ensures { IfOk result (λ line. string_bytes line ≡ fault_line (EngineFault.Target broken)) }
{
    match broken {
        Broken {
            rule,
            at: Place::Pixel(Pix { x, y }),
        } => {
            let rule = rule_name(rule);
            Ok(format!(in alloc; "opc: target: {rule} at {x} {y}\n")?)
        }
        Broken {
            rule,
            at: Place::Fragment(number),
        } => {
            let rule = rule_name(rule);
            Ok(format!(in alloc; "opc: target: {rule} fragment {number}\n")?)
        }
    }
}

fn rule_name(rule: RuleName) -> &'static str
    ensures { result.now ≡ rule_name rule }
{
    match rule {
        RuleName::M0 => "M0",
        RuleName::M1 => "M1",
        RuleName::M2 => "M2",
        RuleName::M3 => "M3",
        RuleName::M4 => "M4",
        RuleName::M5 => "M5",
    }
}

/// The line of a fault of the engine.
fn fault_line(alloc: Global, fault: &EngineFault) -> Result<String, NoMemory>
    ensures { IfOk result (λ line. string_bytes line ≡ fault_line fault.now) }
{
    let line = match fault {
        EngineFault::TooLong { which } => {
            let file = which_text(*which);
            format!(in alloc; "opc: {file}: too long\n")?
        }
        EngineFault::Rules(fault) => {
            let text = rules_text(alloc, fault)?;
            format!(in alloc; "opc: rules: {text}\n")?
        }
        EngineFault::BadBars { key } => {
            let name = bar_text(*key);
            format!(in alloc; "opc: rules: bars {name}\n")?
        }
        EngineFault::Kernels(fault) => {
            let text = kernels_text(alloc, fault)?;
            format!(in alloc; "opc: kernels: {text}\n")?
        }
        EngineFault::Layout(fault) => {
            let text = layout_text(alloc, fault)?;
            format!(in alloc; "opc: layout: {text}\n")?
        }
        EngineFault::Place(fault) => {
            let text = place_text(alloc, fault)?;
            format!(in alloc; "opc: layout: {text}\n")?
        }
        EngineFault::TooManyCorners => String::from_str(alloc, "opc: layout: too many corners\n")?,
        EngineFault::Target(broken) => target_line(alloc, *broken)?,
        EngineFault::TooManyFragments { count } => {
            format!(in alloc; "opc: layout: too many fragments {count}\n")?
        }
        EngineFault::TooWide { pixels } => {
            format!(in alloc; "opc: layout: too wide {pixels}\n")?
        }
        EngineFault::Moves(fault) => {
            let text = moves_text(alloc, fault)?;
            format!(in alloc; "opc: moves: {text}\n")?
        }
        EngineFault::NoFragment { line } => {
            format!(in alloc; "opc: moves: no fragment at line {line}\n")?
        }
        EngineFault::NoMemory => String::from_str(alloc, OUT_OF_MEMORY)?,
    };
    Ok(line)
}

/// The line that is said of a stop. Of a failed last say nothing is said.
pub fn line_of(alloc: Global, stop: &Stop<'_>) -> Result<Bytes, NoMemory>
    ensures { IfOk result (λ line. line ≡ line_of stop.now) }
{
    let line = match stop {
        Stop::Words => String::from_str(alloc, "opc: words\n")?,
        Stop::Read(name) => {
            let name = name.as_str();
            format!(in alloc; "opc: cannot read {name}\n")?
        }
        Stop::Write(name) => {
            let name = name.as_str();
            format!(in alloc; "opc: cannot write {name}\n")?
        }
        Stop::Said => String::new(alloc),
        Stop::Refused(fault) => fault_line(alloc, fault)?,
        Stop::NoMemory => String::from_str(alloc, OUT_OF_MEMORY)?,
    };
    Ok(Bytes::from_vec(line.into_bytes()))
}
