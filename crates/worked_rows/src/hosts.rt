//! What a host in memory holds, and which of its calls fail.
ghost use Rattle.std.specs.Prelude.{◌==◌, ◌≢◌, map, IfOk};
ghost use Rattle.std.specs.List.{IsDistinct};
ghost use Rattle.std.specs.Str.{bytes_eq};

use opc_base::{Bytes, Fail, NoMemory, Text};
use std::alloc::Global;

/// The files `layout` and `kernels`.
pub fn files_of(
    alloc: Global,
    layout: &[u8],
    kernels: &[u8],
) -> Result<Vec<(Text, Bytes)>, NoMemory>
    ensures { IfOk result (λ files. IsDistinct bytes_eq (map (λ file. file.0) files.items)) }
{
    let mut files = Vec::new(alloc);
    files.push((
        Text::from_string(String::from_str(alloc, "layout")?),
        Bytes::from_vec(layout.to_vec(alloc)?),
    ))?;
    files.push((
        Text::from_string(String::from_str(alloc, "kernels")?),
        Bytes::from_vec(kernels.to_vec(alloc)?),
    ))?;
    Ok(files)
}

/// No files.
pub fn no_files(alloc: Global) -> Vec<(Text, Bytes)>
    ensures { IsDistinct bytes_eq (map (λ file. file.0) result.items) }
{
    Vec::new(alloc)
}

/// No call that fails.
pub fn none(alloc: Global) -> Vec<Fail>
    ensures { IsDistinct (λ a b. a == b) (map (λ fail. fail.call) result.items) }
{
    Vec::new(alloc)
}

/// One call that fails.
pub fn one(alloc: Global, call: u32, keep: u32) -> Result<Vec<Fail>, NoMemory>
    ensures { IfOk result (λ fails. IsDistinct (λ a b. a == b) (map (λ fail. fail.call) fails.items)) }
{
    let mut fails = Vec::new(alloc);
    fails.push(Fail { call, keep })?;
    Ok(fails)
}

/// Two calls that fail.
pub fn two(alloc: Global, first: Fail, second: Fail) -> Result<Vec<Fail>, NoMemory>
    requires { first.call ≢ second.call }
    ensures { IfOk result (λ fails. IsDistinct (λ a b. a == b) (map (λ fail. fail.call) fails.items)) }
{
    let mut fails = Vec::new(alloc);
    fails.push(first)?;
    fails.push(second)?;
    Ok(fails)
}
