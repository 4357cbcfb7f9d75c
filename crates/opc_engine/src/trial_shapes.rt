//! The kernel file of `trial`.
ghost use Rattle.std.specs.Prelude.{◌≡◌, ◌<◌, ◌++◌, negsuc, pos, IfOk, OnOk};
ghost use Rattle.opc_base.specs.Ranges.{IsBetween};
ghost use Rattle.opc_engine.specs.ErrorTable.{texts_of};
ghost use Rattle.opc_engine.specs.TrialInput.{entry_bytes, height, kernel_bytes, place, trial_kernels};
ghost use Rattle.opc_engine.specs.TrialShapes.{entry_of};

use opc_base::{Bytes, Entry, NoMemory};
use std::alloc::Global;

/// How far the kernels reach.
const REACH: i16 = 8;

/// How many entries a row of a kernel has, and how many rows.
const SIDE: u8 = 17;

/// What a kernel looks like.
#[derive(Clone, Copy)]
enum Shape {
    /// Highest in the middle.
    Peak,
    /// Odd in both directions: it rises along both axes.
    Slope,
}

/// The file of two kernels of reach 8.
pub fn trial_kernels(alloc: Global) -> Result<Bytes, NoMemory>
    ensures { IfOk result (λ file. file ≡ trial_kernels) }
{
    let mut file = Bytes::from_vec(b"OPK1".to_vec(alloc)?);
    file.append(&2_u16.to_be_bytes())?;
    file.append(&REACH.to_be_bytes())?;
    put_kernel(&mut file, 3, Shape::Peak)?;
    put_kernel(&mut file, 1, Shape::Slope)?;
    Ok(file)
}

/// Appends a kernel: its weight, and its rows from the lowest on.
fn put_kernel(file: &mut Bytes, weight: u16, shape: Shape) -> Result<(), NoMemory>
    ensures { OnOk result (file.new ≡ file.old ++ kernel_bytes weight (entry_of shape)) }
{
    file.append(&weight.to_be_bytes())?;
    for row in 0..SIDE {
        put_row(file, shape, place(row))?;
    }
    Ok(())
}

/// Appends a row of entries.
fn put_row(file: &mut Bytes, shape: Shape, v: i16) -> Result<(), NoMemory>
    requires { IsBetween (negsuc 7) (pos 8) v }
    ensures { OnOk result (file.new ≡ file.old ++ texts_of (λ u. entry_bytes (entry_of shape (place u) v)) 17) }
{
    for column in 0..SIDE {
        file.append(&bytes_of(entry(shape, place(column), v)))?;
    }
    Ok(())
}

/// The place of the k-th entry of a row, and of the k-th row.
fn place(k: u8) -> i16
    requires { k < 17 }
    ensures is { result ≡ place k }
    ensures range { IsBetween (negsuc 7) (pos 8) result }
{
    i16::from(k) - REACH
}

/// The entry of a kernel at a place.
fn entry(shape: Shape, u: i16, v: i16) -> Entry
    requires column { IsBetween (negsuc 7) (pos 8) u }
    requires row { IsBetween (negsuc 7) (pos 8) v }
    ensures { result ≡ entry_of shape u v }
{
    match shape {
        Shape::Peak => Entry {
            re: height(u) * height(v),
            im: 0,
        },
        Shape::Slope => Entry {
            re: u * height(v),
            im: v * height(u),
        },
    }
}

/// It falls from 9 in the middle to 1 at the rim.
fn height(n: i16) -> i16
    requires { IsBetween (negsuc 7) (pos 8) n }
    ensures is { result ≡ height n }
    ensures range { IsBetween (pos 1) (pos 9) result }
{
    9 - n.abs()
}

/// The two parts of an entry.
fn bytes_of(entry: Entry) -> [u8; 4]
    ensures { result ≡ entry_bytes entry }
{
    let [a, b] = entry.re.to_be_bytes();
    let [c, d] = entry.im.to_be_bytes();
    [a, b, c, d]
}
