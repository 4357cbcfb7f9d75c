//! Layouts of rectangles and kernel files, as bytes.

use opc_base::NoMemory;
use std::alloc::Global;

/// The records before the first element: a library `LIB` whose one structure is `TOP`.
pub const OPENING: [u8; 98] = [
    // HEADER
    0x00, 0x06, 0x00, 0x02, 0x02, 0x58,
    // BGNLIB
    0x00, 0x1c, 0x01, 0x02, 0x00, 0x00, 0x00, 0x00, 0x00, 0x00, 0x00, 0x00, 0x00, 0x00, 0x00, 0x00,
    0x00, 0x00, 0x00, 0x00, 0x00, 0x00, 0x00, 0x00, 0x00, 0x00, 0x00, 0x00,
    // LIBNAME
    0x00, 0x08, 0x02, 0x06, 0x4c, 0x49, 0x42, 0x00,
    // UNITS
    0x00, 0x14, 0x03, 0x05, 0x41, 0x10, 0x00, 0x00, 0x00, 0x00, 0x00, 0x00, 0x41, 0x10, 0x00, 0x00,
    0x00, 0x00, 0x00, 0x00,
    // BGNSTR
    0x00, 0x1c, 0x05, 0x02, 0x00, 0x00, 0x00, 0x00, 0x00, 0x00, 0x00, 0x00, 0x00, 0x00, 0x00, 0x00,
    0x00, 0x00, 0x00, 0x00, 0x00, 0x00, 0x00, 0x00, 0x00, 0x00, 0x00, 0x00,
    // STRNAME
    0x00, 0x08, 0x06, 0x06, 0x54, 0x4f, 0x50, 0x00,
];

/// A pixel rectangle: left, low, right and high side.
pub type Sides = [i32; 4];

/// The square from (0, 0) to (10, 10).
pub const SQUARE: Sides = [0, 0, 10, 10];

/// A BOUNDARY on layer 1, datatype 0, that walks round a rectangle from its lower left.
fn put_boundary(out: &mut Vec<u8>, sides: Sides) -> Result<(), NoMemory> {
    let [x0, y0, x1, y1] = sides;
    out.extend_from_slice(&[0, 4, 8, 0, 0, 6, 13, 2, 0, 1, 0, 6, 14, 2, 0, 0])?;
    out.extend_from_slice(&[0, 44, 16, 3])?;
    for (x, y) in [(x0, y0), (x1, y0), (x1, y1), (x0, y1), (x0, y0)] {
        out.extend_from_slice(&x.to_be_bytes())?;
        out.extend_from_slice(&y.to_be_bytes())?;
    }
    out.extend_from_slice(&[0, 4, 17, 0])?;
    Ok(())
}

/// A layout of these rectangles.
pub fn layout_of(alloc: Global, rectangles: &[Sides]) -> Result<Vec<u8>, NoMemory> {
    let mut out = OPENING.to_vec(alloc)?;
    for sides in rectangles {
        put_boundary(&mut out, *sides)?;
    }
    out.extend_from_slice(&[0, 4, 7, 0, 0, 4, 4, 0])?;
    Ok(out)
}

/// The mask file of these rectangles, for a layout that begins with the opening.
pub fn mask_of(alloc: Global, rectangles: &[Sides]) -> Result<Vec<u8>, NoMemory> {
    let mut out = layout_of(alloc, rectangles)?;
    for (at, letter) in [(94, b'M'), (95, b'A'), (96, b'S'), (97, b'K')] {
        if let Some(place) = out.get_mut(at) {
            *place = letter;
        }
    }
    Ok(out)
}

/// A kernel file of one kernel of reach 1 and weight 1, whose entries have these real parts.
pub fn kernel_of(alloc: Global, parts: &[u8; 9]) -> Result<Vec<u8>, NoMemory> {
    let mut out = b"OPK1\x00\x01\x00\x01\x00\x01".to_vec(alloc)?;
    for part in parts {
        out.extend_from_slice(&[0, *part, 0, 0])?;
    }
    Ok(out)
}

/// The kernel whose nine entries are 1.
pub const ONES: [u8; 9] = [1; 9];

/// The kernel whose nine entries are 1 to 9, in the order of the file.
pub const NINE: [u8; 9] = [1, 2, 3, 4, 5, 6, 7, 8, 9];

/// A kernel file of the second format: one kernel of reach 1 and weight 1, whose nine entries are equal. The transmissions
/// are the parts of the covered one and then of the uncovered one.
pub fn masked_kernel_of(
    alloc: Global,
    transmissions: &[i16; 4],
    entry: &[i16; 2],
) -> Result<Vec<u8>, NoMemory> {
    let mut out = b"OPK2\x00\x01\x00\x01".to_vec(alloc)?;
    for part in transmissions {
        out.extend_from_slice(&part.to_be_bytes())?;
    }
    out.extend_from_slice(&[0, 1])?;
    for _ in 0..9 {
        out.extend_from_slice(&entry[0].to_be_bytes())?;
        out.extend_from_slice(&entry[1].to_be_bytes())?;
    }
    Ok(out)
}

/// The largest kernel file with this head: 16 kernels of reach 64, of which the first has this weight and all others
/// weight 128, and equal entries.
pub fn largest_kernels(
    alloc: Global,
    head: &[u8],
    first: u8,
    entry: &[u8; 4],
) -> Result<Vec<u8>, NoMemory> {
    let mut out = head.to_vec(alloc)?;
    for kernel in 0..16 {
        out.extend_from_slice(&[0, if kernel == 0 { first } else { 128 }])?;
        put_entries(&mut out, entry)?;
    }
    Ok(out)
}

/// The entries of a kernel of reach 64, all equal.
fn put_entries(out: &mut Vec<u8>, entry: &[u8; 4]) -> Result<(), NoMemory> {
    for _ in 0..129 * 129 {
        out.extend_from_slice(entry)?;
    }
    Ok(())
}
