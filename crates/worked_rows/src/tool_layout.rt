//! A layout as a layout tool writes it, and kernels of reach 40.

use crate::files::OPENING;
use opc_base::NoMemory;
use std::alloc::Global;

/// Of the structure `BAR`: a BOUNDARY on layer 10 with a property, and a TEXT.
const BAR: &[u8] =
    b"\x00\x1c\x05\x02\0\0\0\0\0\0\0\0\0\0\0\0\0\0\0\0\0\0\0\0\0\0\0\0\x00\x08\x06\x06BAR\0\x00\x04\x08\x00\x00\x06\x0d\x02\x00\x0a\x00\x06\x0e\x02\x00\x00\x00\x2c\x10\x03\0\0\0\0\0\0\0\0\0\0\0\x41\0\0\0\0\0\0\0\x41\0\0\x03\xe8\0\0\0\0\0\0\x03\xe8\0\0\0\0\0\0\0\0\x00\x06\x2b\x02\x00\x01\x00\x08\x2c\x06net\0\x00\x04\x11\x00\x00\x04\x0c\x00\x00\x06\x0d\x02\x00\x0a\x00\x06\x16\x02\x00\x00\x00\x0c\x10\x03\0\0\0\0\0\0\0\0\x00\x06\x19\x06hi\x00\x04\x11\x00\x00\x04\x07\x00";

/// The beginning of the structure `TOP`, and an array of twelve bars.
const BARS: &[u8] =
    b"\x00\x1c\x05\x02\0\0\0\0\0\0\0\0\0\0\0\0\0\0\0\0\0\0\0\0\0\0\0\0\x00\x08\x06\x06TOP\0\x00\x04\x0b\x00\x00\x08\x12\x06BAR\0\x00\x08\x13\x02\x00\x0c\x00\x01\x00\x1c\x10\x03\0\0\0\0\0\0\0\0\0\0\x06\x90\0\0\0\0\0\0\0\0\0\0\x07\xd0\x00\x04\x11\x00";

/// A PATH of two segments with ends that are extended by half its width.
const BENT: &[u8] =
    b"\x00\x04\x09\x00\x00\x06\x0d\x02\x00\x0a\x00\x06\x0e\x02\x00\x00\x00\x06\x21\x02\x00\x02\x00\x08\x0f\x03\0\0\0\x46\x00\x1c\x10\x03\0\0\0\0\0\0\x05\xdc\0\0\x06\x40\0\0\x05\xdc\0\0\x06\x40\0\0\x07\xd0\x00\x04\x11\x00";

/// A BOUNDARY on layer 11, and the end of the library.
const REST: &[u8] =
    b"\x00\x04\x08\x00\x00\x06\x0d\x02\x00\x0b\x00\x06\x0e\x02\x00\x00\x00\x2c\x10\x03\0\0\0\0\0\0\0\0\0\0\0\x0a\0\0\0\0\0\0\0\x0a\0\0\0\x0a\0\0\0\0\0\0\0\x0a\0\0\0\0\0\0\0\0\x00\x04\x11\x00\x00\x04\x07\x00\x00\x04\x04\x00";

/// The layout, with zero bytes after it up to 2,048 bytes.
pub fn tool_layout(alloc: Global) -> Result<Vec<u8>, NoMemory> {
    let mut out = OPENING[..62].to_vec(alloc)?;
    for part in [BAR, BARS, BENT, REST] {
        out.extend_from_slice(part)?;
    }
    out.resize(2048, 0)?;
    Ok(out)
}

/// 12 at 0, and 1 less for each step away from it, down to 0.
fn fall(n: i16) -> i16 {
    12i16.saturating_sub(n.saturating_abs()).max(0)
}

/// An entry of one of the eight kernels.
fn entry(kernel: i16, u: i16, v: i16) -> [i16; 2] {
    if kernel == 0 {
        let peak = fall(u).saturating_mul(fall(v));
        return [peak.saturating_mul(8), 0];
    }
    if u.saturating_abs() <= 4 && v.saturating_abs() <= 4 {
        return [kernel.saturating_mul(u), kernel.saturating_mul(v)];
    }
    [0, 0]
}

/// The entries of a kernel of reach 40.
fn put_entries(out: &mut Vec<u8>, kernel: i16) -> Result<(), NoMemory> {
    for v in -40..41i16 {
        for u in -40..41i16 {
            let [re, im] = entry(kernel, u, v);
            out.extend_from_slice(&re.to_be_bytes())?;
            out.extend_from_slice(&im.to_be_bytes())?;
        }
    }
    Ok(())
}

/// A kernel file of eight kernels of reach 40: a peak of weight 8, and seven slopes of weight 1.
pub fn tool_kernels(alloc: Global) -> Result<Vec<u8>, NoMemory> {
    let mut out = b"OPK1\x00\x08\x00\x28".to_vec(alloc)?;
    for kernel in 0..8i16 {
        out.extend_from_slice(&[0, if kernel == 0 { 8 } else { 1 }])?;
        put_entries(&mut out, kernel)?;
    }
    Ok(out)
}
