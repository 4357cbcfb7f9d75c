use crate::LayoutFault;
use crate::samples::{FULL, SQUARE};
use crate::tests::fault_of;
use opc_base::NoMemory;
use std::alloc::Global;
use std::process::Abort;
use std::test::Fail;

/// Where the records of the file with every optional record begin, and where it ends.
const STARTS: [u16; 93] = [
    0, 6, 34, 40, 46, 52, 60, 68, 76, 82, 88, 96, 100, 108, 114, 134, 162, 170, 176, 180, 186, 194,
    200, 206, 250, 256, 262, 268, 274, 278, 282, 288, 296, 302, 308, 314, 322, 330, 338, 358, 362,
    366, 372, 380, 386, 392, 436, 440, 444, 450, 458, 464, 470, 476, 482, 490, 496, 508, 520, 532,
    538, 542, 546, 552, 560, 566, 572, 584, 588, 592, 620, 626, 630, 636, 644, 650, 656, 668, 680,
    692, 696, 700, 706, 714, 720, 726, 738, 750, 758, 786, 790, 794, 798,
];

/// Whether the body of a record of this type may be two bytes longer: a text, a name, or one that isn't looked at.
fn is_free(kind: u8) -> bool {
    matches!(
        kind,
        2 | 6 | 18 | 25 | 31 | 32 | 34 | 35 | 38 | 43 | 44 | 47 | 52 | 54 | 55 | 57 | 58 | 59
    )
}

/// The bytes between two offsets.
fn part(file: &[u8], from: usize, to: usize) -> &[u8] {
    match file.get(from..to) {
        Some(bytes) => bytes,
        None => &[],
    }
}

/// The file with two more zero bytes in the body of the record between these offsets.
fn with_longer_body(alloc: Global, file: &[u8], start: u16, end: u16) -> Result<Vec<u8>, NoMemory> {
    let size = end.wrapping_sub(start).wrapping_add(2);
    let mut out = part(file, 0, usize::from(start)).to_vec(alloc)?;
    out.extend_from_slice(&size.to_be_bytes())?;
    out.extend_from_slice(part(file, usize::from(start) + 2, usize::from(end)))?;
    out.extend_from_slice(&[0, 0])?;
    out.extend_from_slice(part(file, usize::from(end), file.len()))?;
    Ok(out)
}

fn check_longer_body(
    rt: &impl Abort,
    alloc: Global,
    file: &[u8],
    start: u16,
    end: u16,
) -> Result<(), NoMemory> {
    let kind = part(file, usize::from(start) + 2, usize::from(start) + 3);
    let longer = with_longer_body(alloc, file, start, end)?;
    let offset = usize::from(start);
    let expected = match kind {
        [kind] if is_free(*kind) => None,
        _ => Some(LayoutFault::BadBody { offset }),
    };
    assert!(rt; fault_of(alloc, &longer) == expected, "record at {start}");
    Ok(())
}

#[test]
fn refuses_each_longer_body(rt: HostRuntime) -> Result<(), Fail> {
    for k in 0..92 {
        check_longer_body(&rt, rt.alloc(), &FULL, STARTS[k], STARTS[k + 1])?;
    }
    Ok(())
}

/// The file with another record type and data type at an offset.
fn with_code(alloc: Global, file: &[u8], at: usize, code: [u8; 2]) -> Result<Vec<u8>, NoMemory> {
    let mut changed = part(file, 0, at).to_vec(alloc)?;
    changed.extend_from_slice(&code)?;
    if at < file.len() {
        changed.extend_from_slice(part(file, at + 2, file.len()))?;
    }
    Ok(changed)
}

/// The record at this offset, with this record type and data type, is unexpected.
fn check_unexpected(
    rt: &impl Abort,
    alloc: Global,
    file: &[u8],
    offset: u16,
    code: [u8; 2],
) -> Result<(), NoMemory> {
    let offset = usize::from(offset);
    let changed = with_code(alloc, file, offset + 2, code)?;
    let kind = code[0];
    let expected = Some(LayoutFault::Unexpected { offset, kind });
    assert!(rt;
        fault_of(alloc, &changed) == expected,
        "record {kind} at {offset}"
    );
    Ok(())
}

#[test]
fn refuses_the_records_that_it_does_not_know(rt: HostRuntime) -> Result<(), Fail> {
    // SPACING, TEXTNODE, UINTEGER, USTRING, STYPTABLE, STRTYPE, ELKEY, LINKTYPE, LINKKEYS, TAPENUM, TAPECODE, RESERVED
    let refused: [[u8; 2]; 12] = [
        [24, 3],
        [20, 0],
        [29, 0],
        [30, 0],
        [36, 6],
        [37, 2],
        [39, 6],
        [40, 2],
        [41, 2],
        [50, 2],
        [51, 2],
        [61, 2],
    ];
    for code in refused {
        check_unexpected(&rt, rt.alloc(), &SQUARE, 102, code)?;
    }
    Ok(())
}

#[test]
fn refuses_what_an_element_does_not_go_on_with(rt: HostRuntime) -> Result<(), Fail> {
    // The first record after the one that begins each element becomes an ENDEL.
    for offset in [180, 282, 366, 444, 546, 630, 700] {
        check_unexpected(&rt, rt.alloc(), &FULL, offset, [17, 0])?;
    }
    Ok(())
}
