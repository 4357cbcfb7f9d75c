//! Kernel files by hand: what is read, and which fault comes first.
use super::KernelFault::{
    BadCount, BadEntry, BadMagic, BadReach, BadTransmission, BadWeight, WeightSum, WrongLength,
};
use super::{KernelFault, read_kernels};
use opc_base::Entry;
use std::alloc::{AllocError, Global};
use std::process::Abort;
use std::test::Fail;

/// A change of nothing: no file here has this place.
const NOWHERE: (usize, u16) = (1000, 0);

/// A file whose kernels are all equal: the magic, the numbers before the kernels, and for each kernel its weight and so
/// many parts of entries, all of them equal.
fn file_of(
    alloc: Global,
    magic: &[u8],
    head: &[u16],
    (count, weight): (u16, u16),
    (parts, part): (u32, u16),
) -> Result<Vec<u8>, AllocError> {
    let mut file = magic.to_vec(alloc)?;
    for number in head {
        file.extend_from_slice(&number.to_be_bytes())?;
    }
    for _ in 0..count {
        file.extend_from_slice(&weight.to_be_bytes())?;
        for _ in 0..parts {
            file.extend_from_slice(&part.to_be_bytes())?;
        }
    }
    Ok(file)
}

/// Writes a number at a place of the file.
fn put(rt: &impl Abort, file: &mut [u8], (place, number): (usize, u16)) {
    if place == NOWHERE.0 {
        return;
    }
    assert!(rt; place < file.len() && file.len() - place >= 2, "{place}");
    let [high, low] = number.to_be_bytes();
    file[place] = high;
    file[place + 1] = low;
}

/// What reading gives: how many kernels, or the fault.
fn outcome(alloc: Global, file: &[u8]) -> Result<usize, KernelFault> {
    let set = read_kernels(alloc, file)?;
    Ok(set.kernels.as_slice().len())
}

/// What reading gives after two changes of the file.
fn outcome_of(
    rt: &impl Abort,
    alloc: Global,
    file: &[u8],
    first: (usize, u16),
    second: (usize, u16),
) -> Result<Result<usize, KernelFault>, AllocError> {
    let mut file = file.to_vec(alloc)?;
    put(rt, &mut file, first);
    put(rt, &mut file, second);
    Ok(outcome(alloc, &file))
}

fn entry(re: i16, im: i16) -> Entry {
    Entry { re, im }
}

/// Rows from the lowest, each from the left, and the real part first.
#[test]
fn reads_each_number_at_its_place(rt: HostRuntime) -> Result<(), Fail> {
    let file = b"OPK2\x00\x01\x00\x01\x00\x08\xff\xf8\xff\xff\x00\x02\x08\x00\
        \x00\x01\xff\xff\x00\x02\xff\xfe\x00\x03\xff\xfd\
        \x00\x04\xff\xfc\x00\x05\xff\xfb\x00\x06\xff\xfa\
        \x00\x07\xff\xf9\x00\x08\xff\xf8\x00\x09\xff\xf7";
    let set = read_kernels(rt.alloc(), file)?;
    assert_eq!(rt;
        (set.reach, set.covered, set.uncovered),
        (1, entry(8, -8), entry(-1, 2))
    );
    let wanted = [
        entry(1, -1),
        entry(2, -2),
        entry(3, -3),
        entry(4, -4),
        entry(5, -5),
        entry(6, -6),
        entry(7, -7),
        entry(8, -8),
        entry(9, -9),
    ];
    for kernel in set.kernels.as_slice() {
        assert_eq!(rt; kernel.weight, 2048);
        assert_eq!(rt; kernel.entries.as_slice(), wanted.as_slice());
    }
    Ok(())
}

/// Two changes of a file, and what reading it gives then.
type Case = ((usize, u16), (usize, u16), Result<usize, KernelFault>);

/// In the first format the file has 84 bytes, and the kernels stand at 8 and at 46.
fn cases_of_first_format() -> [Case; 19] {
    [
        (NOWHERE, NOWHERE, Ok(2)),
        ((0, 0x4f51), (4, 0), Err(BadMagic)),
        ((2, 0x4b33), NOWHERE, Err(BadMagic)),
        ((2, 0x4b32), NOWHERE, Err(WrongLength)),
        ((4, 0), (6, 65), Err(BadCount)),
        ((4, 17), NOWHERE, Err(BadCount)),
        ((4, 16), NOWHERE, Err(WrongLength)),
        ((6, 65), (8, 0), Err(BadReach)),
        ((6, 64), NOWHERE, Err(WrongLength)),
        ((4, 1), (8, 0), Err(WrongLength)),
        ((8, 0), (46, 0), Err(BadWeight { kernel: 0 })),
        ((46, 0), (82, 2049), Err(BadWeight { kernel: 1 })),
        ((44, 2049), (46, 0), Err(BadEntry { offset: 44 })),
        ((10, 2049), (12, 2049), Err(BadEntry { offset: 10 })),
        ((12, 0xf7ff), (14, 2049), Err(BadEntry { offset: 12 })),
        ((8, 1025), (82, 2049), Err(BadEntry { offset: 82 })),
        ((8, 1025), (82, 2048), Err(WeightSum)),
        ((8, 65535), (46, 65535), Err(WeightSum)),
        ((10, 2048), (82, 0xf800), Ok(2)),
    ]
}

/// In the second format it has 92 bytes, and the kernels stand at 16 and at 54.
fn cases_of_second_format() -> [Case; 12] {
    [
        (NOWHERE, NOWHERE, Ok(2)),
        ((2, 0x4b31), NOWHERE, Err(WrongLength)),
        ((4, 1), (8, 9), Err(WrongLength)),
        ((8, 9), (14, 9), Err(BadTransmission { offset: 8 })),
        ((10, 0xfff7), (16, 0), Err(BadTransmission { offset: 10 })),
        ((12, 9), (18, 129), Err(BadTransmission { offset: 12 })),
        ((14, 0x8000), NOWHERE, Err(BadTransmission { offset: 14 })),
        ((18, 129), (54, 0), Err(BadEntry { offset: 18 })),
        ((54, 0), (90, 0xff7f), Err(BadWeight { kernel: 1 })),
        ((16, 2048), (90, 0xff7f), Err(BadEntry { offset: 90 })),
        ((16, 2048), (90, 0xff80), Err(WeightSum)),
        ((8, 8), (14, 0xfff8), Ok(2)),
    ]
}

fn judge(rt: &impl Abort, alloc: Global, file: &[u8], cases: &[Case]) -> Result<(), AllocError> {
    for (first, second, wanted) in cases {
        let found = outcome_of(rt, alloc, file, *first, *second)?;
        assert_eq!(rt; found, *wanted, "{first:?} {second:?}");
    }
    Ok(())
}

/// Two kernels of reach 1.
#[test]
fn refuses_the_first_fault(rt: HostRuntime) -> Result<(), Fail> {
    let alloc = rt.alloc();
    let file = file_of(alloc, b"OPK1", &[2, 1], (2, 1024), (18, 1))?;
    judge(&rt, alloc, &file, &cases_of_first_format())?;
    let file = file_of(alloc, b"OPK2", &[2, 1, 2, 0, 0, 1], (2, 1024), (18, 1))?;
    judge(&rt, alloc, &file, &cases_of_second_format())?;
    Ok(())
}

/// 16 kernels of reach 64 have 1,065,064 bytes, and in the second format 1,065,072.
#[test]
fn reads_no_other_length(rt: HostRuntime) -> Result<(), Fail> {
    let head = b"OPK2\x00\x00\x00\x00\x00\x00\x00\x00\x00\x00\x00\x00";
    for (length, wanted) in [
        (0, KernelFault::BadMagic),
        (3, KernelFault::BadMagic),
        (4, KernelFault::WrongLength),
        (15, KernelFault::WrongLength),
        (16, KernelFault::BadCount),
    ] {
        assert_eq!(rt;
            outcome(rt.alloc(), &head[..length]),
            Err(wanted),
            "{length}"
        );
    }
    let mut file = file_of(rt.alloc(), b"OPK1", &[16, 64], (16, 128), (33282, 2048))?;
    assert_eq!(rt; (file.len(), outcome(rt.alloc(), &file)), (1065064, Ok(16)));
    for _ in 0..8 {
        file.push(0)?;
        assert_eq!(rt; outcome(rt.alloc(), &file), Err(KernelFault::WrongLength));
    }
    let file = file_of(
        rt.alloc(),
        b"OPK2",
        &[16, 64, 8, 8, 8, 8],
        (16, 128),
        (33282, 128),
    )?;
    assert_eq!(rt; (file.len(), outcome(rt.alloc(), &file)), (1065072, Ok(16)));
    let file = file_of(rt.alloc(), b"OPK1", &[1, 0], (1, 1), (2, 0))?;
    assert_eq!(rt; (file.len(), outcome(rt.alloc(), &file)), (14, Ok(1)));
    Ok(())
}
