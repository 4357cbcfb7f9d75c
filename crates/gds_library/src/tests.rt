use crate::samples::{FULL, SQUARE, SQUARE_STARTS};
use crate::{Element, LayoutFault, Library, ShapeKind, read_library};
use gds_records::put_record;
use opc_base::{Bytes, Name, NoMemory};
use std::alloc::Global;
use std::test::Fail;

/// The fault of a file, if it has one.
pub fn fault_of(alloc: Global, bytes: &[u8]) -> Option<LayoutFault> {
    match read_library(alloc, bytes) {
        Ok(_) => None,
        Err(fault) => Some(fault),
    }
}

/// Offset, layer, datatype and number of points of the last shape of the first structure.
fn last_shape(library: &Library) -> (usize, u16, u16, usize) {
    let mut answer = (0, 0, 0, 0);
    if library.count() > 0 {
        for element in library.structure(0).elements.as_slice() {
            if let Element::Shape(shape) = element {
                answer = (
                    shape.offset,
                    shape.layer,
                    shape.datatype,
                    shape.points.as_slice().len(),
                );
            }
        }
    }
    answer
}

/// What the paths of the first structure are.
fn last_path(library: &Library) -> ShapeKind {
    let mut answer = ShapeKind::Box;
    if library.count() > 0 {
        for element in library.structure(0).elements.as_slice() {
            if let Element::Shape(shape) = element {
                if let ShapeKind::Path { .. } = shape.kind {
                    answer = shape.kind;
                }
            }
        }
    }
    answer
}

#[test]
fn reads_the_square(rt: HostRuntime) -> Result<(), Fail> {
    let library = read_library(rt.alloc(), &SQUARE)?;
    assert_eq!(rt; library.count(), 1);
    assert_eq!(rt; last_shape(&library), (98, 1, 0, 5));
    Ok(())
}

#[test]
fn finds_each_cut_of_the_square(rt: HostRuntime) {
    for n in 0..170 {
        let mut start = 0;
        for s in SQUARE_STARTS {
            if s <= n {
                start = s;
            }
        }
        assert_eq!(rt;
            fault_of(rt.alloc(), &SQUARE[..n]),
            Some(LayoutFault::Cut { offset: start })
        );
    }
}

#[test]
fn reads_every_optional_record(rt: HostRuntime) -> Result<(), Fail> {
    let library = read_library(rt.alloc(), &FULL)?;
    assert_eq!(rt; library.count(), 2);
    assert_eq!(rt; last_shape(&library), (362, 1, 7, 5));
    let kind = ShapeKind::Path {
        ends: 4,
        width: -6,
        begin: -1,
        end: 2,
    };
    assert_eq!(rt; last_path(&library), kind);
    Ok(())
}

/// A library of empty structures with these names.
fn library_with(alloc: Global, names: &[[u8; 4]]) -> Result<Bytes, NoMemory> {
    let mut out = Bytes::from_vec(SQUARE[..62].to_vec(alloc)?);
    for name in names {
        put_record(alloc, &mut out, 5, 2, &[0; 24])?;
        put_record(alloc, &mut out, 6, 6, name)?;
        put_record(alloc, &mut out, 7, 0, &[])?;
    }
    put_record(alloc, &mut out, 4, 0, &[])?;
    Ok(out)
}

#[test]
fn compares_names_without_their_padding(rt: HostRuntime) -> Result<(), Fail> {
    let twice = library_with(rt.alloc(), &[[65, 66, 0, 0], [67, 0, 0, 0], [65, 66, 0, 0]])?;
    assert_eq!(rt;
        fault_of(rt.alloc(), twice.as_slice()),
        Some(LayoutFault::Duplicate { offset: 170 })
    );
    Ok(())
}

#[test]
fn finds_a_structure_by_its_name(rt: HostRuntime) -> Result<(), Fail> {
    let file = library_with(rt.alloc(), &[[65, 0, 0, 0], [65, 66, 67, 0]])?;
    let library = read_library(rt.alloc(), file.as_slice())?;
    let name = Name::from_vec([65, 66, 67].to_vec(rt.alloc())?);
    assert_eq!(rt; library.number_of(&name), Some(1));
    Ok(())
}

/// A name of 204 bytes that differs from others of its kind near its end alone.
fn long_name(number: u16) -> [u8; 204] {
    let digits = number.to_be_bytes();
    let mut name = [65; 204];
    name[201] = digits[0];
    name[202] = digits[1];
    name
}

#[test]
fn finds_names_of_one_long_prefix(rt: HostRuntime) -> Result<(), Fail> {
    let mut out = Bytes::from_vec(SQUARE[..62].to_vec(rt.alloc())?);
    for number in 0u16..4_000 {
        put_record(rt.alloc(), &mut out, 5, 2, &[0; 24])?;
        put_record(rt.alloc(), &mut out, 6, 6, &long_name(number))?;
        put_record(rt.alloc(), &mut out, 7, 0, &[])?;
    }
    put_record(rt.alloc(), &mut out, 4, 0, &[])?;
    let library = read_library(rt.alloc(), out.as_slice())?;
    for number in [0u16, 1, 2_047, 3_999] {
        let name = Name::from_vec(long_name(number).to_vec(rt.alloc())?);
        assert_eq!(rt; library.number_of(&name), Some(u32::from(number)));
    }
    let none = Name::from_vec(long_name(4_000).to_vec(rt.alloc())?);
    assert_eq!(rt; library.number_of(&none), None);
    Ok(())
}

#[test]
fn refuses_the_structure_after_the_last(rt: HostRuntime) -> Result<(), Fail> {
    let mut out = Bytes::from_vec(SQUARE[..62].to_vec(rt.alloc())?);
    for number in 0u32..65_536 {
        let digits = number.to_be_bytes();
        put_record(rt.alloc(), &mut out, 5, 2, &[0; 24])?;
        put_record(
            rt.alloc(),
            &mut out,
            6,
            6,
            &[1, 1, 1, 1, digits[2], digits[3], 1, 1],
        )?;
        put_record(rt.alloc(), &mut out, 7, 0, &[])?;
    }
    let expected = LayoutFault::TooManyStructures { offset: 2_883_602 };
    assert_eq!(rt; fault_of(rt.alloc(), out.as_slice()), Some(expected));
    Ok(())
}

#[test]
fn takes_zero_bytes_alone_after_the_end(rt: HostRuntime) -> Result<(), Fail> {
    let mut out = Bytes::from_vec(SQUARE.to_vec(rt.alloc())?);
    out.append(&[0, 0, 0, 0, 9, 0])?;
    assert_eq!(rt;
        fault_of(rt.alloc(), out.as_slice()),
        Some(LayoutFault::Trailing { offset: 174 })
    );
    Ok(())
}
