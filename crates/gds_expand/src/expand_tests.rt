//! Whole libraries, expanded.

use crate::stages::expand;
use gds_library::read_library;
use gds_model::PlaceFault;
use gds_records::put_record;
use opc_base::{Bytes, Name, NoMemory, Outline, Pick, Pix, Placed};
use std::alloc::Global;
use std::process::Abort;

/// HEADER, BGNLIB, LIBNAME and UNITS.
const HEAD: [u8; 62] = [
    0, 6, 0, 2, 2, 88, 0, 28, 1, 2, 0, 0, 0, 0, 0, 0, 0, 0, 0, 0, 0, 0, 0, 0, 0, 0, 0, 0, 0, 0, 0,
    0, 0, 0, 0, 8, 2, 6, 76, 73, 66, 0, 0, 20, 3, 5, 65, 16, 0, 0, 0, 0, 0, 0, 65, 16, 0, 0, 0, 0,
    0, 0,
];

/// A rectangle from (0, 0) to (3, 1) on layer 1: LAYER to ENDEL.
const RECTANGLE: [u8; 60] = [
    0, 6, 13, 2, 0, 1, 0, 6, 14, 2, 0, 0, 0, 44, 16, 3, 0, 0, 0, 0, 0, 0, 0, 0, 0, 0, 0, 3, 0, 0,
    0, 0, 0, 0, 0, 3, 0, 0, 0, 1, 0, 0, 0, 0, 0, 0, 0, 1, 0, 0, 0, 0, 0, 0, 0, 0, 0, 4, 17, 0,
];

/// What a layout is written to.
#[derive(Drop)]
struct Layout {
    alloc: Global,
    bytes: Bytes,
}

impl Layout {
    fn new(alloc: Global) -> Result<Layout, NoMemory> {
        let bytes = Bytes::from_vec(HEAD.to_vec(alloc)?);
        Ok(Layout { alloc, bytes })
    }

    fn begin(&mut self, name: u8) -> Result<(), NoMemory> {
        put_record(self.alloc, &mut self.bytes, 5, 2, &[0; 24])?;
        put_record(self.alloc, &mut self.bytes, 6, 6, &[name, 0])
    }

    fn begin_in_chain(&mut self, number: u16) -> Result<(), NoMemory> {
        put_record(self.alloc, &mut self.bytes, 5, 2, &[0; 24])?;
        put_record(self.alloc, &mut self.bytes, 6, 6, &name_in_chain(number))
    }

    fn end(&mut self) -> Result<(), NoMemory> {
        put_record(self.alloc, &mut self.bytes, 7, 0, &[])
    }

    fn rectangle(&mut self) -> Result<(), NoMemory> {
        put_record(self.alloc, &mut self.bytes, 8, 0, &[])?;
        self.bytes.append(&RECTANGLE)
    }

    /// A reference at the origin to a structure of a chain.
    fn link(&mut self, number: u16) -> Result<(), NoMemory> {
        put_record(self.alloc, &mut self.bytes, 10, 0, &[])?;
        put_record(self.alloc, &mut self.bytes, 18, 6, &name_in_chain(number))?;
        put_record(self.alloc, &mut self.bytes, 16, 3, &[0; 8])?;
        put_record(self.alloc, &mut self.bytes, 17, 0, &[])
    }

    /// A reference, with STRANS, ANGLE 90 and the x of its origin.
    fn turned(&mut self, name: u8, strans: u8, x: u8) -> Result<(), NoMemory> {
        put_record(self.alloc, &mut self.bytes, 10, 0, &[])?;
        put_record(self.alloc, &mut self.bytes, 18, 6, &[name, 0])?;
        put_record(self.alloc, &mut self.bytes, 26, 1, &[strans, 0])?;
        put_record(
            self.alloc,
            &mut self.bytes,
            28,
            5,
            &[66, 90, 0, 0, 0, 0, 0, 0],
        )?;
        put_record(
            self.alloc,
            &mut self.bytes,
            16,
            3,
            &[0, 0, 0, x, 0, 0, 0, 0],
        )?;
        put_record(self.alloc, &mut self.bytes, 17, 0, &[])
    }

    /// Two columns that are 10 apart, in two rows that are 20 apart.
    fn array(&mut self, name: u8) -> Result<(), NoMemory> {
        put_record(self.alloc, &mut self.bytes, 11, 0, &[])?;
        put_record(self.alloc, &mut self.bytes, 18, 6, &[name, 0])?;
        put_record(self.alloc, &mut self.bytes, 19, 2, &[0, 2, 0, 2])?;
        let points = [
            0, 0, 0, 0, 0, 0, 0, 0, 0, 0, 0, 20, 0, 0, 0, 0, 0, 0, 0, 0, 0, 0, 0, 40,
        ];
        put_record(self.alloc, &mut self.bytes, 16, 3, &points)?;
        put_record(self.alloc, &mut self.bytes, 17, 0, &[])
    }

    /// What T places on layer 1, with a pixel a database unit.
    fn expand(&mut self) -> Result<Placed, PlaceFault> {
        put_record(self.alloc, &mut self.bytes, 4, 0, &[])?;
        let Ok(library) = read_library(self.alloc, self.bytes.as_slice()) else {
            return Err(PlaceFault::NoMemory);
        };
        let pick = Pick {
            top: crate::tests::top(self.alloc)?,
            layer: 1,
            datatype: 0,
            grid: 1,
        };
        expand(self.alloc, &library, &pick)
    }
}

/// The first point of a polygon.
fn first_point(outline: &Outline) -> Option<(i32, i32)> {
    match outline {
        Outline::Polygon(points) => points.as_slice().first().map(|p| (p.x, p.y)),
        Outline::Path(_) => None,
    }
}

/// B is turned in A, and A flipped and turned in T: (x, y) goes to (5 - y, x), then to (10 + x, 5 - y).
#[test]
fn flips_and_turns(rt: HostRuntime) -> Result<(), PlaceFault> {
    let mut layout = Layout::new(rt.alloc())?;
    layout.begin(b'B')?;
    layout.rectangle()?;
    layout.end()?;
    layout.begin(b'A')?;
    layout.turned(b'B', 0, 5)?;
    layout.end()?;
    layout.begin(b'T')?;
    layout.turned(b'A', 128, 10)?;
    layout.end()?;
    let corners = [(10, 5), (13, 5), (13, 4), (10, 4), (10, 5)].map(|(x, y)| Pix { x, y });
    match layout.expand()?.outlines() {
        [Outline::Polygon(points)] => assert_eq!(rt; points.as_slice(), &corners[..]),
        _ => panic!(rt; "one polygon is placed"),
    }
    Ok(())
}

#[test]
fn goes_along_the_rows_of_an_array(rt: HostRuntime) -> Result<(), PlaceFault> {
    let mut layout = Layout::new(rt.alloc())?;
    layout.begin(b'T')?;
    layout.array(b'A')?;
    layout.end()?;
    layout.begin(b'A')?;
    layout.rectangle()?;
    layout.end()?;
    let placed = layout.expand()?;
    for (i, corner) in [(0, 0), (10, 0), (0, 20), (10, 20)].into_iter().enumerate() {
        assert_eq!(rt;
            placed.outlines().get(i).and_then(first_point),
            Some(corner)
        );
    }
    Ok(())
}

/// T and A, which reaches nothing of T, each with a cycle or without.
fn with_cycle(alloc: Global, from_top: bool) -> Result<Layout, NoMemory> {
    let mut layout = Layout::new(alloc)?;
    layout.begin(b'T')?;
    layout.rectangle()?;
    if from_top {
        layout.turned(b'B', 0, 0)?;
    }
    layout.end()?;
    for (name, other) in [(b'A', b'B'), (b'B', b'A')] {
        layout.begin(name)?;
        layout.turned(other, 0, 0)?;
        layout.end()?;
    }
    Ok(layout)
}

#[test]
fn finds_the_lowest_of_a_reached_cycle(rt: HostRuntime) -> Result<(), PlaceFault> {
    match with_cycle(rt.alloc(), true)?.expand() {
        Err(fault) => assert_eq!(rt; fault, PlaceFault::Cycle { structure: 1 }),
        Ok(_) => panic!(rt; "not refused"),
    }
    assert_eq!(rt;
        with_cycle(rt.alloc(), false)?.expand()?.outlines().len(),
        1
    );
    Ok(())
}

/// The structures of a long chain besides its top.
const OTHERS: u16 = 4_000;

fn name_in_chain(number: u16) -> [u8; 4] {
    let digits = number.to_be_bytes();
    [1, digits[0], digits[1], 1]
}

/// Structures of which each references the next. The last places a rectangle, and in a ring it references the second.
fn chain(alloc: Global, ring: bool) -> Result<Layout, NoMemory> {
    let mut layout = Layout::new(alloc)?;
    layout.begin(b'T')?;
    layout.link(0)?;
    layout.end()?;
    for number in 0..OTHERS {
        layout.begin_in_chain(number)?;
        if number + 1 < OTHERS {
            layout.link(number + 1)?;
        } else {
            layout.rectangle()?;
        }
        if ring && number + 1 == OTHERS {
            layout.link(0)?;
        }
        layout.end()?;
    }
    Ok(layout)
}

#[test]
fn follows_a_long_chain(rt: HostRuntime) -> Result<(), PlaceFault> {
    assert_eq!(rt; chain(rt.alloc(), false)?.expand()?.outlines().len(), 1);
    Ok(())
}

#[test]
fn finds_the_lowest_of_a_long_ring(rt: HostRuntime) -> Result<(), PlaceFault> {
    match chain(rt.alloc(), true)?.expand() {
        Err(fault) => assert_eq!(rt; fault, PlaceFault::Cycle { structure: 1 }),
        Ok(_) => panic!(rt; "not refused"),
    }
    Ok(())
}
