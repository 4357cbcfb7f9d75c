//! Layouts of shapes and references, record by record.

use crate::files::OPENING;
use opc_base::NoMemory;
use std::alloc::Global;

/// A point in database units: x and y.
pub type Point = (i32, i32);

/// How a path is drawn: PATHTYPE, WIDTH, BGNEXTN and ENDEXTN.
#[derive(Clone, Copy)]
pub struct Line {
    pub ends: i16,
    pub width: i32,
    pub begin: i32,
    pub end: i32,
}

/// How a reference turns what it places: the reflection bit of STRANS, MAG and ANGLE.
#[derive(Clone, Copy)]
pub struct Turn {
    pub flip: bool,
    pub mag: Option<[u8; 8]>,
    pub angle: Option<[u8; 8]>,
}

/// Neither reflected, magnified nor turned.
pub const UPRIGHT: Turn = Turn {
    flip: false,
    mag: None,
    angle: None,
};

/// The real 90.
pub const NINETY: [u8; 8] = [0x42, 0x5a, 0, 0, 0, 0, 0, 0];

/// The real 180.
pub const HALF_TURN: [u8; 8] = [0x42, 0xb4, 0, 0, 0, 0, 0, 0];

/// The real 270.
pub const THREE_QUARTERS: [u8; 8] = [0x43, 0x10, 0xe0, 0, 0, 0, 0, 0];

/// The real 2.
pub const TWO: [u8; 8] = [0x41, 0x20, 0, 0, 0, 0, 0, 0];

/// A layout in the making. Its first structure is `TOP`, whose first element stands at offset 98; shapes are on layer 1,
/// datatype 0.
#[derive(Drop)]
pub struct Drawing {
    bytes: Vec<u8>,
}

impl Drawing {
    /// A layout whose structure `TOP` has no element yet.
    pub fn new(alloc: Global) -> Result<Drawing, NoMemory> {
        Ok(Drawing {
            bytes: OPENING.to_vec(alloc)?,
        })
    }

    /// Ends the structure, and begins one of this name, whose length is even.
    pub fn structure(&mut self, name: &[u8]) -> Result<(), NoMemory> {
        self.bytes.extend_from_slice(&[0, 4, 7, 0, 0, 28, 5, 2])?;
        self.bytes.extend_from_slice(&[0; 24])?;
        self.record([6, 6], name)
    }

    /// A BOUNDARY through these points.
    pub fn boundary(&mut self, points: &[Point]) -> Result<(), NoMemory> {
        self.shape(8, 14, points)
    }

    /// A BOUNDARY round a square, from its lower left.
    pub fn square(&mut self, x: i32, y: i32, side: i32) -> Result<(), NoMemory> {
        let (right, top) = (x.saturating_add(side), y.saturating_add(side));
        self.boundary(&[(x, y), (right, y), (right, top), (x, top), (x, y)])
    }

    /// A BOX through these points.
    pub fn box_shape(&mut self, points: &[Point]) -> Result<(), NoMemory> {
        self.shape(0x2d, 0x2e, points)
    }

    /// A PATH with all that says how it is drawn.
    pub fn path(&mut self, line: &Line, points: &[Point]) -> Result<(), NoMemory> {
        self.layer(9, 14)?;
        self.record([0x21, 2], &line.ends.to_be_bytes())?;
        self.record([0x0f, 3], &line.width.to_be_bytes())?;
        self.record([0x30, 3], &line.begin.to_be_bytes())?;
        self.record([0x31, 3], &line.end.to_be_bytes())?;
        self.points(points)
    }

    /// A PATH without WIDTH, and without what else says how it is drawn.
    pub fn bare_path(&mut self, points: &[Point]) -> Result<(), NoMemory> {
        self.shape(9, 14, points)
    }

    /// A TEXT that is magnified twice.
    pub fn large_text(&mut self) -> Result<(), NoMemory> {
        self.layer(0x0c, 0x16)?;
        self.record([0x1a, 1], &[0, 0])?;
        self.record([0x1b, 5], &TWO)?;
        self.bytes
            .extend_from_slice(&[0, 12, 16, 3, 0, 0, 0, 0, 0, 0, 0, 0])?;
        self.record([0x19, 6], b"hi")?;
        self.record([17, 0], &[])
    }

    /// A reference to one copy.
    pub fn copy(&mut self, name: &[u8], turn: Turn, at: Point) -> Result<(), NoMemory> {
        self.record([0x0a, 0], &[])?;
        self.turned(name, turn)?;
        self.points(&[at])
    }

    /// A reference to columns and rows of copies.
    pub fn array(
        &mut self,
        name: &[u8],
        turn: Turn,
        grid: (i16, i16),
        points: &[Point; 3],
    ) -> Result<(), NoMemory> {
        self.record([0x0b, 0], &[])?;
        self.turned(name, turn)?;
        self.bytes.extend_from_slice(&[0, 8, 0x13, 2])?;
        self.bytes.extend_from_slice(&grid.0.to_be_bytes())?;
        self.bytes.extend_from_slice(&grid.1.to_be_bytes())?;
        self.points(points)
    }

    /// The layout's bytes.
    pub fn end(self) -> Result<Vec<u8>, NoMemory> {
        let mut bytes = self.bytes;
        bytes.extend_from_slice(&[0, 4, 7, 0, 0, 4, 4, 0])?;
        Ok(bytes)
    }

    /// A record of this type and data type.
    fn record(&mut self, code: [u8; 2], body: &[u8]) -> Result<(), NoMemory> {
        let length = (body.len() % 65_000 + 4) as u16;
        self.bytes.extend_from_slice(&length.to_be_bytes())?;
        self.bytes.extend_from_slice(&code)?;
        self.bytes.extend_from_slice(body)?;
        Ok(())
    }

    /// The head of an element on layer 1, whose type 0 stands in a record of the second kind.
    fn layer(&mut self, kind: u8, type_kind: u8) -> Result<(), NoMemory> {
        self.bytes
            .extend_from_slice(&[0, 4, kind, 0, 0, 6, 13, 2, 0, 1])?;
        self.bytes.extend_from_slice(&[0, 6, type_kind, 2, 0, 0])?;
        Ok(())
    }

    fn shape(&mut self, kind: u8, type_kind: u8, points: &[Point]) -> Result<(), NoMemory> {
        self.layer(kind, type_kind)?;
        self.points(points)
    }

    /// What a reference names, and how it turns it.
    fn turned(&mut self, name: &[u8], turn: Turn) -> Result<(), NoMemory> {
        self.record([0x12, 6], name)?;
        let flip = if turn.flip { 0x80 } else { 0 };
        self.record([0x1a, 1], &[flip, 0])?;
        if let Some(mag) = turn.mag {
            self.record([0x1b, 5], &mag)?;
        }
        if let Some(angle) = turn.angle {
            self.record([0x1c, 5], &angle)?;
        }
        Ok(())
    }

    /// The points of an element, and its end.
    fn points(&mut self, points: &[Point]) -> Result<(), NoMemory> {
        let length = (points.len() % 8_192 * 8 + 4) as u16;
        self.bytes.extend_from_slice(&length.to_be_bytes())?;
        self.bytes.extend_from_slice(&[16, 3])?;
        for point in points {
            self.bytes.extend_from_slice(&point.0.to_be_bytes())?;
            self.bytes.extend_from_slice(&point.1.to_be_bytes())?;
        }
        self.record([17, 0], &[])
    }
}
