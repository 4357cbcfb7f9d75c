//! The element that is being read.
ghost use Rattle.std.specs.Prelude.{◌≡◌, IfOk};
ghost use Rattle.gds_model.specs.Elements.{points_in};

use crate::names::name_in;
use crate::numbers::{grid_of, real_in, signed_four_in, signed_two_in, unsigned_in};
use gds_model::{Element, Grid, Points, RecordKind, Reference, Shape, ShapeKind};
use gds_records::point_at;
use opc_base::{Name, NoMemory};
use std::alloc::Global;

/// What the records of an element have said so far. An absent number is 0, an absent text is empty. The name and the points
/// are the bodies of SNAME and XY.
#[derive(Clone, Copy, Debug)]
pub struct OpenElement<'a> {
    pub kind: Option<RecordKind>,
    pub offset: usize,
    pub layer: u16,
    pub datatype: u16,
    pub box_type: u16,
    pub ends: i16,
    pub width: i32,
    pub begin: i32,
    pub end: i32,
    pub name: &'a [u8],
    pub flip: bool,
    pub mag: Option<[u8; 8]>,
    pub angle: Option<[u8; 8]>,
    pub array: Option<Grid>,
    pub points: &'a [u8],
}

impl<'a> OpenElement<'a> {
    ghost use Rattle.std.specs.Prelude.{◌≡◌, ℕ, true, List, [], ◌∷◌, IfOk, option_to_list};
    ghost use Rattle.gds_records.specs.Records.{StreamRecord};
    ghost use Rattle.gds_model.specs.RecordKind.{code_of};
    ghost use Rattle.gds_model.specs.Body.{body_of_kind, element_kinds, is_one_of};
    ghost use Rattle.gds_model.specs.Names.{name_of};
    ghost use Rattle.gds_model.specs.Elements.{elements_in};
    ghost use Rattle.gds_library.specs.OpenElement.{Holds, Takes, has_size};

    /// Before the first record of an element.
    pub fn new() -> OpenElement<'a>
        ensures { Holds result [] }
    {
        OpenElement {
            kind: None,
            offset: 0,
            layer: 0,
            datatype: 0,
            box_type: 0,
            ends: 0,
            width: 0,
            begin: 0,
            end: 0,
            name: &[],
            flip: false,
            mag: None,
            angle: None,
            array: None,
            points: &[],
        }
    }

    /// After the first record of an element.
    pub fn begin(kind: RecordKind, offset: usize) -> OpenElement<'a>
        requires { is_one_of element_kinds (code_of kind) ≡ true }
        ensures { (body : List ℕ) → Holds result (record { offset = offset; code = code_of kind; body = body } ∷ []) }
    {
        OpenElement {
            kind: Some(kind),
            offset,
            ..OpenElement::new()
        }
    }

    /// Takes a further record of the element.
    #[tactic(auto, using(crate::proofs::Firsts::not_one_of))]
    pub fn take(&mut self, kind: RecordKind, body: &'a [u8])
        requires { has_size (body_of_kind kind) body.now ≡ true }
        ensures { Takes self.old (code_of kind) body.now self.new }
    {
        match kind {
            RecordKind::Layer => self.layer = unsigned_in(body),
            RecordKind::Datatype => self.datatype = unsigned_in(body),
            RecordKind::BoxType => self.box_type = unsigned_in(body),
            RecordKind::PathType => self.ends = signed_two_in(body),
            RecordKind::Width => self.width = signed_four_in(body),
            RecordKind::BgnExtn => self.begin = signed_four_in(body),
            RecordKind::EndExtn => self.end = signed_four_in(body),
            RecordKind::Sname => self.name = body,
            RecordKind::Strans => self.flip = body[0] >= 128,
            RecordKind::Mag => self.mag = Some(real_in(body)),
            RecordKind::Angle => self.angle = Some(real_in(body)),
            RecordKind::ColRow => self.array = Some(grid_of(body)),
            RecordKind::Xy => self.points = body,
            _ => {}
        }
    }

    /// The shape or the reference that the records have given, or `None` for a TEXT or a NODE.
    pub fn close(&self, alloc: Global) -> Result<Option<Element>, NoMemory>
        ensures { (rs : List StreamRecord) → Holds self.now rs → IfOk result (λ found. option_to_list found ≡ elements_in rs) }
    {
        let Some(kind) = self.kind else {
            return Ok(None);
        };
        match kind {
            RecordKind::Boundary => {
                let shape = self.shape(alloc, ShapeKind::Boundary, self.datatype)?;
                Ok(Some(Element::Shape(shape)))
            }
            RecordKind::Path => {
                let form = ShapeKind::Path {
                    ends: self.ends,
                    width: self.width,
                    begin: self.begin,
                    end: self.end,
                };
                let shape = self.shape(alloc, form, self.datatype)?;
                Ok(Some(Element::Shape(shape)))
            }
            RecordKind::Box => {
                let shape = self.shape(alloc, ShapeKind::Box, self.box_type)?;
                Ok(Some(Element::Shape(shape)))
            }
            RecordKind::Sref | RecordKind::Aref => {
                let reference = self.reference(alloc)?;
                Ok(Some(Element::Reference(reference)))
            }
            _ => Ok(None),
        }
    }

    fn shape(&self, alloc: Global, kind: ShapeKind, datatype: u16) -> Result<Shape, NoMemory>
        ensures { IfOk result (λ shape. shape ≡ record {
          offset = self.now.offset;
          kind = kind;
          layer = self.now.layer;
          datatype = datatype;
          points = points_in self.now.points.now;
        }) }
    {
        Ok(Shape {
            offset: self.offset,
            kind,
            layer: self.layer,
            datatype,
            points: points_of_body(alloc, self.points)?,
        })
    }

    fn reference(&self, alloc: Global) -> Result<Reference, NoMemory>
        ensures { IfOk result (λ reference. reference ≡ record {
          offset = self.now.offset;
          name = name_of self.now.name.now;
          flip = self.now.flip;
          mag = self.now.mag;
          angle = self.now.angle;
          array = self.now.array;
          points = points_in self.now.points.now;
        }) }
    {
        let name = Name::from_vec(name_in(self.name).to_vec(alloc)?);
        Ok(Reference {
            offset: self.offset,
            name,
            flip: self.flip,
            mag: self.mag,
            angle: self.angle,
            array: self.array,
            points: points_of_body(alloc, self.points)?,
        })
    }
}

/// The points in the body of an XY record.
fn points_of_body(alloc: Global, body: &[u8]) -> Result<Points, NoMemory>
    ensures { IfOk result (λ points. points ≡ points_in body.now) }
{
    let count = body.len() / 8;
    let mut points = Vec::with_capacity(alloc, count)?;
    for i in 0..count {
        points.push(point_at(body, i))?;
    }
    Ok(Points::from_vec(points))
}
