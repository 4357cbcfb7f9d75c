//! The library that is being read.
ghost use Rattle.std.specs.Prelude.{◌≡◌, true, List, IfOk, OnOk};
ghost use Rattle.gds_records.specs.Records.{StreamRecord};
ghost use Rattle.gds_model.specs.RecordKind.{code_of};
ghost use Rattle.gds_model.specs.Names.{name_of};
ghost use Rattle.gds_model.specs.Body.{body_of_kind};
ghost use Rattle.gds_library.specs.OpenElement.{has_size, Holds};

use crate::body::is_element;
use crate::names::name_in;
use crate::open_element::OpenElement;
use gds_model::{Element, Elements, RecordKind, Structure};
use gds_records::{Head, Record};
use opc_base::{Bytes, Name, NoMemory};
use std::alloc::Global;
use std::mem;

/// The library so far: the head, the closed structures, the name and the elements of the open one, and the open element.
#[derive(Drop)]
pub struct Draft<'a> {
    pub head: Head,
    pub structures: Vec<Structure>,
    pub name: Name,
    pub elements: Vec<Element>,
    pub element: OpenElement<'a>,
}

impl<'a> Draft<'a> {
    ghost use Rattle.gds_library.specs.Gathered.{Gathered, nothing_gathered, with_record, with_element, with_structure};
    ghost use Rattle.gds_library.specs.Draft.{HoldsGathered};

    /// Before the first record.
    pub fn new(alloc: Global) -> Draft<'a>
        ensures { HoldsGathered result nothing_gathered }
    {
        Draft {
            head: Head {
                header: Bytes::from_vec(Vec::new(alloc)),
                dates: Bytes::from_vec(Vec::new(alloc)),
                name: Bytes::from_vec(Vec::new(alloc)),
                units: Bytes::from_vec(Vec::new(alloc)),
            },
            structures: Vec::new(alloc),
            name: Name::from_vec(Vec::new(alloc)),
            elements: Vec::new(alloc),
            element: OpenElement::new(),
        }
    }

    /// Takes the next record.
    #[tactic(auto, using(crate::proofs::Firsts::not_one_of))]
    pub fn take(
        &mut self,
        alloc: Global,
        kind: RecordKind,
        record: &Record<'a>,
    ) -> Result<(), NoMemory>
        requires { has_size (body_of_kind kind) «record».now.body.now ≡ true }
        ensures { (g : Gathered) → HoldsGathered self.old g
            → OnOk result (HoldsGathered self.new (with_record g (record { offset = «record».now.offset; code = code_of kind; body = «record».now.body.now }))) }
    {
        if is_element(kind) {
            self.element = OpenElement::begin(kind, record.offset);
            return Ok(());
        }
        match kind {
            RecordKind::Header => {
                self.head.header = bytes_of_body(alloc, record.body)?;
                Ok(())
            }
            RecordKind::BgnLib => {
                self.head.dates = bytes_of_body(alloc, record.body)?;
                Ok(())
            }
            RecordKind::LibName => {
                self.head.name = bytes_of_body(alloc, record.body)?;
                Ok(())
            }
            RecordKind::Units => {
                self.head.units = bytes_of_body(alloc, record.body)?;
                Ok(())
            }
            RecordKind::BgnStr => {
                self.elements = Vec::new(alloc);
                Ok(())
            }
            RecordKind::StrName => {
                self.name = name_of_body(alloc, record.body)?;
                Ok(())
            }
            RecordKind::EndStr => self.close_structure(alloc),
            RecordKind::EndEl => self.close_element(alloc),
            RecordKind::EndLib => Ok(()),
            _ => {
                self.element.take(kind, record.body);
                Ok(())
            }
        }
    }

    /// Adds the open structure to the library.
    fn close_structure(&mut self, alloc: Global) -> Result<(), NoMemory>
        ensures { (g : Gathered) → HoldsGathered self.old g → OnOk result (HoldsGathered self.new (with_structure g)) }
    {
        let name = mem::replace(&mut self.name, Name::from_vec(Vec::new(alloc)));
        let elements = mem::replace(&mut self.elements, Vec::new(alloc));
        self.structures.push(Structure {
            name,
            elements: Elements::from_vec(elements),
        })?;
        Ok(())
    }

    /// Adds the open element to its structure, unless it is a TEXT or a NODE.
    fn close_element(&mut self, alloc: Global) -> Result<(), NoMemory>
        ensures { (g : Gathered) (rs : List StreamRecord) → HoldsGathered self.old g → Holds self.old.element rs
            → OnOk result (HoldsGathered self.new (with_element g rs)) }
    {
        if let Some(element) = self.element.close(alloc)? {
            self.elements.push(element)?;
        }
        Ok(())
    }
}

/// A copy of a body.
fn bytes_of_body(alloc: Global, body: &[u8]) -> Result<Bytes, NoMemory>
    ensures { IfOk result (λ bytes. bytes ≡ body.now) }
{
    Ok(Bytes::from_vec(body.to_vec(alloc)?))
}

/// A copy of the name in a body.
fn name_of_body(alloc: Global, body: &[u8]) -> Result<Name, NoMemory>
    ensures { IfOk result (λ name. name ≡ name_of body.now) }
{
    Ok(Name::from_vec(name_in(body).to_vec(alloc)?))
}
