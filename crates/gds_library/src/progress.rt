//! How far a file has been read, and what that says of the next record.
ghost use Rattle.std.specs.Prelude.{◌≡◌, ◌≤◌, ◌+◌, ◌++◌, ◌&&◌, if◌then◌else◌, false, ℕ, List, [], ◌∷◌, nat_le, OnOk};
ghost use Rattle.gds_records.specs.Records.{StreamRecord};
ghost use Rattle.gds_records.specs.NextRecord.{seen};
ghost use Rattle.gds_model.specs.declared.record_kind.RecordKind.TheVariants as kinds;
ghost use Rattle.gds_model.specs.RecordKind.{code_of};
ghost use Rattle.gds_model.specs.Names.{name_of};
ghost use Rattle.gds_model.specs.Body.{element_code, element_kinds, is_one_of};
ghost use Rattle.gds_library.specs.Texts.{has_name};

use crate::body::{is_body_fit, is_element};
use crate::codes::kind_of;
use crate::name_numbers::NameNumbers;
use crate::names::name_in;
use crate::state::State;
use gds_model::{LayoutFault, RecordKind};
use gds_records::Record;
use opc_base::NoMemory;
use std::alloc::Global;

/// The most structures that a layout may have.
pub const MAX_STRUCTURES: u32 = 65_535;

/// How far a file has been read: the place in the grammar, the number of BGNSTRs, the element that was begun last, and the
/// names of all structures in file order.
#[derive(Drop)]
pub struct Progress {
    pub state: State,
    pub structures: u32,
    pub element: Option<RecordKind>,
    pub names: NameNumbers,
}

impl Progress {
    ghost use Rattle.gds_library.specs.Progress.{Follows, Judges, Advances, names_read};

    /// At the start of a file.
    pub fn new(alloc: Global) -> Progress
        ensures { Follows result [] }
    {
        Progress {
            state: State::Start,
            structures: 0,
            element: None,
            names: NameNumbers::new(alloc),
        }
    }

    /// The kind of the next record and the state after it, or what is wrong with the record.
    pub fn judge(&self, record: &Record) -> Result<(RecordKind, State), LayoutFault>
        ensures { (before : List StreamRecord) → Follows self.now before → Judges before (seen «record».now) self.now result }
    {
        let offset = record.offset;
        let unexpected = LayoutFault::Unexpected {
            offset,
            kind: record.kind,
        };
        let Some(kind) = kind_of(record.kind, record.data_type) else {
            return Err(unexpected);
        };
        let Some(state) = self.state.step(kind) else {
            return Err(unexpected);
        };
        if self.is_one_too_many(kind) {
            return Err(LayoutFault::TooManyStructures { offset });
        }
        if !is_body_fit(kind, self.element, record.body) {
            return Err(LayoutFault::BadBody { offset });
        }
        if self.is_duplicate(kind, record.body) {
            return Err(LayoutFault::Duplicate { offset });
        }
        Ok((kind, state))
    }

    /// Whether the record begins a structure after the last that a layout may have.
    #[tactic(auto, using(crate::proofs::Firsts::not_one_of))]
    fn is_one_too_many(&self, kind: RecordKind) -> bool
        ensures { (is_one_of (kinds.BgnStr ∷ []) (code_of kind) && nat_le 65535 self.now.structures) ≡ result }
    {
        match kind {
            RecordKind::BgnStr => self.structures >= MAX_STRUCTURES,
            _ => false,
        }
    }

    /// Whether the record names a structure as an earlier one is named.
    #[tactic(auto, using(crate::proofs::Firsts::not_one_of))]
    fn is_duplicate(&self, kind: RecordKind, body: &[u8]) -> bool
        ensures { (is_one_of (kinds.StrName ∷ []) (code_of kind) && has_name (names_read self.now) (name_of body.now)) ≡ result }
    {
        match kind {
            RecordKind::StrName => self.names.number_of(name_in(body)).is_some(),
            _ => false,
        }
    }

    /// Goes past a record of this kind, with this body and this state after it.
    pub fn advance(
        &mut self,
        alloc: Global,
        kind: RecordKind,
        state: State,
        body: &[u8],
    ) -> Result<(), NoMemory>
        requires few { self.old.structures ≤ 65535 }
        requires another { (is_one_of (kinds.StrName ∷ []) (code_of kind) && has_name (names_read self.old) (name_of body.now)) ≡ false }
        ensures { OnOk result (Advances self.old kind state body.now self.new) }
    {
        add_name(alloc, &mut self.names, kind, body)?;
        self.structures = self.structures_after(kind);
        self.element = self.element_after(kind);
        self.state = state;
        Ok(())
    }

    /// The number of structures begun, with this record.
    #[tactic(auto, using(crate::proofs::Firsts::not_one_of))]
    fn structures_after(&self, kind: RecordKind) -> u32
        requires { self.now.structures ≤ 65535 }
        ensures { result ≡ self.now.structures + (if is_one_of (kinds.BgnStr ∷ []) (code_of kind) then 1 else 0) }
    {
        match kind {
            RecordKind::BgnStr => self.structures + 1,
            _ => self.structures,
        }
    }

    /// The element that was begun last, with this record.
    fn element_after(&self, kind: RecordKind) -> Option<RecordKind>
        ensures { element_code result ≡ (if is_one_of element_kinds (code_of kind) then code_of kind else element_code self.now.element) }
    {
        if is_element(kind) {
            Some(kind)
        } else {
            self.element
        }
    }
}

/// Adds the name of a STRNAME to the names.
#[tactic(auto, using(crate::proofs::Firsts::not_one_of))]
fn add_name(
    alloc: Global,
    names: &mut NameNumbers,
    kind: RecordKind,
    body: &[u8],
) -> Result<(), NoMemory>
    requires { (is_one_of (kinds.StrName ∷ []) (code_of kind) && has_name (names.old) (name_of body.now)) ≡ false }
    ensures { OnOk result (names.new ≡ names.old ++ (if is_one_of (kinds.StrName ∷ []) (code_of kind) then name_of body.now ∷ [] else [])) }
{
    match kind {
        RecordKind::StrName => {
            names.push(name_in(body).to_vec(alloc)?)?;
        }
        _ => {}
    }
    Ok(())
}
