//! Reading a layout, record after record.
ghost use Rattle.std.specs.Prelude.{◌≡◌, ◌≤◌, ◌⊎◌, length, MatchResult, IfOk, IfErr, IsOk, IsErrOf, OnOk};
ghost use Rattle.gds_model.specs.declared.layout_fault.LayoutFault.{LayoutFault as Fault};
ghost use Rattle.gds_model.specs.declared.layout_fault.LayoutFault.TheVariants as fault;
ghost use Rattle.gds_model.specs.Faults.{HasNoFault, IsFault, IsTrailingFrom, AllZeroFrom};
ghost use Rattle.gds_model.specs.Library.{IsLibraryOf, IsLayout};
ghost use Rattle.gds_records.specs.Records.{AreLongest, records_from};

use crate::draft::Draft;
use crate::library::Library;
use crate::progress::Progress;
use gds_model::{LayoutFault, RecordKind};
use gds_records::{Next, next_record};
use std::alloc::Global;

/// Reads a layout: its library, or the first fault in file order. Either is that of the file's records, which are the
/// longest list of records that stands in it. The bytes are read once; a body that isn't part of the library isn't copied.
pub fn read_library(alloc: Global, bytes: &[u8]) -> Result<Library, LayoutFault>
    ensures library { IfOk result (λ described. IsLibraryOf bytes.now described) }
    ensures layout { IfOk result (λ described. IsLayout described) }
    ensures fine { OnOk result (HasNoFault bytes.now) }
    ensures fault { IfErr result (λ e. (e ≡ fault.NoMemory) ⊎ IsFault bytes.now e) }
    ensures reads { HasNoFault bytes.now → IsOk result ⊎ IsErrOf result fault.NoMemory }
    ensures refuses { (e : Fault) → IsFault bytes.now e → IsErrOf result e ⊎ IsErrOf result fault.NoMemory }

    // of all bytes
    ensures records { AreLongest bytes.now 0 (records_from bytes.now 0) }
{
    read_records(alloc, bytes)
}

/// Reads record after record, up to ENDLIB or a fault.
fn read_records(alloc: Global, bytes: &[u8]) -> Result<Library, LayoutFault>
    ensures read { IfOk result (λ described. HasNoFault bytes.now × IsLibraryOf bytes.now described × IsLayout described) }
    ensures fault { IfErr result (λ e. (e ≡ fault.NoMemory) ⊎ IsFault bytes.now e) }
{
    let mut at = 0;
    let mut progress = Progress::new(alloc);
    let mut draft = Draft::new(alloc);
    loop {
        let record = match next_record(bytes, at) {
            Next::Record(record) => record,
            Next::End => return Err(LayoutFault::Cut { offset: at }),
            Next::Cut { offset } => return Err(LayoutFault::Cut { offset }),
            Next::BadLength { offset } => return Err(LayoutFault::BadLength { offset }),
        };
        let (kind, state) = progress.judge(&record)?;
        draft.take(alloc, kind, &record)?;
        progress.advance(alloc, kind, state, record.body)?;
        at += 4 + record.body.len();
        if let RecordKind::EndLib = kind {
            check_rest(bytes, at)?;
            return Ok(Library::from_parts(draft.head, draft.structures, progress.names));
        }
    }
}

/// Whether nothing but zero bytes follows.
fn check_rest(bytes: &[u8], at: usize) -> Result<(), LayoutFault>
    requires { at ≤ length bytes.now }
    ensures { MatchResult result (λ _. AllZeroFrom bytes.now at) (λ fault. IsTrailingFrom bytes.now at fault) }
{
    for i in at..bytes.len() {
        if bytes[i] != 0 {
            return Err(LayoutFault::Trailing { offset: i });
        }
    }
    Ok(())
}
