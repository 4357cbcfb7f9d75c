//! The head of a library.
use opc_base::Bytes;

/// The bodies of a library's HEADER, BGNLIB, LIBNAME and UNITS records, as they stand in the file.
#[derive(Debug, Drop)]
pub struct Head {
    pub header: Bytes,
    pub dates: Bytes,
    pub name: Bytes,
    pub units: Bytes,
}
