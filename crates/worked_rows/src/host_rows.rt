//! Hosts in memory: what they store, keep and load.

use crate::hosts::{no_files, one};
use opc_base::{Bytes, CalmHost, Host, HostFault, LoadFault, MemHost};
use std::alloc::Global;
use std::process::Abort;
use std::test::Fail;

/// Stores a file twice, and loads it whole and up to a limit, and one that isn't there. These are five calls.
fn check_host<R: Abort, H: Host>(rt: &R, alloc: Global, host: &mut H) -> Result<(), Fail> {
    host.store(alloc, "mask", b"the old bytes")?;
    host.store(alloc, "mask", b"new")?;
    let whole = host.load(alloc, "mask", 3)?;
    assert_eq!(rt; whole.as_slice(), b"new".as_slice());
    let front = host.load(alloc, "mask", 1)?;
    assert_eq!(rt; front.as_slice(), b"ne".as_slice());
    let is_absent = matches!(host.load(alloc, "table", 3), Err(LoadFault::Absent));
    assert!(rt; is_absent);
    Ok(())
}

/// Whether a file is there and has these bytes.
fn has_bytes(file: Option<&Bytes>, wanted: &[u8]) -> bool {
    match file {
        Some(bytes) => bytes.as_slice() == wanted,
        None => false,
    }
}

// The sixth call, a store, fails and keeps two bytes.
#[test]
fn what_hosts_store(rt: HostRuntime) -> Result<(), Fail> {
    let alloc = rt.alloc();
    let mut calm = CalmHost::new(alloc, no_files(alloc))?;
    check_host(&rt, alloc, &mut calm)?;
    assert!(rt; has_bytes(calm.file("mask"), b"new"));
    assert!(rt; calm.file("table").is_none());
    let mut host = MemHost::new(alloc, no_files(alloc), one(alloc, 6, 2)?)?;
    check_host(&rt, alloc, &mut host)?;
    assert!(rt; has_bytes(host.file("mask"), b"new"));
    let has_failed = matches!(host.store(alloc, "mask", b"third"), Err(HostFault::Failed));
    assert!(rt; has_failed);
    assert!(rt; has_bytes(host.file("mask"), b"th"));
    let kept = host.load(alloc, "mask", 100)?;
    assert_eq!(rt; kept.as_slice(), b"th".as_slice());
    Ok(())
}
