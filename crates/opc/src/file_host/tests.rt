//! Devices that stop short or fail, and real files of a folder.
use super::{FileHost, read_some, write_whole};
use opc_base::{Bytes, Host, HostFault, LoadFault};
use std::io::{ErrorKind, Read, Write};
use std::os::unix::fs::symlink;
use std::path::PathBuf;
use std::{env, fs, io};

/// What a device does at one call: it moves at most so many bytes, or fails.
type Turn = Result<usize, ErrorKind>;

/// A device with one turn for each call. After its turns it moves all that it is asked for.
#[derive(Drop)]
struct Device<'a, T> {
    inner: T,
    turns: &'a [Turn],
}

impl<'a, T> Device<'a, T> {
    /// How many bytes this call moves at most.
    fn next_turn(&mut self) -> io::Result<usize> {
        let Some((turn, later)) = self.turns.split_first() else {
            return Ok(usize::MAX);
        };
        self.turns = later;
        turn.map_err(io::Error::from)
    }
}

impl<'a, T: Read> Read for Device<'a, T> {
    fn read(&mut self, buffer: &mut [u8]) -> io::Result<usize> {
        let count = self.next_turn()?.min(buffer.len());
        self.inner.read(&mut buffer[..count])
    }
}

impl<'a, T: Write> Write for Device<'a, T> {
    fn write(&mut self, bytes: &[u8]) -> io::Result<usize> {
        let count = self.next_turn()?.min(bytes.len());
        self.inner.write(&bytes[..count])
    }

    fn flush(&mut self) -> io::Result<()> {
        Ok(())
    }
}

fn gives<E>(read: &Result<Bytes, E>, wanted: &[u8]) -> bool {
    match read {
        Ok(bytes) => bytes.as_slice() == wanted,
        Err(_) => false,
    }
}

#[test]
fn short_reads(rt: HostRuntime) {
    let cases: [(usize, usize, &[u8], &[u8]); 5] = [
        (1, 0, b"0", b"123456789"),
        (1, 6, b"0123456", b"789"),
        (1, 9, b"0123456789", b""),
        (1, 20, b"0123456789", b""),
        (3, 6, b"0123456", b"789"),
    ];
    for (step, limit, wanted, left) in cases {
        let mut source = Device {
            inner: b"0123456789".as_slice(),
            turns: &[Ok(step); 30],
        };
        let read = read_some(rt.alloc(), &mut source, limit);
        assert!(rt; gives(&read, wanted), "{step} a call up to {limit}");
        assert_eq!(rt; source.inner, left, "{step} a call up to {limit}");
    }
}

#[test]
fn a_read_that_fails(rt: HostRuntime) {
    let cases: [(&[Turn], &[u8]); 3] = [
        (&[Err(ErrorKind::Other)], b"0123456789"),
        (&[Ok(2), Ok(1), Err(ErrorKind::Other)], b"3456789"),
        (&[Ok(4), Err(ErrorKind::TimedOut)], b"456789"),
    ];
    for (turns, left) in cases {
        let inner = b"0123456789".as_slice();
        let mut source = Device { inner, turns };
        let read = read_some(rt.alloc(), &mut source, 20);
        assert!(rt; matches!(read, Err(HostFault::Failed)), "{turns:?}");
        assert_eq!(rt; source.inner, left, "{turns:?}");
    }
}

#[test]
fn short_writes(rt: HostRuntime) {
    for step in [1, 2] {
        let mut sink = Device {
            inner: Vec::new(rt.alloc()),
            turns: &[Ok(step); 30],
        };
        assert_eq!(rt; write_whole(&mut sink, b"01234"), Ok(()));
        assert_eq!(rt; sink.inner.as_slice(), b"01234".as_slice(), "{step} a call");
    }
}

#[test]
fn a_write_that_takes_nothing_or_fails(rt: HostRuntime) {
    let cases: [(&[Turn], &[u8]); 4] = [
        (&[Ok(0)], b""),
        (&[Ok(2), Ok(1), Ok(0)], b"012"),
        (&[Err(ErrorKind::StorageFull)], b""),
        (&[Ok(1), Ok(3), Err(ErrorKind::StorageFull)], b"0123"),
    ];
    for (turns, taken) in cases {
        let inner = Vec::new(rt.alloc());
        let mut sink = Device { inner, turns };
        let done = write_whole(&mut sink, b"0123456789");
        assert_eq!(rt; done, Err(HostFault::Failed), "{turns:?}");
        assert_eq!(rt; sink.inner.as_slice(), taken, "{turns:?}");
    }
}

/// A call that a signal interrupts is not made again.
#[test]
fn an_interrupted_call(rt: HostRuntime) {
    let turns: &[Turn] = &[Ok(3), Err(ErrorKind::Interrupted)];
    let inner = b"0123456789".as_slice();
    let mut source = Device { inner, turns };
    let read = read_some(rt.alloc(), &mut source, 20);
    assert!(rt; matches!(read, Err(HostFault::Failed)));
    let inner = Vec::new(rt.alloc());
    let mut sink = Device { inner, turns };
    let done = write_whole(&mut sink, b"0123456789");
    assert_eq!(rt; done, Err(HostFault::Failed));
    assert_eq!(rt; sink.inner.as_slice(), b"012".as_slice());
}

/// An empty folder of this name.
fn empty_folder(rt: &HostRuntime, name: &str) -> io::Result<PathBuf> {
    let folder = env::temp_dir(rt)?.join(rt.alloc(), name)?;
    if fs::exists(rt, folder.as_str())? {
        fs::remove_dir_all(rt, folder.as_str())?;
    }
    fs::create_dir_all(rt, folder.as_str())?;
    Ok(folder)
}

#[test]
fn files_of_a_real_folder(rt: HostRuntime) -> io::Result<()> {
    let alloc = rt.alloc();
    let folder = empty_folder(&rt, "opc_file_host")?;
    let file = folder.join(alloc, "file")?;
    let absent = folder.join(alloc, "absent/file")?;
    let (file, absent) = (file.as_str(), absent.as_str());
    let mut host = FileHost::new(&rt);
    assert_eq!(rt; host.store(alloc, file, b"a longer text"), Ok(()));
    assert_eq!(rt; host.store(alloc, file, b"0123456789"), Ok(()));
    let front = host.load(alloc, file, 3);
    assert!(rt; gives(&front, b"0123"));
    let whole = host.load(alloc, file, 10);
    assert!(rt; gives(&whole, b"0123456789"));
    let missing = host.load(alloc, absent, 10);
    assert!(rt; matches!(missing, Err(LoadFault::Failed)));
    let nowhere = host.store(alloc, absent, b"text");
    assert_eq!(rt; nowhere, Err(HostFault::Failed));
    assert_eq!(rt;
        (host.load_faults, host.store_faults, host.say_faults),
        (1, 1, 0)
    );
    fs::remove_dir_all(&rt, folder.as_str())
}

#[test]
fn a_folder_in_the_place_of_a_file(rt: HostRuntime) -> io::Result<()> {
    let folder = empty_folder(&rt, "opc_file_host_folder")?;
    let mut host = FileHost::new(&rt);
    let stored = host.store(rt.alloc(), folder.as_str(), b"text");
    assert_eq!(rt; stored, Err(HostFault::Failed));
    assert_eq!(rt; (host.load_faults, host.store_faults), (0, 1));
    let loaded = host.load(rt.alloc(), folder.as_str(), 10);
    assert!(rt; matches!(loaded, Err(LoadFault::Failed)));
    assert_eq!(rt; (host.load_faults, host.store_faults), (1, 1));
    fs::remove_dir_all(&rt, folder.as_str())
}

#[test]
fn one_file_under_three_names(rt: HostRuntime) -> io::Result<()> {
    let alloc = rt.alloc();
    let folder = empty_folder(&rt, "opc_file_host_links")?;
    let file = folder.join(alloc, "file")?;
    let hard = folder.join(alloc, "hard")?;
    let soft = folder.join(alloc, "soft")?;
    let (file, hard, soft) = (file.as_str(), hard.as_str(), soft.as_str());
    let mut host = FileHost::new(&rt);
    assert_eq!(rt; host.store(alloc, file, b"a longer text"), Ok(()));
    fs::hard_link(&rt, file, hard)?;
    symlink(&rt, file, soft)?;
    let cases: [(&str, &str, &[u8]); 3] = [
        (file, hard, b"first"),
        (hard, soft, b"next"),
        (soft, file, b"last of all"),
    ];
    for (stored, loaded, text) in cases {
        assert_eq!(rt; host.store(alloc, stored, text), Ok(()), "as {stored}");
        let read = host.load(alloc, loaded, 100);
        assert!(rt; gives(&read, text), "{stored} as {loaded}");
    }
    fs::remove_dir_all(&rt, folder.as_str())
}
