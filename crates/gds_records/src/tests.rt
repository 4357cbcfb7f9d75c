//! Records and points, read and written.
use crate::{Next, Point, next_record, point_at, put_record};
use opc_base::Bytes;
use std::process::Abort;
use std::test::Fail;

/// HEADER 600, and a second record whose length is 2.
const FILE: [u8; 8] = [0, 6, 0, 2, 2, 88, 0, 2];

/// The type and the body's length of the record at an offset.
fn record_at(rt: &impl Abort, bytes: &[u8], at: usize) -> (u8, usize) {
    assert!(rt; at <= bytes.len());
    match next_record(bytes, at) {
        Next::Record(record) => (record.kind, record.body.len()),
        _ => (255, 255),
    }
}

#[test]
fn reads_a_record(rt: HostRuntime) {
    assert_eq!(rt; record_at(&rt, &FILE, 0), (0, 2));
}

#[test]
fn tells_the_end_a_cut_and_a_bad_length(rt: HostRuntime) {
    let end = match next_record(&FILE, 8) {
        Next::End => true,
        _ => false,
    };
    assert!(rt; end);
    let cut = match next_record(&FILE, 6) {
        Next::Cut { offset } => offset == 6,
        _ => false,
    };
    assert!(rt; cut);
    let cut_in_body = match next_record(&FILE[..5], 0) {
        Next::Cut { offset } => offset == 0,
        _ => false,
    };
    assert!(rt; cut_in_body);
    let bad = match next_record(&[0, 7, 0, 2, 2, 88, 0], 0) {
        Next::BadLength { offset } => offset == 0,
        _ => false,
    };
    assert!(rt; bad);
}

#[test]
fn puts_a_record(rt: HostRuntime) -> Result<(), Fail> {
    let mut out = Bytes::from_vec([9].to_vec(rt.alloc())?);
    put_record(rt.alloc(), &mut out, 0, 2, &[2, 88])?;
    assert_eq!(rt; out.as_slice(), [9, 0, 6, 0, 2, 2, 88].as_slice());
    assert_eq!(rt; record_at(&rt, out.as_slice(), 1), (0, 2));
    Ok(())
}

#[test]
fn reads_signed_points(rt: HostRuntime) {
    let body = [0, 0, 0, 1, 0, 0, 0, 2, 255, 255, 255, 254, 128, 0, 0, 0];
    assert_eq!(rt; point_at(&body, 0), Point { x: 1, y: 2 });
    assert_eq!(rt;
        point_at(&body, 1),
        Point {
            x: -2,
            y: -2147483648
        }
    );
}
