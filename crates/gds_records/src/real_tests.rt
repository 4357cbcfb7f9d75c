//! Eight-byte reals in several spellings.

use crate::{is_one, quarter_turns};

#[test]
fn reads_right_angles(rt: HostRuntime) {
    let cases: [(u64, Option<u8>); 13] = [
        (0x0000000000000000, Some(0)),
        (0x8000000000000000, Some(0)),
        (0x7F00000000000000, Some(0)),
        (0x425A000000000000, Some(1)),
        (0x4305A00000000000, Some(1)),
        (0x4E0000000000005A, Some(1)),
        (0x42B4000000000000, Some(2)),
        (0x4310E00000000000, Some(3)),
        (0xC25A000000000000, Some(3)),
        (0x4316800000000000, Some(0)),
        (0x422D000000000000, None),
        (0x431C200000000000, None),
        (0x425A000000000001, None),
    ];
    for (bits, turns) in cases {
        assert_eq!(rt; quarter_turns(bits.to_be_bytes()), turns, "at {bits}");
    }
}

#[test]
fn reads_one(rt: HostRuntime) {
    let cases: [(u64, bool); 6] = [
        (0x4110000000000000, true),
        (0x4201000000000000, true),
        (0x4E00000000000001, true),
        (0x4120000000000000, false),
        (0xC110000000000000, false),
        (0x0000000000000000, false),
    ];
    for (bits, one) in cases {
        assert_eq!(rt; is_one(bits.to_be_bytes()), one, "at {bits}");
    }
}
