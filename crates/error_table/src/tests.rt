//! Each kind of line once.
use super::{FragmentLine, put_counts, put_fragment, put_head, put_move, put_round, put_summary};
use opc_base::{Broken, Bytes, Move, Moved, Pix, Place, RoundSummary, RuleName, Side, Totals};
use std::test::Fail;

const LINES: &[u8] = b"opc table 2
fragments 4 kernels 1 reach 1 samples 2 threshold 37
fragments 733 kernels 8 reach 40 samples 8 threshold 55000000000
round 1 worst 9 total 36 moved 4
move 1 2 done
move 6 -2 refused M4 fragment 0
move 0 4 refused M1 at -3 10
fragment 1 left line -2 from 3 to 7 offset 2 inside 81 outside 36 error -9
end worst 7 total 28 settled yes rectangles 1
end worst 64 total 256 settled no rectangles 0
";

#[test]
fn lines_follow_one_another(rt: HostRuntime) -> Result<(), Fail> {
    let alloc = rt.alloc();
    let mut out = Bytes::from_vec(Vec::new(alloc));
    put_head(alloc, &mut out, 4, 1, 1, 2, 37)?;
    put_counts(alloc, &mut out, 733, 8, 40, 8, 55_000_000_000)?;
    put_round(
        alloc,
        &mut out,
        1,
        &RoundSummary {
            worst: 9,
            total: 36,
            moved: 4,
        },
    )?;
    put_move(
        alloc,
        &mut out,
        &Move {
            fragment: 1,
            delta: 2,
        },
        &Moved::Done,
    )?;
    let broken = Broken {
        rule: RuleName::M4,
        at: Place::Fragment(0),
    };
    put_move(
        alloc,
        &mut out,
        &Move {
            fragment: 6,
            delta: -2,
        },
        &Moved::Refused(broken),
    )?;
    let broken = Broken {
        rule: RuleName::M1,
        at: Place::Pixel(Pix { x: -3, y: 10 }),
    };
    put_move(
        alloc,
        &mut out,
        &Move {
            fragment: 0,
            delta: 4,
        },
        &Moved::Refused(broken),
    )?;
    let line = FragmentLine {
        number: 1,
        side: Side::Left,
        line: -2,
        from: 3,
        to: 7,
        offset: 2,
        inside: 81,
        outside: 36,
        error: -9,
    };
    put_fragment(alloc, &mut out, &line)?;
    put_summary(
        alloc,
        &mut out,
        &Totals {
            worst: 7,
            total: 28,
        },
        true,
        1,
    )?;
    put_summary(
        alloc,
        &mut out,
        &Totals {
            worst: 64,
            total: 256,
        },
        false,
        0,
    )?;
    assert!(rt; out.as_slice() == LINES);
    Ok(())
}
