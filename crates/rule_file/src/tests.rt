//! Rule files and moves files, key by key and line by line.
use crate::key::KEYS;
use crate::{Key, MoveFault, RuleFault, read_moves, read_rules};
use opc_base::Move;
use std::alloc::{AllocError, Global};
use std::process::Abort;
use std::test::Fail;

fn value_of(key: Key) -> &'static str {
    match key {
        Key::Top => "\"TOP\"",
        Key::OutName => "\"MASK\"",
        Key::Threshold => "37",
        Key::Samples | Key::Width | Key::Space => "2",
        Key::Piece => "100",
        Key::CornerOut | Key::CornerIn => "5",
        Key::LineEnd => "10",
        Key::MaxStep | Key::Rounds => "4",
        Key::MaxIn => "8",
        Key::MaxOut | Key::Tile => "16",
        Key::Datatype | Key::Settle | Key::OutDatatype => "0",
        _ => "1",
    }
}

// A rule file with this line in place of a key's own.
fn text_with(alloc: Global, changed: Key, line: &str) -> Result<String, AllocError> {
    let mut text = String::new(alloc);
    for key in KEYS {
        if key != changed {
            text.push_str(key.name())?;
            text.push_str(" = ")?;
            text.push_str(value_of(key))?;
            text.push_str("\n")?;
        }
    }
    text.push_str(line)?;
    Ok(text)
}

fn check(
    rt: &impl Abort,
    alloc: Global,
    key: Key,
    line: &str,
    wanted: Option<RuleFault>,
) -> Result<(), AllocError> {
    let text = text_with(alloc, key, line)?;
    let fault = match read_rules(alloc, text.as_bytes()) {
        Ok(_) => None,
        Err(fault) => Some(fault),
    };
    assert!(rt; fault == wanted, "{line}");
    Ok(())
}

fn check_range(
    rt: &impl Abort,
    alloc: Global,
    key: Key,
    low: i64,
    high: i64,
) -> Result<(), AllocError> {
    let name = key.name();
    let (below, above) = (low.wrapping_sub(1), high.wrapping_add(1));
    let past = Some(RuleFault::OutOfRange { key });
    check(rt, alloc, key, "", Some(RuleFault::MissingKey { key }))?;
    let text = format!(in alloc; "{name} = \"1\"")?;
    check(
        rt,
        alloc,
        key,
        text.as_str(),
        Some(RuleFault::WrongType { key }),
    )?;
    let text = format!(in alloc; "{name} = {low}")?;
    check(rt, alloc, key, text.as_str(), None)?;
    let text = format!(in alloc; "{name} = {high}")?;
    check(rt, alloc, key, text.as_str(), None)?;
    let text = format!(in alloc; "{name} = {below}")?;
    check(rt, alloc, key, text.as_str(), past)?;
    let text = format!(in alloc; "{name} = {above}")?;
    check(rt, alloc, key, text.as_str(), past)
}

#[test]
fn each_number_has_its_range(rt: HostRuntime) -> Result<(), AllocError> {
    let a = rt.alloc();
    check_range(&rt, a, Key::Layer, 0, 65535)?;
    check_range(&rt, a, Key::Datatype, 0, 65535)?;
    check_range(&rt, a, Key::Grid, 1, 1000)?;
    check_range(&rt, a, Key::Threshold, 1, 4_800_000_000_000_000_000)?;
    check_range(&rt, a, Key::Samples, 1, 16)?;
    check_range(&rt, a, Key::Piece, 1, 4096)?;
    check_range(&rt, a, Key::CornerOut, 1, 4096)?;
    check_range(&rt, a, Key::CornerIn, 1, 4096)?;
    check_range(&rt, a, Key::LineEnd, 0, 4096)?;
    check_range(&rt, a, Key::GainNum, 1, 64)?;
    check_range(&rt, a, Key::GainDen, 1, 64)?;
    check_range(&rt, a, Key::MaxStep, 1, 32)?;
    check_range(&rt, a, Key::MaxIn, 0, 128)?;
    check_range(&rt, a, Key::MaxOut, 0, 128)?;
    check_range(&rt, a, Key::Settle, 0, 16)?;
    check_range(&rt, a, Key::Rounds, 0, 64)?;
    check_range(&rt, a, Key::Width, 1, 1024)?;
    check_range(&rt, a, Key::Space, 1, 1024)?;
    check_range(&rt, a, Key::Tile, 16, 4096)?;
    check_range(&rt, a, Key::Workers, 1, 64)?;
    check_range(&rt, a, Key::OutLayer, 0, 65535)?;
    check_range(&rt, a, Key::OutDatatype, 0, 65535)
}

#[test]
fn names_and_spellings(rt: HostRuntime) -> Result<(), AllocError> {
    let a = rt.alloc();
    assert_eq!(rt; Key::CornerOut.name(), "corner_out");
    let top = Key::Top;
    check(&rt, a, top, "", Some(RuleFault::MissingKey { key: top }))?;
    check(
        &rt,
        a,
        top,
        "top = 1",
        Some(RuleFault::WrongType { key: top }),
    )?;
    check(
        &rt,
        a,
        top,
        "top = \"\"",
        Some(RuleFault::OutOfRange { key: top }),
    )?;
    let out = Key::OutName;
    check(
        &rt,
        a,
        out,
        "out_name = \"a-b\"",
        Some(RuleFault::OutOfRange { key: out }),
    )?;
    check(&rt, a, out, "out_name = \"aZ_?$0\"", None)?;
    let grid = Key::Grid;
    check(&rt, a, grid, "# a comment\n\"grid\" = 0x3E8", None)?;
    check(&rt, a, grid, "grid = 1\ngrid = 1", Some(RuleFault::NotToml))?;
    check(
        &rt,
        a,
        grid,
        "grid.x = 1",
        Some(RuleFault::WrongType { key: grid }),
    )?;
    check(&rt, a, grid, "grip = 1", Some(RuleFault::Unknown))?;
    check(
        &rt,
        a,
        grid,
        "out.name = 1\ngrid = 0",
        Some(RuleFault::Unknown),
    )?;
    check(
        &rt,
        a,
        grid,
        "grid = 1.0",
        Some(RuleFault::WrongType { key: grid }),
    )?;
    Ok(())
}

#[test]
fn rules_hold_the_values(rt: HostRuntime) -> Result<(), Fail> {
    let text = text_with(rt.alloc(), Key::Grid, "grid = 7")?;
    let rules = read_rules(rt.alloc(), text.as_bytes())?;
    assert!(rt; rules.pick.top.as_slice() == b"TOP".as_slice());
    assert!(rt; rules.out.name.as_slice() == b"MASK".as_slice());
    assert_eq!(rt; rules.pick.grid, 7);
    assert_eq!(rt; rules.site.threshold, 37);
    assert_eq!(rt; rules.mover.max_in, 8);
    assert_eq!(rt; rules.mask.max_out, 16);
    assert_eq!(rt; rules.run.rounds, 4);
    let brighter = rules.with_threshold(100)?;
    assert_eq!(rt; brighter.site.threshold, 100);
    assert_eq!(rt; brighter.site.samples, 2);
    assert!(rt; brighter.out.name.as_slice() == b"MASK".as_slice());
    Ok(())
}

fn check_moves(rt: &impl Abort, alloc: Global, text: &str, wanted: Option<u32>) {
    assert!(rt; text.len() <= 99, "{text}");
    let line = match read_moves(alloc, text.as_bytes()) {
        Ok(_) => None,
        Err(MoveFault::BadLine { line }) => Some(line),
        Err(MoveFault::NoMemory) => Some(0),
    };
    assert!(rt; line == wanted, "{text}");
}

#[test]
fn moves_are_read_line_by_line(rt: HostRuntime) -> Result<(), Fail> {
    let a = rt.alloc();
    let moves = read_moves(a, b"1 2\n000000007 -999999999\n0 -0")?;
    let wanted = [
        Move {
            fragment: 1,
            delta: 2,
        },
        Move {
            fragment: 7,
            delta: -999_999_999,
        },
        Move {
            fragment: 0,
            delta: 0,
        },
    ];
    assert!(rt; moves.as_slice() == wanted.as_slice());
    check_moves(&rt, a, "", None);
    check_moves(&rt, a, "\n", Some(1));
    check_moves(&rt, a, "1 2\n\n1 2\n", Some(2));
    check_moves(&rt, a, "1  2\n", Some(1));
    check_moves(&rt, a, "1 2\n1234567890 1", Some(2));
    check_moves(&rt, a, "1 2 \n", Some(1));
    check_moves(&rt, a, "1 +2\n", Some(1));
    check_moves(&rt, a, "1 2\r\n", Some(1));
    check_moves(&rt, a, "-1 2\n", Some(1));
    check_moves(&rt, a, "1 -\n", Some(1));
    check_moves(&rt, a, "1\n", Some(1));
    Ok(())
}
