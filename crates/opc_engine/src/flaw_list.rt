//! The list of a check.
ghost use Rattle.std.specs.Prelude.{◌≡◌, ◌++◌, OnOk, IfOk, flat_map, string_bytes};
ghost use Rattle.opc_engine.specs.FlawList.{count_of, counts_line, counts_of_print, flaw_line, flaw_list, is_kind, kind_name, line_name, print_line};

use opc_base::{Bytes, NoMemory};
use print_check::{Flaw, FlawKind, Line};
use std::alloc::Global;

/// A list, and its last line once more.
#[derive(Drop)]
pub struct List {
    pub text: Bytes,
    pub last: Bytes,
}

/// The list of these flaws of so many printed rectangles.
pub fn list_of(alloc: Global, rectangles: usize, flaws: &[Flaw]) -> Result<List, NoMemory>
    ensures text { IfOk result (λ list. list.text ≡ flaw_list rectangles flaws.now) }
    ensures last { IfOk result (λ list. list.last ≡ counts_of_print rectangles flaws.now) }
{
    let last = last_of(alloc, rectangles, flaws)?;
    let mut text = head_of(alloc)?;
    put_flaws(alloc, &mut text, flaws)?;
    text.append(last.as_slice())?;
    Ok(List { text, last })
}

/// The head line.
fn head_of(alloc: Global) -> Result<Bytes, NoMemory>
    ensures { IfOk result (λ head. head ≡ print_line) }
{
    let line = String::from_str(alloc, "opc print 1\n")?;
    let mut head = Bytes::from_vec(Vec::new(alloc));
    head.append(line.as_bytes())?;
    Ok(head)
}

/// Appends a line for each flaw.
fn put_flaws(alloc: Global, out: &mut Bytes, flaws: &[Flaw]) -> Result<(), NoMemory>
    ensures { OnOk result (out.new ≡ out.old ++ flat_map flaw_line flaws.now) }
{
    for flaw in flaws {
        let line = flaw_text(alloc, flaw)?;
        out.append(line.as_bytes())?;
    }
    Ok(())
}

/// The end line.
fn last_of(alloc: Global, rectangles: usize, flaws: &[Flaw]) -> Result<Bytes, NoMemory>
    ensures { IfOk result (λ last. last ≡ counts_of_print rectangles flaws.now) }
{
    let line = counts_text(
        alloc,
        rectangles,
        count_of(flaws, FlawKind::Pinch),
        count_of(flaws, FlawKind::Bridge),
    )?;
    let mut last = Bytes::from_vec(Vec::new(alloc));
    last.append(line.as_bytes())?;
    Ok(last)
}

fn counts_text(
    alloc: Global,
    rectangles: usize,
    pinches: usize,
    bridges: usize,
) -> Result<String, NoMemory>
    ensures { IfOk result (λ line. string_bytes line ≡ counts_line rectangles pinches bridges) }
{
    let line = format!(in alloc;
        "end rectangles {rectangles} pinches {pinches} bridges {bridges}\n"
    )?;
    Ok(line)
}

/// How many of the flaws are of this kind.
fn count_of(flaws: &[Flaw], kind: FlawKind) -> usize
    ensures { result ≡ count_of kind flaws.now }
{
    let mut count = 0;
    for flaw in flaws {
        if is_kind(kind, flaw.kind) {
            count += 1;
        }
    }
    count
}

fn is_kind(kind: FlawKind, found: FlawKind) -> bool
    ensures { result ≡ is_kind kind found }
{
    match (kind, found) {
        (FlawKind::Pinch, FlawKind::Pinch) => true,
        (FlawKind::Bridge, FlawKind::Bridge) => true,
        _ => false,
    }
}

fn flaw_text(alloc: Global, flaw: &Flaw) -> Result<String, NoMemory>
    ensures { IfOk result (λ line. string_bytes line ≡ flaw_line flaw.now) }
{
    let Flaw {
        kind,
        line,
        place,
        from,
        to,
    } = *flaw;
    let kind = kind_name(kind);
    let line = line_name(line);
    let text = format!(in alloc; "{kind} {line} {place} from {from} to {to}\n")?;
    Ok(text)
}

fn kind_name(kind: FlawKind) -> &'static str
    ensures { result.now ≡ kind_name kind }
{
    match kind {
        FlawKind::Pinch => "pinch",
        FlawKind::Bridge => "bridge",
    }
}

fn line_name(line: Line) -> &'static str
    ensures { result.now ≡ line_name line }
{
    match line {
        Line::Row => "row",
        Line::Column => "column",
    }
}
