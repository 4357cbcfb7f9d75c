//! The calls that append lines.
ghost use Rattle.std.specs.Prelude.{◌≡◌, ◌++◌, OnOk, OnErr, IfOk, string_bytes};
ghost use Rattle.error_table.specs.Table.{counts_line, end_line, fragment_line, lies_text, move_line, round_line, rule_name, settled_text, side_name, version_line};

use crate::fragment_line::FragmentLine;
use opc_base::{
    Broken, Bytes, Move, Moved, NoMemory, Pix, Place, RoundSummary, RuleName, Side, Totals,
};
use std::alloc::Global;

/// Appends the two head lines: the version, and the line of `put_counts`.
pub fn put_head(
    alloc: Global,
    out: &mut Bytes,
    fragments: u32,
    kernels: u32,
    reach: u32,
    samples: i32,
    threshold: i64,
) -> Result<(), NoMemory>
    ensures ok { OnOk result (out.new ≡ out.old ++ (version_line ++ counts_line fragments kernels reach samples threshold)) }
    ensures err { OnErr result (out.new ≡ out.old) }
{
    let lines = head_text(alloc, fragments, kernels, reach, samples, threshold)?;
    out.append(lines.as_bytes())
}

/// Appends the second head line: how many fragments and kernels there are, the kernels' reach, the samples on each side of
/// an edge, and the threshold.
pub fn put_counts(
    alloc: Global,
    out: &mut Bytes,
    fragments: u32,
    kernels: u32,
    reach: u32,
    samples: i32,
    threshold: i64,
) -> Result<(), NoMemory>
    ensures ok { OnOk result (out.new ≡ out.old ++ counts_line fragments kernels reach samples threshold) }
    ensures err { OnErr result (out.new ≡ out.old) }
{
    let line = counts_text(alloc, fragments, kernels, reach, samples, threshold)?;
    out.append(line.as_bytes())
}

/// Appends the line of a round, which is numbered from 1.
pub fn put_round(
    alloc: Global,
    out: &mut Bytes,
    number: u32,
    summary: &RoundSummary,
) -> Result<(), NoMemory>
    ensures ok { OnOk result (out.new ≡ out.old ++ round_line number summary.now) }
    ensures err { OnErr result (out.new ≡ out.old) }
{
    let RoundSummary {
        worst,
        total,
        moved,
    } = *summary;
    let line = format!(in alloc; "round {number} worst {worst} total {total} moved {moved}\n")?;
    out.append(line.as_bytes())
}

/// Appends the line of a move and its answer.
pub fn put_move(alloc: Global, out: &mut Bytes, what: &Move, moved: &Moved) -> Result<(), NoMemory>
    ensures ok { OnOk result (out.new ≡ out.old ++ move_line what.now moved.now) }
    ensures err { OnErr result (out.new ≡ out.old) }
{
    let line = move_text(alloc, *what, *moved)?;
    out.append(line.as_bytes())
}

/// Appends the line of a fragment.
pub fn put_fragment(alloc: Global, out: &mut Bytes, line: &FragmentLine) -> Result<(), NoMemory>
    ensures ok { OnOk result (out.new ≡ out.old ++ fragment_line line.now) }
    ensures err { OnErr result (out.new ≡ out.old) }
{
    let text = fragment_text(alloc, *line)?;
    out.append(text.as_bytes())
}

/// Appends the end line: the errors of the final mask, whether they are settled, and how many rectangles the mask has.
pub fn put_summary(
    alloc: Global,
    out: &mut Bytes,
    totals: &Totals,
    settled: bool,
    rectangles: u32,
) -> Result<(), NoMemory>
    ensures ok { OnOk result (out.new ≡ out.old ++ end_line totals.now settled rectangles) }
    ensures err { OnErr result (out.new ≡ out.old) }
{
    let line = end_text(alloc, *totals, settled, rectangles)?;
    out.append(line.as_bytes())
}

fn head_text(
    alloc: Global,
    fragments: u32,
    kernels: u32,
    reach: u32,
    samples: i32,
    threshold: i64,
) -> Result<String, NoMemory>
    ensures { IfOk result (λ lines. string_bytes lines ≡ version_line ++ counts_line fragments kernels reach samples threshold) }
{
    let counts = counts_text(alloc, fragments, kernels, reach, samples, threshold)?;
    let mut lines = String::from_str(alloc, "opc table 2\n")?;
    lines.push_str(counts.as_str())?;
    Ok(lines)
}

fn counts_text(
    alloc: Global,
    fragments: u32,
    kernels: u32,
    reach: u32,
    samples: i32,
    threshold: i64,
) -> Result<String, NoMemory>
    ensures { IfOk result (λ line. string_bytes line ≡ counts_line fragments kernels reach samples threshold) }
{
    let line = format!(in alloc;
        "fragments {fragments} kernels {kernels} reach {reach} samples {samples} threshold {threshold}\n"
    )?;
    Ok(line)
}

fn move_text(alloc: Global, what: Move, moved: Moved) -> Result<String, NoMemory>
    ensures { IfOk result (λ line. string_bytes line ≡ move_line what moved) }
{
    let Move { fragment, delta } = what;
    match moved {
        Moved::Done => Ok(format!(in alloc; "move {fragment} {delta} done\n")?),
        Moved::Refused(
            Broken {
                rule,
                at: Place::Pixel(Pix { x, y }),
            },
        ) => {
            let rule = rule_name(rule);
            Ok(format!(in alloc; "move {fragment} {delta} refused {rule} at {x} {y}\n")?)
        }
        Moved::Refused(
            Broken {
                rule,
                at: Place::Fragment(number),
            },
        ) => {
            let rule = rule_name(rule);
            Ok(format!(in alloc; "move {fragment} {delta} refused {rule} fragment {number}\n")?)
        }
    }
}

fn fragment_text(alloc: Global, fragment: FragmentLine) -> Result<String, NoMemory>
    ensures { IfOk result (λ line. string_bytes line ≡ fragment_line fragment) }
{
    let lies = lies_text(alloc, fragment)?;
    let lies = lies.as_str();
    let FragmentLine {
        offset,
        inside,
        outside,
        error,
        ..
    } = fragment;
    let text = format!(in alloc;
        "{lies}offset {offset} inside {inside} outside {outside} error {error}\n"
    )?;
    Ok(text)
}

fn lies_text(alloc: Global, fragment: FragmentLine) -> Result<String, NoMemory>
    ensures { IfOk result (λ text. string_bytes text ≡ lies_text fragment) }
{
    let FragmentLine {
        number,
        side,
        line,
        from,
        to,
        ..
    } = fragment;
    let side = side_name(side);
    let text = format!(in alloc; "fragment {number} {side} line {line} from {from} to {to} ")?;
    Ok(text)
}

fn end_text(
    alloc: Global,
    totals: Totals,
    settled: bool,
    rectangles: u32,
) -> Result<String, NoMemory>
    ensures { IfOk result (λ line. string_bytes line ≡ end_line totals settled rectangles) }
{
    let Totals { worst, total } = totals;
    let settled = settled_text(settled);
    let line = format!(in alloc;
        "end worst {worst} total {total} settled {settled} rectangles {rectangles}\n"
    )?;
    Ok(line)
}

fn rule_name(rule: RuleName) -> &'static str
    ensures { result.now ≡ rule_name rule }
{
    match rule {
        RuleName::M0 => "M0",
        RuleName::M1 => "M1",
        RuleName::M2 => "M2",
        RuleName::M3 => "M3",
        RuleName::M4 => "M4",
        RuleName::M5 => "M5",
    }
}

fn side_name(side: Side) -> &'static str
    ensures { result.now ≡ side_name side }
{
    match side {
        Side::Left => "left",
        Side::Right => "right",
        Side::Down => "down",
        Side::Up => "up",
    }
}

fn settled_text(settled: bool) -> &'static str
    ensures { result.now ≡ settled_text settled }
{
    if settled { "yes" } else { "no" }
}
