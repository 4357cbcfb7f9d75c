//! The table of a correction with scatter bars.
ghost use Rattle.std.specs.Prelude.{◌≡◌, ◌++◌, OnOk, IfOk, length, string_bytes};
ghost use Rattle.error_table.specs.Table.{settled_text};
ghost use Rattle.opc_base.specs.Optics.{KeepsBounds};
ghost use Rattle.opc_engine.specs.BarReady.{CanAssist, bar_subject_of};
ghost use Rattle.opc_engine.specs.BarTable.{assist_line, bar_end, bar_head, bar_line, bar_lines, bar_table, rect_text};
ghost use Rattle.opc_engine.specs.Standing.{IsOver};

use crate::bar_prepare::BarPrepared;
use crate::bar_run::{are_settled, find_totals};
use crate::ready::Ready;
use crate::table::Table;
use error_table::{put_counts, put_summary};
use opc_base::{Bytes, NoMemory, Rect};
use opc_session::Session;
use std::alloc::Global;

/// The table of a session with bars: the lines of the rounds, and of each bar whether it prints.
pub fn bar_table_of(
    alloc: Global,
    given: &BarPrepared,
    session: &Session<'_>,
    rounds: &[u8],
    flags: &[bool],
    rectangles: u32,
) -> Result<Table, NoMemory>
    requires ready { CanAssist given.now }
    requires over { IsOver given.now.whole session.now }
    requires flags { length flags.now ≡ length given.now.bars.items }
    ensures text { IfOk result (λ table. table.text ≡ bar_table (bar_subject_of given.now).target session.now rounds.now given.now.bars.items flags.now rectangles) }
    ensures last { IfOk result (λ table. table.last ≡ bar_end (bar_subject_of given.now).target session.now rectangles) }
{
    let last = end_of(alloc, given, session, rectangles)?;
    let mut text = head_of(alloc, &given.whole, session)?;
    text.append(rounds)?;
    put_bars(alloc, &mut text, &given.bars, flags)?;
    text.append(last.as_slice())?;
    Ok(Table { text, last })
}

/// The version, and the line of the counts.
fn head_of(alloc: Global, whole: &Ready, session: &Session<'_>) -> Result<Bytes, NoMemory>
    requires bounds { KeepsBounds whole.now.kernels }
    requires over { IsOver whole.now session.now }
    ensures { IfOk result (λ head. head ≡ bar_head session.now) }
{
    let mut head = version_of(alloc)?;
    let kernels = whole.kernels.kernels.as_slice().len() as u32;
    let reach = u32::from(whole.kernels.reach);
    let site = whole.rules.site;
    put_counts(
        alloc,
        &mut head,
        session.count(),
        kernels,
        reach,
        site.samples,
        site.threshold,
    )?;
    Ok(head)
}

/// The version.
fn version_of(alloc: Global) -> Result<Bytes, NoMemory>
    ensures { IfOk result (λ line. line ≡ assist_line) }
{
    let line = String::from_str(alloc, "opc assist 1\n")?;
    Ok(Bytes::from_vec(line.into_bytes()))
}

/// The last line.
fn end_of(
    alloc: Global,
    given: &BarPrepared,
    session: &Session<'_>,
    rectangles: u32,
) -> Result<Bytes, NoMemory>
    requires ready { CanAssist given.now }
    requires over { IsOver given.now.whole session.now }
    ensures { IfOk result (λ line. line ≡ bar_end (bar_subject_of given.now).target session.now rectangles) }
{
    let mut errors = vec![in alloc; 0; session.count() as usize]?;
    let totals = find_totals(given, session, &mut errors);
    let settled = are_settled(&totals, &given.whole.rules.run);
    let mut last = Bytes::from_vec(Vec::new(alloc));
    put_summary(alloc, &mut last, &totals, settled, rectangles)?;
    Ok(last)
}

/// Appends a line for each bar.
fn put_bars(alloc: Global, out: &mut Bytes, bars: &[Rect], flags: &[bool]) -> Result<(), NoMemory>
    requires flags { length flags.now ≡ length bars.now }
    ensures { OnOk result (out.new ≡ out.old ++ bar_lines bars.now flags.now) }
{
    for k in 0..bars.len() {
        let text = bar_text(alloc, k, bars[k], flags[k])?;
        out.append(text.as_bytes())?;
    }
    Ok(())
}

/// The line of a bar.
fn bar_text(alloc: Global, number: usize, bar: Rect, printed: bool) -> Result<String, NoMemory>
    ensures { IfOk result (λ line. string_bytes line ≡ bar_line number bar printed) }
{
    let sides = rect_text(alloc, bar)?;
    let sides = sides.as_str();
    let printed = printed_text(printed);
    let line = format!(in alloc; "bar {number} {sides} printed {printed}\n")?;
    Ok(line)
}

/// The sides of a rectangle.
fn rect_text(alloc: Global, rect: Rect) -> Result<String, NoMemory>
    ensures { IfOk result (λ text. string_bytes text ≡ rect_text rect) }
{
    let Rect { x0, y0, x1, y1 } = rect;
    let text = format!(in alloc; "{x0} {y0} {x1} {y1}")?;
    Ok(text)
}

fn printed_text(printed: bool) -> &'static str
    ensures { result.now ≡ settled_text printed }
{
    if printed { "yes" } else { "no" }
}
