//! The answer for a session with scatter bars as it stands.
ghost use Rattle.std.specs.Prelude.{◌≡◌, IfOk};
ghost use Rattle.opc_base.specs.Lanes.{weights_of};
ghost use Rattle.opc_engine.specs.BarReady.{CanAssist, HasBarRun, IsBarWritten};
ghost use Rattle.opc_engine.specs.Standing.{IsOver};

use crate::Answer;
use crate::bar_prepare::BarPrepared;
use crate::bar_print::{Light, printed_bars};
use crate::bar_table::bar_table_of;
use gds_writer::write_mask;
use opc_base::{NoMemory, Watch};
use opc_session::Session;
use prefix_tables::Tables;
use std::alloc::Global;
use std::thread::Threads;

/// The mask file of a session, and its table with the lines of these rounds and one for each bar.
pub fn bars_written<R: Threads + Sync, W: Watch + Sync>(
    rt: &R,
    alloc: Global,
    given: &BarPrepared,
    session: &Session<'_>,
    tables: &Tables,
    weights: &[i64],
    rounds: &[u8],
    watch: &W,
) -> Result<Answer, NoMemory>
    requires ready { CanAssist given.now }
    requires over { IsOver given.now.whole session.now }
    requires tables { tables.now ≡ given.now.whole.kernels }
    requires weights { weights.now ≡ weights_of tables.now }
    ensures { IfOk result (IsBarWritten given.now session.now rounds.now) }
{
    // They keep all rules.
    let _ = session.offsets();
    let region = session.mask()?;
    let rules = &given.whole.rules;
    let light = Light {
        mask: &region,
        tables,
        weights,
        rules,
    };
    let flags = printed_bars(rt, alloc, &light, &given.bars, watch)?;
    let mask = write_mask(
        alloc,
        &given.whole.head,
        &region,
        &rules.out,
        rules.pick.grid,
    )?;
    let rectangles = region.rects().len() as u32;
    let table = bar_table_of(alloc, given, session, rounds, &flags, rectangles)?;
    Ok(Answer {
        mask,
        table: table.text,
        line: table.last,
    })
}
