//! The target corrected by a run of rounds, and its mask as polygons.
ghost use Rattle.std.specs.Prelude.{◌≡◌, ◌⊎◌, Err, IfOk, IfErr};
ghost use Rattle.opc_engine.specs.PolygonMasks.{CorrectsToPolygons, IsDrawnFor, IsDrawnRun};
ghost use Rattle.opc_engine.specs.Prepare.{Prepares};
ghost use Rattle.opc_engine.specs.Ready.{CanOpen};
ghost use Rattle.opc_engine.specs.Standing.{IsOver};
ghost use Rattle.opc_engine.specs.Wrapped.{HidesNoMemory};

use crate::image::weights_of;
use crate::ready::{Ready, ready_from};
use crate::run::run;
use crate::table::table_of;
use crate::{Answer, EngineFault};
use mask_polygons::write_polygons;
use opc_base::{NoMemory, Watch};
use opc_session::Session;
use prefix_tables::Tables;
use std::alloc::Global;
use std::marker::Brand;
use std::sync::ledger::Blank;
use std::thread::Threads;

/// The mask file, with a polygon for each component, and the error table after a run of rounds, which is that of `correct`;
/// or the first refusal of the files.
pub fn polygons<R: Threads + Sync, W: Watch + Sync>(
    rt: &R,
    alloc: Global,
    layout: &[u8],
    kernels: &[u8],
    rules: &[u8],
    watch: &W,
) -> Result<Answer, EngineFault>
    ensures answer { IfOk result (CorrectsToPolygons layout.now kernels.now rules.now) }
    ensures refusal { IfErr result (λ fault. (fault ≡ EngineFault.NoMemory)
        ⊎ Prepares layout.now kernels.now rules.now (Err fault)) }
    ensures memory { IfErr result (λ fault. ¬ HidesNoMemory fault) }
{
    let given = ready_from(alloc, layout, kernels, rules)?;
    Ok(drawn_run(rt, alloc, &given, watch)?)
}

/// The answer of `polygons` for what is ready.
fn drawn_run<R: Threads + Sync, W: Watch + Sync>(
    rt: &R,
    alloc: Global,
    given: &Ready,
    watch: &W,
) -> Result<Answer, NoMemory>
    requires { CanOpen given.now }
    ensures { IfOk result (IsDrawnRun given.now) }
{
    let tables = Tables::build(alloc, &given.kernels)?;
    let weights = weights_of(alloc, &given.kernels)?;
    let mut session = Session::open(
        rt,
        alloc,
        &given.fragments,
        &given.region,
        &tables,
        &weights,
        &given.rules,
    )?;
    let rounds = run::<R, W, Brand>(rt, alloc, given, &mut session, watch, Blank::new(1))?;
    drawn(alloc, given, &session, rounds.lines.as_slice())
}

/// The mask file of a session over what is ready, with a polygon for each component, and its error table with the lines
/// `between`.
fn drawn(
    alloc: Global,
    given: &Ready,
    session: &Session<'_>,
    between: &[u8],
) -> Result<Answer, NoMemory>
    requires ready { CanOpen given.now }
    requires over { IsOver given.now session.now }
    ensures { IfOk result (IsDrawnFor given.now session.now between.now) }
{
    // They keep all rules.
    let _ = session.offsets();
    let region = session.mask()?;
    let rules = &given.rules;
    let mask = write_polygons(alloc, &given.head, &region, &rules.out, rules.pick.grid)?;
    let rectangles = region.rects().len() as u32;
    let table = table_of(alloc, given, session, between, rectangles)?;
    Ok(Answer {
        mask,
        table: table.text,
        line: table.last,
    })
}
