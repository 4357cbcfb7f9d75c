//! A run of rounds.
ghost use Rattle.std.specs.Prelude.{◌≡◌, ◌<◌, IfOk};
ghost use Rattle.opc_engine.specs.Ready.{subject_of};
ghost use Rattle.opc_engine.specs.Runs.{unmoved};
ghost use Rattle.opc_engine.specs.Standing.{HasRun, IsOver};

use crate::ready::Ready;
use crate::table::is_settled;
use error_table::put_round;
use opc_base::{Bytes, NoMemory, Steps, Watch};
use opc_session::Session;
use std::alloc::Global;
use std::sync::ledger::{Blank, Ledger};
use std::thread::Threads;

/// The lines of the rounds that were made, and how many these are.
#[derive(Drop)]
pub struct Rounds {
    pub lines: Bytes,
    pub made: u32,
}

/// Makes rounds until the errors are settled, or as many as the rules say were made; and gives the lines of the rounds.
/// The steps are counted for no one.
pub fn run<R: Threads + Sync, W: Watch + Sync, L: Ledger>(
    rt: &R,
    alloc: Global,
    given: &Ready,
    session: &mut Session<'_>,
    watch: &W,
    blank: Blank,
) -> Result<Rounds, NoMemory>
    requires over { IsOver given.now session.old }
    requires unmoved { session.old.offsets ≡ unmoved (subject_of given.now) }
    requires name { blank.name ≡ L.name }
    requires parts { blank.parts ≡ L.parts }
    requires some { 0 < blank.parts }
    ensures over { IsOver given.now session.new }
    ensures run { IfOk result (λ rounds. HasRun given.now session.new rounds.lines rounds.made) }
{
    let mut steps: Steps<L> = Steps::new(blank);
    let mut lines = Bytes::from_vec(Vec::new(alloc));
    for made in 0..given.rules.run.rounds {
        if is_settled(session, &given.rules.run) {
            return Ok(Rounds { lines, made });
        }
        let summary = session.round(rt, watch, &mut steps);
        put_round(alloc, &mut lines, made + 1, &summary)?;
    }
    Ok(Rounds {
        lines,
        made: given.rules.run.rounds,
    })
}
