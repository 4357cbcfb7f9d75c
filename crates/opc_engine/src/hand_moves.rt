//! The target after moves by hand.
ghost use Rattle.std.specs.Prelude.{◌≡◌, ◌<◌, ◌≤◌, ◌⊎◌, All, Ok, Err, IfOk, IfErr, length};
ghost use Rattle.opc_session.specs.Scenes.{IsAllowed};
ghost use Rattle.opc_engine.specs.Corrections.{Moves, PreparesMoves, moves_result, unnamed_line};
ghost use Rattle.opc_engine.specs.Ready.{CanOpen, subject_of};
ghost use Rattle.opc_engine.specs.ErrorTable.{move_lines};
ghost use Rattle.opc_engine.specs.Runs.{IsMovesRun, unmoved};
ghost use Rattle.opc_engine.specs.Standing.{IsOver};
ghost use Rattle.opc_engine.specs.Written.{IsMovedBy};
ghost use Rattle.opc_engine.specs.Wrapped.{HidesNoMemory};

use crate::image::weights_of;
use crate::ready::{Ready, ready_from};
use crate::written::written;
use crate::{Answer, EngineFault, MAX_MOVES, Which};
use error_table::put_move;
use opc_base::{Bytes, Move, Moved, NoMemory, Steps, Watch};
use opc_session::Session;
use prefix_tables::Tables;
use rule_file::read_moves;
use std::alloc::Global;
use std::marker::Brand;
use std::sync::ledger::{Blank, Ledger};
use std::thread::Threads;

/// The mask file and the error table after the moves of a moves file, each made or refused in turn; or the first refusal of
/// the files, of which the moves file is judged last.
pub fn moves<R: Threads + Sync, W: Watch + Sync>(
    rt: &R,
    alloc: Global,
    layout: &[u8],
    kernels: &[u8],
    rules: &[u8],
    moves: &[u8],
    watch: &W,
) -> Result<Answer, EngineFault>
    ensures answer { IfOk result (Moves layout.now kernels.now rules.now moves.now) }
    ensures refusal { IfErr result (λ fault. (fault ≡ EngineFault.NoMemory)
        ⊎ PreparesMoves layout.now kernels.now rules.now moves.now (Err fault)) }
    ensures memory { IfErr result (λ fault. ¬ HidesNoMemory fault) }
{
    let given = ready_from(alloc, layout, kernels, rules)?;
    let list = moves_of(alloc, moves, given.fragments.count())?;
    Ok(moved(rt, alloc, &given, &list, watch)?)
}

/// The moves of a file for so many fragments, or its first refusal: it is too long, has a fault, or names no fragment.
#[tactic(auto, using(crate::proofs::MemoryLaws::moves_hide_nothing))]
fn moves_of(alloc: Global, bytes: &[u8], count: u32) -> Result<Vec<Move>, EngineFault>
    ensures moves { IfOk result (λ moves. moves_result bytes.now count ≡ Ok moves.items) }
    ensures allowed { IfOk result (λ moves. All (IsAllowed count) moves.items) }
    ensures refusal { IfErr result (λ fault. (fault ≡ EngineFault.NoMemory) ⊎ (moves_result bytes.now count ≡ Err fault)) }
    ensures memory { IfErr result (λ fault. ¬ HidesNoMemory fault) }
{
    if bytes.len() > MAX_MOVES {
        return Err(EngineFault::TooLong {
            which: Which::Moves,
        });
    }
    let moves = read_moves(alloc, bytes)?;
    match unnamed_line(&moves, count) {
        Some(line) => Err(EngineFault::NoFragment { line }),
        None => Ok(moves),
    }
}

/// The first line, counted from 1, that names none of so many fragments.
fn unnamed_line(moves: &[Move], count: u32) -> Option<u32>
    requires { length moves.now ≤ 1048576 }
    ensures { result ≡ unnamed_line count moves.now }
{
    let mut line = 0;
    for one in moves {
        line += 1;
        if one.fragment >= count {
            return Some(line);
        }
    }
    None
}

/// The answer of `moves` for what is ready.
fn moved<R: Threads + Sync, W: Watch + Sync>(
    rt: &R,
    alloc: Global,
    given: &Ready,
    moves: &[Move],
    watch: &W,
) -> Result<Answer, NoMemory>
    requires ready { CanOpen given.now }
    requires allowed { All (IsAllowed (length given.now.fragments)) moves.now }
    ensures { IfOk result (IsMovedBy given.now moves.now) }
{
    let tables = Tables::build(alloc, &given.kernels)?;
    let weights = weights_of(alloc, &given.kernels)?;
    let mut session = Session::open(
        rt,
        alloc,
        &given.fragments,
        &given.region,
        &tables,
        &weights,
        &given.rules,
    )?;
    let blank = Blank::new(1);
    let answers = make_moves::<R, W, Brand>(rt, alloc, given, &mut session, moves, watch, blank)?;
    let lines = lines_of(alloc, moves, &answers)?;
    written(alloc, given, &session, lines.as_slice())
}

/// Makes each move in turn, and gives their answers. The steps are counted for no one.
fn make_moves<R: Threads + Sync, W: Watch + Sync, L: Ledger>(
    rt: &R,
    alloc: Global,
    given: &Ready,
    session: &mut Session<'_>,
    moves: &[Move],
    watch: &W,
    blank: Blank,
) -> Result<Vec<Moved>, NoMemory>
    requires over { IsOver given.now session.old }
    requires unmoved { session.old.offsets ≡ unmoved (subject_of given.now) }
    requires allowed { All (IsAllowed (length given.now.fragments)) moves.now }
    requires name { blank.name ≡ L.name }
    requires parts { blank.parts ≡ L.parts }
    requires some { 0 < blank.parts }
    ensures over { IsOver given.now session.new }
    ensures run { IfOk result (λ answers. IsMovesRun (subject_of given.now) moves.now session.new.offsets answers.items) }
{
    let mut steps: Steps<L> = Steps::new(blank);
    let mut answers = vec![in alloc; Moved::Done; moves.len()]?;
    session.move_list(rt, moves, &mut answers, watch, &mut steps);
    Ok(answers)
}

/// The line of each move, with its answer.
fn lines_of(alloc: Global, moves: &[Move], answers: &[Moved]) -> Result<Bytes, NoMemory>
    requires { length answers.now ≡ length moves.now }
    ensures { IfOk result (λ lines. lines ≡ move_lines moves.now answers.now) }
{
    let mut lines = Bytes::from_vec(Vec::new(alloc));
    for i in 0..moves.len() {
        put_move(alloc, &mut lines, &moves[i], &answers[i])?;
    }
    Ok(lines)
}
