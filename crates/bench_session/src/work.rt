//! Sessions of squares, and what is done in them.

ghost use Rattle.session_rows.specs.Scenes.{IsScene};

use geometry_rows::fault::RowFault;
use opc_base::{CutRules, Move, NoMemory, NoWatch, Rect, RunRules, SiteRules};
use optics_rows::seeds::Numbers;
use session_rows::play::Play;
use session_rows::scene::{Plan, Scene};
use std::alloc::Global;
use std::thread::Threads;

/// No layout has more squares: 32,768 fragments.
const MOST: u32 = 8192;

/// How much is done.
#[derive(Clone, Copy)]
pub struct Work {
    pub squares: u32,
    pub workers: u32,
    pub sessions: u32,
    pub rounds: u32,
    pub moves: u32,
}

/// Whole edges, 8 samples to a side, and tiles of 64 pixels for so many workers.
fn plan(workers: u32) -> Plan {
    Plan {
        site: SiteRules {
            threshold: 61_000_000_000,
            samples: 8,
        },
        cut: CutRules {
            piece: 100,
            corner_out: 5,
            corner_in: 5,
            line_end: 10,
        },
        run: RunRules {
            settle: 0,
            rounds: 1,
            tile: 64,
            workers: workers.clamp(1, 64),
        },
    }
}

/// So many squares of ten pixels, in rows of 128 with gaps of 20 pixels.
fn squares(alloc: Global, count: u32) -> Result<Vec<Rect>, NoMemory> {
    let mut rects = Vec::new(alloc);
    for k in 0..count.min(MOST) {
        rects.push(square(k))?;
    }
    Ok(rects)
}

fn square(k: u32) -> Rect {
    let x = (k % 128 * 30) as i32;
    let y = (k / 128 % 64 * 30) as i32;
    Rect {
        x0: x,
        y0: y,
        x1: x + 10,
        y1: y + 10,
    }
}

/// So many random moves of one of so many fragments.
fn moves(
    alloc: Global,
    numbers: &mut Numbers,
    length: u32,
    count: u32,
) -> Result<Vec<Move>, NoMemory> {
    let mut moves = Vec::new(alloc);
    for _ in 0..length {
        let fragment = numbers.next(0, 32768).unsigned_abs() % count.max(1);
        let delta = numbers.next(-2, 5);
        moves.push(Move { fragment, delta })?;
    }
    Ok(moves)
}

/// Opens a session and makes the rounds and the moves. The answer is the sum of the sizes of all errors then, and of all
/// offsets by their places.
fn sum_of_one<R: Threads + Sync>(
    rt: &R,
    alloc: Global,
    numbers: &mut Numbers,
    scene: &Scene,
    work: &Work,
) -> Result<i64, RowFault>
    requires { IsScene scene.now }
{
    let mut play = Play::open(rt, alloc, scene)?;
    for _ in 0..work.rounds {
        play.round(rt, &NoWatch);
    }
    if work.moves > 0 {
        let list = moves(alloc, numbers, work.moves, play.session().count())?;
        play.move_list(rt, alloc, &list, &NoWatch)?;
    }
    Ok(weighed(play.session().offsets()).wrapping_add(play.totals().total))
}

fn weighed(offsets: &[i32]) -> i64 {
    let mut all = 0i64;
    for offset in offsets {
        all = all.wrapping_mul(31).wrapping_add(i64::from(*offset));
    }
    all
}

/// The sum over all sessions.
pub fn sum_of_sessions<R: Threads + Sync>(
    rt: &R,
    alloc: Global,
    work: &Work,
) -> Result<i64, RowFault> {
    let mut numbers = Numbers::new(1);
    let set = numbers.set(alloc, 40, 8)?;
    let rects = squares(alloc, work.squares)?;
    let scene = Scene::new(alloc, &rects, set, &plan(work.workers))?;
    let mut all = 0i64;
    for _ in 0..work.sessions {
        all = all.wrapping_add(sum_of_one(rt, alloc, &mut numbers, &scene, work)?);
    }
    Ok(all)
}
