//! Random moves, lists of moves and rounds from a seed, after each of which every stored sum is the plain pixel sum for
//! the mask as it stands.

ghost use Rattle.std.specs.Prelude.{IfOk};
ghost use Rattle.opc_base.specs.Optics.{KeepsBounds};
ghost use Rattle.session_rows.specs.Scenes.{IsScene};

use crate::plain::is_plain;
use crate::play::Play;
use crate::scene::{Plan, Scene};
use geometry_rows::fault::RowFault;
use opc_base::{CutRules, KernelSet, Move, Moved, NoMemory, NoWatch, Rect, RunRules, SiteRules};
use optics_rows::seeds::Numbers;
use std::alloc::Global;
use std::process::Abort;
use std::test::Fail;
use std::thread::Threads;

/// No target has more rectangles.
const MOST: u8 = 7;

/// How much was done: moves that were done and refused, rounds, and fragments that moved in them.
#[derive(Clone, Copy, Debug, PartialEq, Eq)]
struct Tally {
    done: u32,
    refused: u32,
    rounds: u32,
    moved: u32,
}

/// A session of a random target near a place under random kernels, under one transmission or two.
#[derive(Clone, Copy)]
struct Game {
    seed: u32,
    place: i32,
    reach: u16,
    kernels: u8,
    is_dark: bool,
}

/// A rectangle of random sides from 8 to 32 pixels, at a multiple of 8 pixels from a place.
fn rect_near(numbers: &mut Numbers, place: i32) -> Rect {
    let x0 = place.saturating_add(8 * numbers.next(0, 9));
    let y0 = place.saturating_add(8 * numbers.next(0, 9));
    Rect {
        x0,
        y0,
        x1: x0.saturating_add(8 * numbers.next(1, 4)),
        y1: y0.saturating_add(8 * numbers.next(1, 4)),
    }
}

/// Random rectangles near a place.
fn rects_near(alloc: Global, numbers: &mut Numbers, place: i32) -> Result<Vec<Rect>, NoMemory> {
    let mut rects = Vec::new(alloc);
    for _ in 0..MOST {
        rects.push(rect_near(numbers, place))?;
    }
    Ok(rects)
}

/// The first of many random targets that keeps the rules.
fn scene_of(
    alloc: Global,
    numbers: &mut Numbers,
    game: Game,
    plan: &Plan,
) -> Result<Scene, RowFault>
    ensures { IfOk result IsScene }
{
    for _ in 0..100u8 {
        let rects = rects_near(alloc, numbers, game.place)?;
        let set = set_of(alloc, numbers, game)?;
        match Scene::new(alloc, &rects, set, plan) {
            Err(RowFault::BreaksRules) => {}
            other => return other,
        }
    }
    Err(RowFault::BreaksRules)
}

/// So many random kernels of a reach, under one transmission or two.
fn set_of(alloc: Global, numbers: &mut Numbers, game: Game) -> Result<KernelSet, NoMemory>
    ensures { IfOk result KeepsBounds }
{
    let reach = game.reach % 5;
    let count = game.kernels % 4 + 1;
    if game.is_dark {
        numbers.dark_set(alloc, reach, count)
    } else {
        numbers.set(alloc, reach, count)
    }
}

/// A random move of one of so many fragments.
fn roll(numbers: &mut Numbers, count: u32) -> Move {
    let fragment = numbers.next(0, 1024).unsigned_abs() % count.max(1);
    Move {
        fragment,
        delta: numbers.next(-3, 7),
    }
}

/// So many random moves.
fn rolls(
    alloc: Global,
    numbers: &mut Numbers,
    count: u32,
    length: u8,
) -> Result<Vec<Move>, NoMemory> {
    let mut moves = Vec::new(alloc);
    for _ in 0..length {
        moves.push(roll(numbers, count))?;
    }
    Ok(moves)
}

fn counted(tally: Tally, answer: &Moved) -> Tally {
    let is_done = u32::from(*answer == Moved::Done);
    Tally {
        done: tally.done.saturating_add(is_done),
        refused: tally.refused.saturating_add(1 - is_done),
        ..tally
    }
}

/// Makes a list of so many random moves.
fn list_turn<R: Threads + Sync>(
    rt: &R,
    alloc: Global,
    numbers: &mut Numbers,
    play: &mut Play,
    length: u8,
    tally: Tally,
) -> Result<Tally, RowFault> {
    let moves = rolls(alloc, numbers, play.session().count(), length)?;
    let answers = play.move_list(rt, alloc, &moves, &NoWatch)?;
    let mut tally = tally;
    for answer in answers.iter() {
        tally = counted(tally, answer);
    }
    Ok(tally)
}

/// Makes a random move, a list of them, or a round.
fn turn<R: Threads + Sync>(
    rt: &R,
    alloc: Global,
    numbers: &mut Numbers,
    play: &mut Play,
    tally: Tally,
) -> Result<Tally, RowFault> {
    let what = numbers.next(0, 8);
    if what == 0 {
        let summary = play.round(rt, &NoWatch);
        return Ok(Tally {
            rounds: tally.rounds.saturating_add(1),
            moved: tally.moved.saturating_add(summary.moved),
            ..tally
        });
    }
    if what <= 2 {
        return list_turn(rt, alloc, numbers, play, 6, tally);
    }
    let one = roll(numbers, play.session().count());
    let answer = play.move_one(one.fragment, one.delta)?;
    Ok(counted(tally, &answer))
}

/// Takes so many turns, after each of which all sums are plain.
fn take_turns<R: Abort + Threads + Sync>(
    rt: &R,
    alloc: Global,
    numbers: &mut Numbers,
    play: &mut Play,
    count: u8,
) -> Result<Tally, RowFault> {
    let mut tally = Tally {
        done: 0,
        refused: 0,
        rounds: 0,
        moved: 0,
    };
    for _ in 0..count {
        tally = turn(rt, alloc, numbers, play, tally)?;
        assert!(rt; is_plain(play)?);
    }
    Ok(tally)
}

/// Plays 200 turns from a seed, and then a list of more moves than there are fragments, which comes in batches. The answer
/// is how far each fragment has moved then.
fn play_game<R: Abort + Threads + Sync>(
    rt: &R,
    alloc: Global,
    game: Game,
    plan: &Plan,
) -> Result<Vec<i32>, RowFault> {
    let mut numbers = Numbers::new(game.seed);
    let scene = scene_of(alloc, &mut numbers, game, plan)?;
    let mut play = Play::open(rt, alloc, &scene)?;
    assert!(rt; is_plain(&play)?);
    let tally = take_turns(rt, alloc, &mut numbers, &mut play, 200)?;
    let tally = list_turn(rt, alloc, &mut numbers, &mut play, 250, tally)?;
    assert!(rt; is_plain(&play)?);
    assert!(rt; tally.done > 100 && tally.refused > 20);
    assert!(rt; tally.rounds > 10 && tally.moved > 0);
    let offsets = play.session().offsets().to_vec(alloc)?;
    Ok(offsets)
}

/// Samples, pieces, and tiles for so many workers.
fn plan(threshold: u32, samples: u8, piece: u8, tile: u16, workers: u8) -> Plan {
    Plan {
        site: SiteRules {
            threshold: i64::from(threshold) + 1,
            samples: i32::from(samples % 16 + 1),
        },
        cut: CutRules {
            piece: i32::from(piece) + 1,
            corner_out: 3,
            corner_in: 4,
            line_end: 6,
        },
        run: RunRules {
            settle: 0,
            rounds: 2,
            tile: i32::from(tile % 4081 + 16),
            workers: u32::from(workers % 64 + 1),
        },
    }
}

fn game_of(seed: u32, place: i32, reach: u16, kernels: u8, is_dark: bool) -> Game {
    Game {
        seed,
        place,
        reach,
        kernels,
        is_dark,
    }
}

#[test]
fn sums_stay_plain(rt: HostRuntime) -> Result<(), Fail> {
    let game = game_of(1, -8, 2, 1, false);
    play_game(&rt, rt.alloc(), game, &plan(100_000_000, 1, 15, 48, 1))?;
    Ok(())
}

#[test]
fn sums_stay_plain_near_the_low_limit(rt: HostRuntime) -> Result<(), Fail> {
    let game = game_of(2, -1_048_000, 2, 0, false);
    play_game(&rt, rt.alloc(), game, &plan(100_000_000, 1, 20, 4077, 1))?;
    Ok(())
}

#[test]
fn sums_stay_plain_near_the_high_limit(rt: HostRuntime) -> Result<(), Fail> {
    let game = game_of(3, 1_047_896, 1, 0, true);
    play_game(&rt, rt.alloc(), game, &plan(1_000_000, 2, 12, 0, 6))?;
    Ok(())
}

#[test]
fn all_tiles_and_workers_do_the_same(rt: HostRuntime) -> Result<(), Fail> {
    let one = game_of(6, 1_000_000, 2, 0, false);
    let wanted = play_game(&rt, rt.alloc(), one, &plan(100_000_000, 1, 20, 0, 0))?;
    for (tile, workers) in [(0, 6), (48, 1), (4077, 0)] {
        let plan = plan(100_000_000, 1, 20, tile, workers);
        let offsets = play_game(&rt, rt.alloc(), one, &plan)?;
        assert!(rt; offsets == wanted);
    }
    Ok(())
}
