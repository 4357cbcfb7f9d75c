//! Rows of worked examples: what is done in a session, and what it reads then.

use crate::plain::is_plain;
use crate::play::{Play, Reading};
use crate::reach::{Reached, reach_of, tiles_of};
use crate::scene::{PLAN, Plan, Scene};
use geometry_rows::fault::RowFault;
use opc_base::{Move, Moved, NoWatch, Rect, RoundSummary, Totals};
use std::alloc::Global;
use std::process::Abort;
use std::thread::Threads;

/// A move with its answer, or a round with its summary.
#[derive(Clone, Copy)]
pub enum Step {
    Move(Move, Moved),
    Round(RoundSummary),
}

/// What a fragment reads.
#[derive(Clone, Copy)]
pub struct At {
    pub fragment: u32,
    pub reading: Reading,
}

/// What a session reads.
#[derive(Clone, Copy)]
pub struct State<'a> {
    pub readings: &'a [At],
    pub mask: &'a [Rect],
    pub totals: Totals,
}

/// Takes the steps in a session of the target that these rectangles cover, and looks at what it reads then.
pub fn check_steps<R: Abort + Threads + Sync>(
    rt: &R,
    alloc: Global,
    target: &[Rect],
    plan: &Plan,
    steps: &[Step],
    state: &State,
) -> Result<(), RowFault> {
    let scene = Scene::counting(alloc, target, plan)?;
    let mut play = Play::open(rt, alloc, &scene)?;
    for step in steps {
        check_step(rt, &mut play, step)?;
    }
    check_state(rt, &play, state)
}

/// Makes a list of moves in a session of such a target at once, and looks at the answers and at what it reads then.
pub fn check_list<R: Abort + Threads + Sync>(
    rt: &R,
    alloc: Global,
    target: &[Rect],
    plan: &Plan,
    moves: &[Move],
    answers: &[Moved],
    state: &State,
) -> Result<(), RowFault> {
    let scene = Scene::counting(alloc, target, plan)?;
    let mut play = Play::open(rt, alloc, &scene)?;
    let found = play.move_list(rt, alloc, moves, &NoWatch)?;
    assert!(rt; found.as_slice() == answers);
    check_state(rt, &play, state)
}

fn check_step<R: Abort + Threads + Sync>(
    rt: &R,
    play: &mut Play,
    step: &Step,
) -> Result<(), RowFault> {
    match step {
        Step::Move(one, wanted) => {
            let answer = play.move_one(one.fragment, one.delta)?;
            assert!(rt; answer == *wanted);
        }
        Step::Round(wanted) => {
            let summary = play.round(rt, &NoWatch);
            assert!(rt; summary == *wanted);
        }
    }
    Ok(())
}

fn check_state<R: Abort>(rt: &R, play: &Play, state: &State) -> Result<(), RowFault> {
    for at in state.readings {
        let reading = play.reading(at.fragment)?;
        assert!(rt; reading == at.reading, "{}", at.fragment);
    }
    let mask = play.mask()?;
    assert!(rt; mask.rects() == state.mask);
    assert!(rt; play.totals() == state.totals);
    assert!(rt; is_plain(play)?);
    Ok(())
}

/// Looks at what each rectangle reaches of the tiles of such a target.
pub fn check_reach<R: Abort>(
    rt: &R,
    alloc: Global,
    target: &[Rect],
    rows: &[(Rect, Reached)],
) -> Result<(), RowFault> {
    let scene = Scene::counting(alloc, target, &PLAN)?;
    let index = tiles_of(alloc, &scene)?;
    for (swept, wanted) in rows {
        assert!(rt; reach_of(&index, swept) == *wanted);
    }
    Ok(())
}
