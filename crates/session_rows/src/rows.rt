//! Moves and rounds of small targets, with numbers that were worked out by hand.

use crate::play::Reading;
use crate::reach::Reached;
use crate::scene::{PLAN, Plan};
use crate::table::{At, State, Step, check_list, check_reach, check_steps};
use geometry_rows::shapes::rect;
use opc_base::{Broken, CutRules, Move, Moved, Pix, Place, Rect, RoundSummary, RuleName, Totals};
use std::test::Fail;

/// Two bars, with three pixels between them.
const BARS: [Rect; 2] = [
    Rect {
        x0: 0,
        y0: 0,
        x1: 6,
        y1: 20,
    },
    Rect {
        x0: 9,
        y0: 0,
        x1: 15,
        y1: 20,
    },
];

/// A bar below and a bar on the left, which overlap in a corner.
const ANGLE: [Rect; 2] = [
    Rect {
        x0: 0,
        y0: 0,
        x1: 20,
        y1: 8,
    },
    Rect {
        x0: 0,
        y0: 0,
        x1: 8,
        y1: 20,
    },
];

fn at_pixel(rule: RuleName, x: i32, y: i32) -> Moved {
    Moved::Refused(Broken {
        rule,
        at: Place::Pixel(Pix { x, y }),
    })
}

fn at_fragment(rule: RuleName, i: u32) -> Moved {
    Moved::Refused(Broken {
        rule,
        at: Place::Fragment(i),
    })
}

fn by(fragment: u32, delta: i32) -> Move {
    Move { fragment, delta }
}

fn round(worst: i32, total: i64, moved: u32) -> Step {
    Step::Round(RoundSummary {
        worst,
        total,
        moved,
    })
}

fn at(fragment: u32, offset: i32, inside: i64, outside: i64, error: i32) -> At {
    At {
        fragment,
        reading: Reading {
            offset,
            inside,
            outside,
            error,
        },
    }
}

fn totals(worst: i32, total: i64) -> Totals {
    Totals { worst, total }
}

#[test]
fn nothing_to_move(rt: HostRuntime) -> Result<(), Fail> {
    let state = State {
        readings: &[],
        mask: &[],
        totals: totals(0, 0),
    };
    check_steps(&rt, rt.alloc(), &[], &PLAN, &[round(0, 0, 0)], &state)?;
    check_list(&rt, rt.alloc(), &[], &PLAN, &[], &[], &state)?;
    Ok(())
}

#[test]
fn bars_in_two_rounds(rt: HostRuntime) -> Result<(), Fail> {
    let readings = [
        at(0, 1, 81, 36, 7),
        at(1, 1, 81, 36, 7),
        at(2, 0, 36, 9, -9),
        at(3, 1, 81, 36, 7),
        at(4, 1, 81, 36, 7),
        at(5, 1, 81, 36, 7),
        at(6, 1, 81, 36, 7),
        at(7, 1, 81, 36, 7),
    ];
    let state = State {
        readings: &readings,
        mask: &[rect(-1, -1, 7, 21), rect(9, -1, 16, 21)],
        totals: totals(9, 58),
    };
    let steps = [round(9, 72, 7), round(9, 58, 0)];
    check_steps(&rt, rt.alloc(), &BARS, &PLAN, &steps[..1], &state)?;
    check_steps(&rt, rt.alloc(), &BARS, &PLAN, &steps, &state)?;
    Ok(())
}

#[test]
fn an_angle_in_three_moves(rt: HostRuntime) -> Result<(), Fail> {
    let readings = [
        at(0, 0, 36, 9, -9),
        at(1, 2, 81, 81, 23),
        at(2, 0, 36, 9, -9),
        at(3, 0, 36, 9, -9),
        at(4, 3, 81, 81, 32),
        at(5, 0, 36, 9, -9),
    ];
    let state = State {
        readings: &readings,
        mask: &[rect(0, 0, 20, 11), rect(0, 11, 10, 20)],
        totals: totals(32, 91),
    };
    let steps = [
        Step::Move(by(1, 2), Moved::Done),
        Step::Move(by(4, 3), Moved::Done),
        Step::Move(by(1, 10), at_fragment(RuleName::M4, 4)),
    ];
    check_steps(&rt, rt.alloc(), &ANGLE, &PLAN, &steps, &state)?;
    Ok(())
}

// The bars once more, whose inner edges come near each other, touch and overlap.
#[test]
fn bars_in_six_moves(rt: HostRuntime) -> Result<(), Fail> {
    let moves = [by(1, 2), by(1, 2), by(1, 3), by(1, 5), by(1, 17), by(1, -2)];
    let answers = [
        at_pixel(RuleName::M2, 8, 0),
        at_pixel(RuleName::M2, 8, 0),
        at_pixel(RuleName::M0, 9, 0),
        at_pixel(RuleName::M0, 9, 0),
        at_fragment(RuleName::M5, 1),
        Moved::Done,
    ];
    let steps = [
        Step::Move(moves[0], answers[0]),
        Step::Move(moves[1], answers[1]),
        Step::Move(moves[2], answers[2]),
        Step::Move(moves[3], answers[3]),
        Step::Move(moves[4], answers[4]),
        Step::Move(moves[5], answers[5]),
    ];
    let state = State {
        readings: &[
            at(1, -2, 0, 0, -32),
            at(2, 0, 36, 9, -9),
            at(4, 0, 16, 4, -32),
        ],
        mask: &[rect(0, 0, 4, 20), rect(9, 0, 15, 20)],
        totals: totals(32, 141),
    };
    check_steps(&rt, rt.alloc(), &BARS, &PLAN, &steps, &state)?;
    check_list(&rt, rt.alloc(), &BARS, &PLAN, &moves, &answers, &state)?;
    Ok(())
}

/// Edges of 10 and of 15 pixels are cut into pieces.
fn pieces() -> Plan {
    Plan {
        site: PLAN.site,
        cut: CutRules {
            piece: 4,
            corner_out: 3,
            corner_in: 5,
            line_end: 0,
        },
        run: PLAN.run,
    }
}

#[test]
fn pieces_of_a_bar(rt: HostRuntime) -> Result<(), Fail> {
    let steps = [
        Step::Move(by(1, 2), Moved::Done),
        Step::Move(by(7, -1), Moved::Done),
        Step::Move(by(6, -1), Moved::Done),
        Step::Move(by(6, -2), at_fragment(RuleName::M4, 0)),
    ];
    let readings = [
        at(0, 0, 16, 4, -32),
        at(1, 2, 81, 81, 23),
        at(6, -1, 9, 0, -32),
        at(7, -1, 9, 0, -32),
        at(13, 0, 36, 9, -9),
    ];
    let mask = [
        rect(8, 0, 15, 1),
        rect(0, 1, 15, 3),
        rect(-2, 3, 15, 7),
        rect(0, 7, 15, 10),
    ];
    let state = State {
        readings: &readings,
        mask: &mask,
        totals: totals(32, 209),
    };
    let target = [rect(0, 0, 15, 10)];
    check_steps(&rt, rt.alloc(), &target, &pieces(), &steps, &state)?;
    Ok(())
}

/// Two squares, far from each other.
const SQUARES: [Rect; 2] = [
    Rect {
        x0: 0,
        y0: 0,
        x1: 10,
        y1: 10,
    },
    Rect {
        x0: 1000,
        y0: 1000,
        x1: 1010,
        y1: 1010,
    },
];

#[test]
fn one_move_of_squares(rt: HostRuntime) -> Result<(), Fail> {
    let state = State {
        readings: &[at(0, 1, 81, 36, 7), at(7, 0, 36, 9, -9)],
        mask: &[rect(-1, 0, 10, 10), rect(1000, 1000, 1010, 1010)],
        totals: totals(9, 70),
    };
    let steps = [Step::Move(by(0, 1), Moved::Done)];
    check_steps(&rt, rt.alloc(), &SQUARES, &PLAN, &steps, &state)?;
    let moves = [by(0, 1)];
    let answers = [Moved::Done];
    check_list(&rt, rt.alloc(), &SQUARES, &PLAN, &moves, &answers, &state)?;
    Ok(())
}

#[test]
fn a_round_of_squares(rt: HostRuntime) -> Result<(), Fail> {
    let state = State {
        readings: &[at(0, 1, 81, 36, 7), at(7, 1, 81, 36, 7)],
        mask: &[rect(-1, -1, 11, 11), rect(999, 999, 1011, 1011)],
        totals: totals(7, 56),
    };
    let steps = [round(9, 72, 8)];
    check_steps(&rt, rt.alloc(), &SQUARES, &PLAN, &steps, &state)?;
    Ok(())
}

#[test]
fn a_refused_move_of_bars(rt: HostRuntime) -> Result<(), Fail> {
    let state = State {
        readings: &[at(1, 1, 81, 36, 7), at(2, 0, 36, 9, -9)],
        mask: &[rect(0, 0, 7, 20), rect(9, 0, 15, 20)],
        totals: totals(9, 70),
    };
    let steps = [
        Step::Move(by(1, 1), Moved::Done),
        Step::Move(by(1, 1), at_pixel(RuleName::M2, 8, 0)),
    ];
    check_steps(&rt, rt.alloc(), &BARS, &PLAN, &steps, &state)?;
    Ok(())
}

/// What a rectangle reaches: so many tiles, in which so many fragments stand.
fn reaches(swept: Rect, tiles: usize, fragments: usize) -> (Rect, Reached) {
    (swept, Reached { tiles, fragments })
}

// A move takes 16 steps at most for each fragment that its sweep reaches, and one of a list or a round a step for each
// tile: 128 and 64 steps for the first two, and 14 for the last eight, which are a round's.
#[test]
fn tiles_that_are_reached(rt: HostRuntime) -> Result<(), Fail> {
    check_reach(&rt, rt.alloc(), &BARS, &[reaches(rect(6, 0, 7, 20), 2, 8)])?;
    let rows = [
        reaches(rect(-1, 0, 0, 10), 1, 4),
        reaches(rect(10, 0, 11, 10), 1, 4),
        reaches(rect(999, 1000, 1000, 1010), 2, 3),
        reaches(rect(1010, 1000, 1011, 1010), 3, 4),
        reaches(rect(-1, -1, 11, 0), 1, 4),
        reaches(rect(-1, 10, 11, 11), 1, 4),
        reaches(rect(999, 999, 1011, 1000), 2, 3),
        reaches(rect(999, 1010, 1011, 1011), 3, 4),
    ];
    check_reach(&rt, rt.alloc(), &SQUARES, &rows)?;
    Ok(())
}
