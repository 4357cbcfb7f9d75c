//! Random moves of small targets, judged near the move and pixel by pixel.

ghost use Rattle.std.specs.Prelude.{◌<◌};

use crate::dice::Dice;
use crate::fault::RowFault;
use crate::moving::Moving;
use crate::outline_walk::Walk;
use crate::plain_rules::PlainJudge;
use crate::rows::short_runs;
use crate::shapes::{rect, region_of_rects};
use opc_base::{Broken, CutRules, MaskRules, NoMemory, Rect, RuleName};
use std::alloc::Global;
use std::process::Abort;
use std::test::Fail;

/// Fragments of two and three pixels.
const CUT: CutRules = CutRules {
    piece: 3,
    corner_out: 2,
    corner_in: 2,
    line_end: 0,
};

/// So many targets move under each of the rules, so many times each.
const TARGETS: u32 = 20;

const MOVES: u32 = 25;

/// A rectangle of cells of three by three pixels, of which the window has eight by eight.
fn cells(dice: &mut Dice) -> Rect {
    let x = dice.place() % 6;
    let y = dice.place() % 6;
    let columns = dice.place() % 3 + 1;
    let rows = dice.place() % 3 + 1;
    rect(3 * x, 3 * y, 3 * (x + columns), 3 * (y + rows))
}

/// Some rectangles of cells.
fn some_cells(alloc: Global, dice: &mut Dice) -> Result<Vec<Rect>, NoMemory> {
    let mut rects = Vec::new(alloc);
    for _ in 0..5 {
        rects.push(cells(dice))?;
    }
    Ok(rects)
}

/// How often each rule was broken.
#[derive(Drop)]
struct Hits {
    rules: [u32; 6],
    kept: u32,
}

impl Hits {
    fn none() -> Self {
        Hits {
            rules: [0; 6],
            kept: 0,
        }
    }

    /// All moves, those that keep the rules and those that don't.
    fn moves(&self) -> u32 {
        let mut moves = self.kept;
        for hits in self.rules {
            moves = moves.saturating_add(hits);
        }
        moves
    }

    fn count(&mut self, broken: Option<Broken>) {
        match broken {
            None => self.kept = self.kept.saturating_add(1),
            Some(broken) => {
                let place = place_of(broken.rule);
                self.rules[place] = self.rules[place].saturating_add(1);
            }
        }
    }
}

fn place_of(rule: RuleName) -> usize
    ensures { result < 6 }
{
    match rule {
        RuleName::M0 => 0,
        RuleName::M1 => 1,
        RuleName::M2 => 2,
        RuleName::M3 => 3,
        RuleName::M4 => 4,
        RuleName::M5 => 5,
    }
}

/// A random move, judged in both ways.
fn try_move<R: Abort>(
    rt: &R,
    alloc: Global,
    rules: &MaskRules,
    moving: &mut Moving,
    dice: &mut Dice,
) -> Result<Option<Broken>, RowFault> {
    let count = moving.fragments().count();
    if count == 0 {
        return Err(RowFault::NoFragment);
    }
    let i = dice.roll(count);
    let to = dice.place() % 8 - 3;
    let mut offsets = moving.offsets().to_vec(alloc)?;
    if let Some(offset) = offsets.get_mut(i as usize) {
        *offset = to;
    }
    let walk = Walk {
        fragments: moving.fragments(),
        offsets: &offsets,
    };
    let wanted = PlainJudge::new(alloc, walk, rules)?.first_broken();
    let found = moving.take(i, to)?;
    assert!(rt; found == wanted, "fragment {i} to {to}");
    Ok(found)
}

/// The first of some random targets that keeps the rules.
fn random_target(alloc: Global, rules: &MaskRules, dice: &mut Dice) -> Result<Moving, RowFault> {
    for _ in 0..100 {
        let region = region_of_rects(alloc, &some_cells(alloc, dice)?)?;
        match Moving::of_target(alloc, &region, &CUT, *rules) {
            Err(RowFault::BreaksRules) => {}
            made => return made,
        }
    }
    Err(RowFault::BreaksRules)
}

/// Random moves of one target.
fn try_target<R: Abort>(
    rt: &R,
    alloc: Global,
    rules: &MaskRules,
    dice: &mut Dice,
    hits: &mut Hits,
) -> Result<(), RowFault> {
    let mut moving = random_target(alloc, rules, dice)?;
    for _ in 0..MOVES {
        let broken = try_move(rt, alloc, rules, &mut moving, dice)?;
        hits.count(broken);
    }
    Ok(())
}

/// Random moves of random targets, some of which keep the rules, and some of which break each of them.
fn try_rules<R: Abort>(rt: &R, alloc: Global, rules: &MaskRules) -> Result<(), RowFault> {
    let mut dice = Dice::new(20_261_201);
    let mut hits = Hits::none();
    for _ in 0..TARGETS {
        try_target(rt, alloc, rules, &mut dice, &mut hits)?;
    }
    assert_eq!(rt; hits.moves(), TARGETS * MOVES);
    assert!(rt; hits.kept > 0, "{rules:?}");
    for k in 0..6 {
        assert!(rt; hits.rules[k] > 0, "M{k}: {rules:?}");
    }
    Ok(())
}

// Covered and uncovered runs of different least lengths.
#[test]
fn a_local_judge_and_a_plain_one(rt: HostRuntime) -> Result<(), Fail> {
    for rules in [short_runs(2, 3), short_runs(3, 2)] {
        try_rules(&rt, rt.alloc(), &rules)?;
    }
    Ok(())
}
