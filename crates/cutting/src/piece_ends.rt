//! Finds pieces by the points at which they start or finish.

ghost use Rattle.std.specs.Prelude.{◌≡◌, ◌<◌, ◌^◌, ℕ, IfOk, IsSome, Some, length, true, false, not};
ghost use Rattle.std.specs.BTreeMap as tree;
ghost use Rattle.cutting.specs.Ends.{AreIndexed, AreJoinedPieces, IsJoinedPiece, IsMet, JoinsAt, end_of, pair_cmp, piece_at};

use opc_base::Side;
use outline_model::{EdgePiece, Fragment, Join, is_rising};
use std::alloc::{AllocError, Global};
use std::collections::BTreeMap;

/// The pieces as fragments, each joined to those that meet it at its ends.
pub fn join_pieces(alloc: Global, pieces: &[EdgePiece]) -> Result<Vec<Fragment>, AllocError>
    requires count { length pieces.now < 2 ^ 32 }
    requires met { (k : ℕ) → k < length pieces.now → IsMet true pieces.now (piece_at pieces.now k) × IsMet false pieces.now (piece_at pieces.now k) }
    ensures { IfOk result (λ fs. AreJoinedPieces pieces.now (length pieces.now) fs.items) }
{
    let starts = index_ends(alloc, pieces, true)?;
    let finishes = index_ends(alloc, pieces, false)?;
    let mut fragments = Vec::new(alloc);
    for piece in pieces {
        fragments.push(join_piece(pieces, piece, &starts, &finishes))?;
    }
    Ok(fragments)
}

/// The piece as a fragment.
fn join_piece(
    pieces: &[EdgePiece],
    piece: &EdgePiece,
    starts: &BTreeMap<(i32, i32), u32>,
    finishes: &BTreeMap<(i32, i32), u32>,
) -> Fragment
    requires starts { AreIndexed true pieces.now (length pieces.now) starts.now }
    requires finishes { AreIndexed false pieces.now (length pieces.now) finishes.now }
    requires next { IsMet true pieces.now piece.now }
    requires previous { IsMet false pieces.now piece.now }
    ensures { IsJoinedPiece pieces.now piece.now result }
{
    let next = join_at(pieces, piece, starts, true);
    let previous = join_at(pieces, piece, finishes, false);
    let rising = is_rising(piece.side);
    if rising {
        Fragment {
            side: piece.side,
            edge: piece.line,
            lo: piece.lo,
            hi: piece.hi,
            low: previous,
            high: next,
        }
    } else {
        Fragment {
            side: piece.side,
            edge: piece.line,
            lo: piece.lo,
            hi: piece.hi,
            low: next,
            high: previous,
        }
    }
}

/// The number of a piece at each point at which one starts, or finishes.
fn index_ends(
    alloc: Global,
    pieces: &[EdgePiece],
    starting: bool,
) -> Result<BTreeMap<(i32, i32), u32>, AllocError>
    requires { length pieces.now < 2 ^ 32 }
    ensures { IfOk result (λ ends. AreIndexed starting pieces.now (length pieces.now) ends) }
{
    let mut ends = BTreeMap::new(alloc);
    for (i, piece) in pieces.iter().enumerate() {
        ends.insert(end_of(piece, starting), i as u32)?;
    }
    Ok(ends)
}

/// The join of a piece to the one that starts where it finishes, or that finishes where it starts.
fn join_at(
    pieces: &[EdgePiece],
    piece: &EdgePiece,
    ends: &BTreeMap<(i32, i32), u32>,
    starting: bool,
) -> Join
    requires ends { AreIndexed starting pieces.now (length pieces.now) ends.now }
    requires met { IsMet starting pieces.now piece.now }
    ensures { JoinsAt starting pieces.now piece.now.side result (end_of (not starting) piece.now) }
{
    let number = number_at(ends, end_of(piece, !starting));
    if pieces[number as usize].side == piece.side {
        Join::Cut(number)
    } else {
        Join::Corner(number)
    }
}

fn number_at(ends: &BTreeMap<(i32, i32), u32>, point: (i32, i32)) -> u32
    requires { IsSome (tree.get pair_cmp ends.now point) }
    ensures { tree.get pair_cmp ends.now point ≡ Some result }
{
    match ends.get(&point) {
        Some(number) => *number,
        None => unreachable!(),
    }
}

/// The point at which the walk of a piece, with the inside on the left hand, starts or finishes.
fn end_of(piece: &EdgePiece, starting: bool) -> (i32, i32)
    ensures { result ≡ end_of starting piece.now }
{
    match (piece.side, starting) {
        (Side::Left, true) | (Side::Right, false) => (piece.line, piece.hi),
        (Side::Left, false) | (Side::Right, true) => (piece.line, piece.lo),
        (Side::Down, true) | (Side::Up, false) => (piece.lo, piece.line),
        (Side::Down, false) | (Side::Up, true) => (piece.hi, piece.line),
    }
}
