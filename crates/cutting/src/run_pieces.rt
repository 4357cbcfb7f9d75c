//! Cuts edges into pieces.

ghost use Rattle.std.specs.Prelude.{◌≡◌, ◌+◌, ◌*◌, ◌<◌, ◌≤◌, ℕ, ℤ, pos, ◌+ℤ◌, ◌≤ℤ◌, ◌++◌, false, OnOk, IfOk, All, length, replicate};
ghost use Rattle.std.specs.Int.RustNames.{unsigned_abs};
ghost use Rattle.outline_model.specs.Lengths.{edge_length, end_length, inner_count, inner_length, is_whole, lengths, parts};
ghost use Rattle.outline_model.specs.Lengths.{AreRules};
ghost use Rattle.cutting.specs.Limits.{AreSorted, IsCuttable};
ghost use Rattle.outline_model.specs.Pieces.{laid, pieces_along, pieces_of};
ghost use Rattle.outline_model.specs.Ranges.{IsInLayout};

use opc_base::CutRules;
use outline_model::{Edge, EdgePiece};
use std::alloc::{AllocError, Global};

/// The pieces of all edges.
pub fn cut_edges(
    alloc: Global,
    edges: &[Edge],
    rules: &CutRules,
) -> Result<Vec<EdgePiece>, AllocError>
    requires rules { AreRules rules.now }
    requires edges { All IsCuttable edges.now }
    ensures { IfOk result (λ ps. ps.items ≡ pieces_along rules.now edges.now) }
{
    let mut pieces = Vec::new(alloc);
    for edge in edges {
        cut_edge(&mut pieces, edge, rules)?;
    }
    Ok(pieces)
}

/// The number of pieces of all edges. No piece is made.
pub fn count_pieces(edges: &[Edge], rules: &CutRules) -> u64
    requires rules { AreRules rules.now }
    requires edges { All IsCuttable edges.now }
    requires sorted { AreSorted edges.now }
    ensures { result ≡ length (pieces_along rules.now edges.now) }
{
    let mut total = 0;
    for edge in edges {
        total += u64::from(piece_count(edge, rules));
    }
    total
}

/// Adds the pieces of an edge.
fn cut_edge(pieces: &mut Vec<EdgePiece>, edge: &Edge, rules: &CutRules) -> Result<(), AllocError>
    requires rules { AreRules rules.now }
    requires edge { IsCuttable edge.now }
    ensures { OnOk result (pieces.new.items ≡ pieces.old.items ++ pieces_of rules.now edge.now) }
{
    if is_whole(edge, rules) {
        lay(pieces, edge, edge.lo, length_of(edge), 1)?;
        return Ok(());
    }
    let inner = inner_length(edge, rules);
    let count = inner_count(edge, rules);
    let first = lay(pieces, edge, edge.lo, end_length(rules, edge.low_convex), 1)?;
    let last = lay_parts(pieces, edge, first, inner, count)?;
    lay(pieces, edge, last, end_length(rules, edge.high_convex), 1)?;
    Ok(())
}

/// The number of pieces of an edge.
pub fn piece_count(edge: &Edge, rules: &CutRules) -> u32
    requires rules { AreRules rules.now }
    requires edge { IsCuttable edge.now }
    ensures count { result ≡ length (lengths rules.now edge.now) }
    ensures bound { result ≤ edge_length edge.now }
{
    if is_whole(edge, rules) {
        1
    } else {
        inner_count(edge, rules) + 2
    }
}

/// Whether the edge is too short to be cut, or is the end of a line.
fn is_whole(edge: &Edge, rules: &CutRules) -> bool
    requires rules { AreRules rules.now }
    requires edge { IsCuttable edge.now }
    ensures { result ≡ is_whole rules.now edge.now }
{
    let length = length_of(edge);
    let low = end_length(rules, edge.low_convex);
    let high = end_length(rules, edge.high_convex);
    length < low + high + rules.piece.unsigned_abs()
        || length <= rules.line_end.unsigned_abs() && edge.low_convex && edge.high_convex
}

/// The length of what is left of an edge between the pieces at its ends.
fn inner_length(edge: &Edge, rules: &CutRules) -> u32
    requires rules { AreRules rules.now }
    requires edge { IsCuttable edge.now }
    requires cut { is_whole rules.now edge.now ≡ false }
    ensures { result ≡ inner_length rules.now edge.now }
{
    let low = end_length(rules, edge.low_convex);
    let high = end_length(rules, edge.high_convex);
    length_of(edge) - (low + high)
}

/// The number of pieces between those at the ends of an edge.
fn inner_count(edge: &Edge, rules: &CutRules) -> u32
    requires rules { AreRules rules.now }
    requires edge { IsCuttable edge.now }
    requires cut { is_whole rules.now edge.now ≡ false }
    ensures count { result ≡ inner_count rules.now edge.now }
    ensures some { 0 < result }
    ensures bound { result + 2 ≤ edge_length edge.now }
{
    inner_length(edge, rules) / rules.piece.unsigned_abs()
}

fn length_of(edge: &Edge) -> u32
    requires { IsCuttable edge.now }
    ensures length { result ≡ edge_length edge.now }
    ensures some { 0 < result }
    ensures bound { result ≤ 2096000 }
{
    (edge.hi - edge.lo).unsigned_abs()
}

/// The length of a piece at the end of an edge.
fn end_length(rules: &CutRules, convex: bool) -> u32
    requires { AreRules rules.now }
    ensures length { result ≡ end_length rules.now convex }
    ensures some { 0 < result }
    ensures bound { result ≤ 4096 }
{
    if convex {
        rules.corner_out.unsigned_abs()
    } else {
        rules.corner_in.unsigned_abs()
    }
}

/// Adds pieces that divide a length evenly, the longer ones first. The answer is where they end.
fn lay_parts(
    pieces: &mut Vec<EdgePiece>,
    edge: &Edge,
    from: i32,
    total: u32,
    count: u32,
) -> Result<i32, AllocError>
    requires count { 0 < count }
    requires from { IsInLayout from }
    requires to { IsInLayout (from +ℤ pos total) }
    ensures pieces { OnOk result (pieces.new.items ≡ pieces.old.items ++ laid edge.now.side edge.now.line from (parts total count)) }
    ensures end { IfOk result (λ end. end ≡ from +ℤ pos total) }
{
    let longer = total % count;
    let middle = lay(pieces, edge, from, total / count + 1, longer)?;
    let end = lay(pieces, edge, middle, total / count, count - longer)?;
    Ok(end)
}

/// Adds pieces of one length, one after another. The answer is where they end.
fn lay(
    pieces: &mut Vec<EdgePiece>,
    edge: &Edge,
    from: i32,
    length: u32,
    count: u32,
) -> Result<i32, AllocError>
    requires from { IsInLayout from }
    requires to { IsInLayout (from +ℤ pos (count * length)) }
    ensures pieces { OnOk result (pieces.new.items ≡ pieces.old.items ++ laid edge.now.side edge.now.line from (replicate count length)) }
    ensures end { IfOk result (λ end. end ≡ from +ℤ pos (count * length)) }
{
    for i in 0..count {
        let lo = from + (i * length) as i32;
        pieces.push(EdgePiece {
            side: edge.side,
            line: edge.line,
            lo,
            hi: lo + length as i32,
        })?;
    }
    Ok(from + (count * length) as i32)
}
