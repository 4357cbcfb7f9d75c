//! How levels go along references.

ghost use Rattle.std.specs.Prelude.{◌≡◌, ℕ, ◌<◌, IfSome, IfNone, IsTrue, Contains, length, slice_index};
ghost use Rattle.structure_graph.specs.Graph.{FallsBelow, IsMarked, NeverRises};

fn level(levels: &[usize], structure: usize) -> usize
    ensures { result ≡ slice_index levels.now structure }
{
    match levels.get(structure) {
        Some(level) => *level,
        None => 0,
    }
}

/// Whether these structures have levels below the limit.
fn are_below(levels: &[usize], structures: &[usize], limit: usize) -> bool
    ensures { IsTrue result → (t : ℕ) → Contains structures.now t → slice_index levels.now t < limit }
{
    for structure in structures {
        if level(levels, *structure) >= limit {
            return false;
        }
    }
    true
}

/// The lowest marked structure with a reference along which the level doesn't fall.
pub(crate) fn lowest_not_falling(
    graph: &[Vec<usize>],
    marks: &[bool],
    levels: &[usize],
) -> Option<usize>
    requires { length marks.now ≡ length graph.now }
    ensures marked { IfSome result (IsMarked marks.now) }
    ensures before { IfSome result (FallsBelow graph.now marks.now levels.now) }
    ensures all { IfNone result (FallsBelow graph.now marks.now levels.now (length graph.now)) }
{
    for structure in 0..graph.len() {
        if marks[structure] && !are_below(levels, &graph[structure], level(levels, structure)) {
            return Some(structure);
        }
    }
    None
}

/// Whether the level rises along no reference of a marked structure.
pub(crate) fn never_rises(graph: &[Vec<usize>], marks: &[bool], levels: &[usize]) -> bool
    requires { length marks.now ≡ length graph.now }
    ensures { IsTrue result → NeverRises graph.now marks.now levels.now }
{
    for structure in 0..graph.len() {
        let limit = level(levels, structure).saturating_add(1);
        if marks[structure] && !are_below(levels, &graph[structure], limit) {
            return false;
        }
    }
    true
}
