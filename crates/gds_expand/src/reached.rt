//! The structures that references reach.

ghost use Rattle.std.specs.Prelude.{◌≡◌, ℕ, ◌<◌, ◌↔◌, length, vec_len, IfOk};
ghost use Rattle.structure_graph.specs.Graph.{IsClosed, IsMarked, Reaches};

use std::alloc::{AllocError, Global};
use structure_graph::reached_by_reference;

/// Marks `start` and the structures that it reaches.
pub(crate) fn reached_from(
    alloc: Global,
    graph: &[Vec<usize>],
    start: usize,
) -> Result<Vec<bool>, AllocError>
    requires closed { IsClosed graph.now }
    requires start { start < length graph.now }
    ensures size { IfOk result (λ marks. vec_len marks ≡ length graph.now) }
    ensures marked { IfOk result (λ marks. (s : ℕ) → IsMarked marks.items s ↔ Reaches graph.now start s) }
{
    let mut marks = reached_by_reference(alloc, graph, start)?;
    marks[start] = true;
    Ok(marks)
}
