//! The number of points that each structure places, by products.

ghost use Rattle.std.specs.Prelude.{◌≡◌, ℕ, ◌<◌, ◌≤◌, length, slice_index, All, Contains, IfOk, vec_len};
ghost use Rattle.gds_expand.specs.Points.{IsOrderOf, parts_points, points_in, targets_of};
ghost use Rattle.gds_model.specs.PlaceFaults.{saturated};

use std::alloc::{AllocError, Global};

/// What an element places: the points of a shape on the chosen layer, or copies of a structure.
#[derive(Clone, Copy, Debug)]
pub(crate) enum Part {
    Points(u64),
    Copies(u64, usize),
}

/// The points of the parts, where `counts` has those of the structures that they copy.
fn points_of(parts: &[Part], counts: &[u64]) -> u64
    requires { (t : ℕ) → Contains (targets_of parts.now) t → t < length counts.now }
    ensures { (inner : ℕ → ℕ) → ((t : ℕ) → Contains (targets_of parts.now) t → slice_index counts.now t ≡ saturated (inner t)) → result ≡ saturated (parts_points inner parts.now) }
{
    let mut points = 0u64;
    for part in parts {
        let more = match part {
            Part::Points(number) => *number,
            Part::Copies(copies, structure) => copies.saturating_mul(counts[*structure]),
        };
        points = points.saturating_add(more);
    }
    points
}

/// The points that each structure of the order places, or 2^64 - 1 where they are more.
pub(crate) fn point_counts(
    alloc: Global,
    plan: &[Vec<Part>],
    order: &[usize],
) -> Result<Vec<u64>, AllocError>
    requires order { IsOrderOf plan.now order.now }
    requires in_range { All (λ s. s < length plan.now) order.now }
    ensures sized { IfOk result (λ counts. vec_len counts ≡ length plan.now) }
    ensures counted { IfOk result (λ counts. (s depth : ℕ) → Contains order.now s → length order.now ≤ depth → slice_index counts.items s ≡ saturated (points_in plan.now depth s)) }
{
    let mut counts = vec![in alloc; 0u64; plan.len()]?;
    for structure in order {
        let points = points_of(&plan[*structure], &counts);
        counts[*structure] = points;
    }
    Ok(counts)
}
