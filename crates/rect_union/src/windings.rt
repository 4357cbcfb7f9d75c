//! How often each outline winds round a place.

ghost use Rattle.std.specs.Prelude.{◌≡◌, ◌<◌, ◌≤◌, ◌+ℤ◌, ℤ, length, vec_len, slice_set, FitsSigned, IfOk};
ghost use Rattle.std.specs.Int.{w128};
ghost use Rattle.rect_union.specs.Sums.{any_set, count_set, one_if_set};
ghost use Rattle.rect_union.specs.Windings.{AreZero, count_at};

use std::alloc::{AllocError, Global};

/// A count for each owner, and how many of them are not 0.
#[derive(Debug, Drop)]
pub struct Windings {
    pub counts: Vec<i128>,
    pub covering: usize,
    pub ghost counted: { covering ≡ count_set (length counts.items) (count_at counts.items) },
}

impl Windings {
    /// A count of 0 for each owner.
    pub fn new(alloc: Global, owners: usize) -> Result<Self, AllocError>
        ensures size { IfOk result (λ windings. vec_len windings.counts ≡ owners) }
        ensures zero { IfOk result (λ windings. AreZero windings.counts.items) }
    {
        Ok(Windings {
            counts: vec![in alloc; 0; owners]?,
            covering: 0,
        })
    }

    /// Adds to the count of an owner.
    pub fn add(&mut self, owner: usize, sign: i128)
        requires owner { owner < vec_len self.old.counts }
        requires fits { FitsSigned w128 (count_at self.old.counts.items owner +ℤ sign) }
        ensures { self.new.counts.items ≡ slice_set self.old.counts.items owner (count_at self.old.counts.items owner +ℤ sign) }
    {
        let before = self.counts[owner];
        let after = before + sign;
        self.counts[owner] = after;
        self.covering = self.covering + one_if_set(after) - one_if_set(before);
    }

    /// Whether some count is not 0.
    pub fn is_covered(&self) -> bool
        ensures { result ≡ any_set (length self.now.counts.items) (count_at self.now.counts.items) }
    {
        self.covering > 0
    }
}

/// 1 for a count that is not 0.
fn one_if_set(count: i128) -> usize
    ensures value { result ≡ one_if_set count }
    ensures small { result ≤ 1 }
{
    usize::from(count != 0)
}
