//! Areas, and areas round many of them.
ghost use Rattle.std.specs.Prelude.{◌≡◌, ◌+◌, ◌<◌, ◌≤◌, ℕ, IfOk, length, true};
ghost use Rattle.fragment.specs.Index.{IsFirstMet, NoneMet, is_met};

use crate::area::{enclose, reaches};
use opc_base::{NoMemory, Rect};
use std::alloc::Global;
use std::marker::Model;

/// The areas that have one area round them.
pub const BLOCK: usize = 16;

/// So many have one group's area round them, and so many one cluster's.
const GROUP: usize = BLOCK * BLOCK;

const CLUSTER: usize = BLOCK * GROUP;

/// Areas, with one round each 16 of them, one round each 16 of these, and one round each 16 of these. Where areas that stand
/// side by side in the list lie near one another, a walk over those that reach a rectangle leaves out most of the others.
#[derive(Debug, Drop)]
pub struct AreaTree {
    areas: Vec<Rect>,
    blocks: Vec<Rect>,
    groups: Vec<Rect>,
    clusters: Vec<Rect>,
}

impl Model for AreaTree {
    ghost use Rattle.std.specs.Prelude.{List};
    ghost use Rattle.fragment.specs.Index.{AreNested};
    ghost use Rattle.opc_base.specs.declared.plane.Rect.{Rect};

    ghost Value = { List Rect };

    ghost view = { λ t. t.areas.items };

    ghost invariant = { λ t. AreNested t.areas.items t.blocks.items t.groups.items t.clusters.items };
}

impl AreaTree {
    /// A tree of these areas.
    pub fn build(alloc: Global, areas: Vec<Rect>) -> Result<AreaTree, NoMemory>
        requires { length areas.items ≤ 32768 }
        ensures { IfOk result (λ tree. tree ≡ areas.items) }
    {
        let blocks = enclose(alloc, &areas)?;
        let groups = enclose(alloc, &blocks)?;
        let clusters = enclose(alloc, &groups)?;
        Ok(AreaTree {
            areas,
            blocks,
            groups,
            clusters,
        })
    }

    /// The number of areas.
    fn count(&self) -> usize
        ensures count { result ≡ length self.now }
        ensures few { result ≤ 32768 }
    {
        self.areas.len()
    }

    /// The first area from a number on that has a pixel of the rectangle.
    pub fn first_met(&self, rect: &Rect, from: u32) -> Option<u32>
        requires { from ≤ 32768 }
        ensures first { IsFirstMet self.now rect.now from result }
        ensures few { length self.now ≤ 32768 }
    {
        let count = self.count();
        let mut k = from as usize;
        while k < count {
            let missed = self.missed_from(rect, k);
            if missed == 0 {
                return Some(k as u32);
            }
            k += missed;
        }
        None
    }

    /// So many areas from this one on have no pixel of the rectangle. 0 where this one has.
    fn missed_from(&self, rect: &Rect, k: usize) -> usize
        requires { k < length self.now }
        ensures few { result ≤ 4096 }
        ensures missed { NoneMet self.now rect.now k result }
        ensures met { result ≡ 0 → is_met self.now rect.now k ≡ true }
    {
        if k % BLOCK == 0 {
            let missed = self.missed_round(rect, k);
            if missed > 0 {
                return missed;
            }
        }
        if reaches(&self.areas[k], rect) { 0 } else { 1 }
    }

    /// So many areas from this one on have no pixel of the rectangle, by the areas round them.
    fn missed_round(&self, rect: &Rect, k: usize) -> usize
        requires { k < length self.now }
        ensures few { result ≤ 4096 }
        ensures missed { NoneMet self.now rect.now k result }
    {
        if k % CLUSTER == 0 && !reaches(&self.clusters[k / BLOCK / BLOCK / BLOCK], rect) {
            CLUSTER
        } else if k % GROUP == 0 && !reaches(&self.groups[k / BLOCK / BLOCK], rect) {
            GROUP
        } else if k % BLOCK == 0 && !reaches(&self.blocks[k / BLOCK], rect) {
            BLOCK
        } else {
            0
        }
    }
}
