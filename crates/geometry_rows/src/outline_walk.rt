//! The straight parts of an outline, one by one.

use fragment::{Fragment, Fragments, Join};
use opc_base::{NoMemory, Side};
use std::alloc::Global;

/// The fragments of a target at offsets.
#[derive(Clone, Copy)]
pub struct Walk<'a> {
    /// The fragments.
    pub fragments: &'a Fragments,
    /// How far each has moved outward, in pixels.
    pub offsets: &'a [i32],
}

/// A straight part of the outline, walked with the inside on the left hand: across its direction it lies at `at`.
#[derive(Clone, Copy)]
pub struct Part {
    /// Whether it runs along y.
    pub is_vertical: bool,
    /// Its place across its direction.
    pub at: i32,
    /// Where its walk starts, along its direction.
    pub from: i32,
    /// Where its walk ends.
    pub to: i32,
}

impl Part {
    /// Whether it passes this place along its direction.
    pub fn passes(&self, place: i32) -> bool {
        self.from.min(self.to) <= place && place < self.from.max(self.to)
    }

    /// Whether it is walked toward lower coordinates.
    pub fn falls(&self) -> bool {
        self.to < self.from
    }
}

impl<'a> Walk<'a> {
    /// The fragments, and the jogs between those of one edge.
    pub fn parts(&self, alloc: Global) -> Result<Vec<Part>, NoMemory> {
        let mut parts = Vec::new(alloc);
        for k in 0..self.fragments.count() {
            let fragment = self.fragments.get(k);
            parts.push(self.own(k, fragment))?;
            if let Some(jog) = self.jog(k, fragment) {
                parts.push(jog)?;
            }
        }
        Ok(parts)
    }

    /// Fragment `k` itself.
    fn own(&self, k: u32, fragment: &Fragment) -> Part {
        let (start, start_place) = fragment.start();
        let (finish, finish_place) = fragment.finish();
        Part {
            is_vertical: is_vertical(fragment.side),
            at: self.line(k),
            from: self.end(start, start_place),
            to: self.end(finish, finish_place),
        }
    }

    /// The jog after fragment `k`.
    fn jog(&self, k: u32, fragment: &Fragment) -> Option<Part> {
        let (finish, finish_place) = fragment.finish();
        match finish {
            Join::Cut(j) => Some(Part {
                is_vertical: !is_vertical(fragment.side),
                at: finish_place,
                from: self.line(k),
                to: self.line(j),
            }),
            Join::Corner(_) => None,
        }
    }

    /// Where an end lies.
    pub fn end(&self, join: Join, place: i32) -> i32 {
        match join {
            Join::Cut(_) => place,
            Join::Corner(j) => self.line(j),
        }
    }

    /// Where the line of fragment `k` lies.
    fn line(&self, k: u32) -> i32 {
        if k >= self.fragments.count() {
            return 0;
        }
        let fragment = self.fragments.get(k);
        match fragment.side {
            Side::Left | Side::Down => fragment.edge.saturating_sub(self.offset(k)),
            Side::Right | Side::Up => fragment.edge.saturating_add(self.offset(k)),
        }
    }

    /// How far fragment `k` has moved outward.
    pub fn offset(&self, k: u32) -> i32 {
        self.offsets.get(k as usize).copied().unwrap_or(0)
    }
}

fn is_vertical(side: Side) -> bool {
    match side {
        Side::Left | Side::Right => true,
        Side::Down | Side::Up => false,
    }
}
