//! The mask rules, judged pixel by pixel over a whole outline in a small window: a plain program that a local judge is
//! compared with. It is a yardstick for tests, and has no contract. It is slow, and its numbers are small.

use crate::outline_walk::{Part, Walk};
use opc_base::{Broken, MaskRules, NoMemory, Pix, Place, RuleName};
use std::alloc::Global;

/// The window has this many pixels a side.
const SIDE: i32 = 32;

/// Its first pixel in each direction.
const LOW: i32 = -4;

/// An outline, the count of each pixel of the window by rows from below, and the rules that it is judged by.
#[derive(Drop)]
pub struct PlainJudge<'a> {
    walk: Walk<'a>,
    rules: &'a MaskRules,
    parts: Vec<Part>,
    counts: Vec<i32>,
}

/// Pixel `k` of the window.
fn pixel_at(k: i32) -> Pix {
    Pix {
        x: LOW.saturating_add(k % SIDE),
        y: LOW.saturating_add(k / SIDE),
    }
}

/// The signed count of the pixel: vertical parts at or left of its left side, those that fall counted 1.
fn count_at(parts: &[Part], pixel: Pix) -> i32 {
    let mut count = 0i32;
    for part in parts {
        if part.is_vertical && part.at <= pixel.x && part.passes(pixel.y) {
            count = count.saturating_add(if part.falls() { 1 } else { -1 });
        }
    }
    count
}

impl<'a> PlainJudge<'a> {
    /// The outline of fragments at offsets, and rules.
    pub fn new(
        alloc: Global,
        walk: Walk<'a>,
        rules: &'a MaskRules,
    ) -> Result<PlainJudge<'a>, NoMemory> {
        let parts = walk.parts(alloc)?;
        let mut counts = Vec::new(alloc);
        for k in 0..SIDE * SIDE {
            counts.push(count_at(&parts, pixel_at(k)))?;
        }
        Ok(PlainJudge {
            walk,
            rules,
            parts,
            counts,
        })
    }

    /// The first broken rule in the order M5, M4, M0, M1, M2, M3, with its first place.
    pub fn first_broken(&self) -> Option<Broken> {
        if let Some(k) = self.first_far() {
            return Some(at_fragment(RuleName::M5, k));
        }
        if let Some(k) = self.first_disordered() {
            return Some(at_fragment(RuleName::M4, k));
        }
        for rule in [RuleName::M0, RuleName::M1, RuleName::M2, RuleName::M3] {
            if let Some(pixel) = self.first_pixel(rule) {
                let at = Place::Pixel(pixel);
                return Some(Broken { rule, at });
            }
        }
        None
    }

    /// The first fragment whose offset is out of range.
    fn first_far(&self) -> Option<u32> {
        for k in 0..self.walk.fragments.count() {
            let offset = self.walk.offset(k);
            if offset < -self.rules.max_in || self.rules.max_out < offset {
                return Some(k);
            }
        }
        None
    }

    /// The first fragment whose low end isn't less than its high end.
    fn first_disordered(&self) -> Option<u32> {
        for k in 0..self.walk.fragments.count() {
            let fragment = self.walk.fragments.get(k);
            let low = self.walk.end(fragment.low, fragment.lo);
            let high = self.walk.end(fragment.high, fragment.hi);
            if high <= low {
                return Some(k);
            }
        }
        None
    }

    /// The first pixel of the window at which the rule is broken, by rows from below.
    fn first_pixel(&self, rule: RuleName) -> Option<Pix> {
        for k in 0..SIDE * SIDE {
            let pixel = pixel_at(k);
            if self.breaks(rule, pixel) {
                return Some(pixel);
            }
        }
        None
    }

    fn breaks(&self, rule: RuleName, pixel: Pix) -> bool {
        match rule {
            RuleName::M0 => self.crosses(pixel),
            RuleName::M1 => self.covers(pixel) && self.is_short(pixel, self.rules.width),
            RuleName::M2 => !self.covers(pixel) && self.is_short(pixel, self.rules.space),
            RuleName::M3 => self.touches(pixel),
            RuleName::M4 | RuleName::M5 => false,
        }
    }

    /// Whether the count is neither 0 nor 1, or parts of opposite sign lie on the pixel's left or lower side.
    fn crosses(&self, pixel: Pix) -> bool {
        let count = self.count(pixel);
        let mut left = (false, false);
        let mut below = (false, false);
        for part in &self.parts {
            if part.is_vertical && part.at == pixel.x && part.passes(pixel.y) {
                left = (left.0 || part.falls(), left.1 || !part.falls());
            } else if !part.is_vertical && part.at == pixel.y && part.passes(pixel.x) {
                below = (below.0 || part.falls(), below.1 || !part.falls());
            }
        }
        count < 0 || 1 < count || left.0 && left.1 || below.0 && below.1
    }

    /// The count of a pixel, and 0 outside of the window.
    fn count(&self, pixel: Pix) -> i32 {
        let column = pixel.x.saturating_sub(LOW);
        let row = pixel.y.saturating_sub(LOW);
        if column < 0 || SIDE <= column || row < 0 || SIDE <= row {
            return 0;
        }
        let k = (SIDE * row + column).unsigned_abs();
        self.counts.get(k as usize).copied().unwrap_or(0)
    }

    fn covers(&self, pixel: Pix) -> bool {
        self.count(pixel) == 1
    }

    /// Whether the pixel's run of its own kind in its row or its column ends within so few pixels on both sides.
    fn is_short(&self, pixel: Pix, least: i32) -> bool {
        self.is_short_along(pixel, (1, 0), least) || self.is_short_along(pixel, (0, 1), least)
    }

    fn is_short_along(&self, pixel: Pix, step: (i32, i32), least: i32) -> bool {
        let back = (step.0.saturating_neg(), step.1.saturating_neg());
        let ahead = self.run(pixel, step, least);
        let behind = self.run(pixel, back, least);
        ahead.saturating_add(behind) < least.saturating_sub(1)
    }

    /// How many pixels of the same kind follow in this direction, at most so many.
    fn run(&self, pixel: Pix, step: (i32, i32), most: i32) -> i32 {
        let covered = self.covers(pixel);
        let mut next = pixel;
        for n in 0..most {
            next = Pix {
                x: next.x.saturating_add(step.0),
                y: next.y.saturating_add(step.1),
            };
            if self.covers(next) != covered {
                return n;
            }
        }
        most
    }

    /// Whether of the two by two pixels of which this is the lower left one two are covered, which meet at a corner.
    fn touches(&self, pixel: Pix) -> bool {
        let right = pixel.x.saturating_add(1);
        let above = pixel.y.saturating_add(1);
        let corners = [
            self.covers(pixel),
            self.covers(Pix {
                x: right,
                y: pixel.y,
            }),
            self.covers(Pix {
                x: pixel.x,
                y: above,
            }),
            self.covers(Pix { x: right, y: above }),
        ];
        corners == [true, false, false, true] || corners == [false, true, true, false]
    }
}

fn at_fragment(rule: RuleName, k: u32) -> Broken {
    Broken {
        rule,
        at: Place::Fragment(k),
    }
}
