//! A target's fragments at offsets that keep all rules, and moves of them.
ghost use Rattle.std.specs.Prelude.{◌≡◌, ◌<◌, ℤ, All, IfOk, length};
ghost use Rattle.opc_base.specs.Plane.{IsRectWithin, cover};
ghost use Rattle.mask_rules.specs.TargetRules.{KeepsTarget};
ghost use Rattle.outline_model.specs.Fragmentation.{AreFragments};
ghost use Rattle.outline_model.specs.Target.{IsBoundary};

use crate::fault::RowFault;
use fragment::{CutFault, Fragments, Near, cut};
use mask_rules::{check_target, first_broken};
use opc_base::{Broken, CutRules, MaskRules, Pix, Region, Swept};
use std::alloc::Global;
use std::marker::Model;

/// The fragments of a target, and how far each has moved outward.
#[derive(Drop)]
pub struct Moving {
    fragments: Fragments,
    near: Near,
    offsets: Vec<i32>,
    rules: MaskRules,
}

impl Model for Moving {
    ghost use Rattle.std.specs.Prelude.{◌≡◌, ℤ, List};
    ghost use Rattle.outline_model.specs.Limits.{IsOffsets};
    ghost use Rattle.outline_model.specs.Rules.{KeepsRules};

    ghost Value = { List ℤ };

    ghost view = { λ m. m.offsets.items };

    ghost invariant = { λ m. (m.near ≡ m.fragments) × IsOffsets m.fragments m.offsets.items × KeepsRules m.rules m.fragments m.offsets.items };
}

impl Moving {
    /// The fragments of a target, which have not moved. The target keeps the rules.
    pub fn of_target(
        alloc: Global,
        region: &Region,
        cut_rules: &CutRules,
        rules: MaskRules,
    ) -> Result<Moving, RowFault>
        requires { All (IsRectWithin 1048000) region.now }
    {
        let _ = region.rects();
        let fragments = target_fragments(alloc, region, cut_rules, &rules)?;
        let near = Near::build(alloc, &fragments)?;
        let offsets = vec![in alloc; 0; fragments.count() as usize]?;
        Ok(Moving {
            fragments,
            near,
            offsets,
            rules,
        })
    }

    /// The fragments.
    pub fn fragments(&self) -> &Fragments {
        &self.fragments
    }

    /// How far each fragment has moved outward.
    pub fn offsets(&self) -> &[i32] {
        &self.offsets
    }

    /// Where the line of fragment `i` lies, and its low and high end.
    pub fn place(&self, i: u32) -> Result<(i32, i32, i32), RowFault> {
        if i >= self.fragments.count() {
            return Err(RowFault::NoFragment);
        }
        let line = self.fragments.line(i, &self.offsets);
        let (low, high) = self.fragments.ends(i, &self.offsets);
        Ok((line, low, high))
    }

    /// The pixel of sample `t` of fragment `i`.
    pub fn site(&self, i: u32, t: i32) -> Result<Pix, RowFault> {
        if i >= self.fragments.count() || t < -16 || 15 < t {
            return Err(RowFault::NoFragment);
        }
        Ok(self.fragments.site(i, t))
    }

    /// What the mask gains or loses where fragment `i` takes this offset. `None` where it stays.
    pub fn swept(&self, i: u32, to: i32) -> Result<Option<Swept>, RowFault> {
        if i >= self.fragments.count() || to.unsigned_abs() > 128 {
            return Err(RowFault::NoFragment);
        }
        Ok(self.fragments.swept(i, &self.offsets, to))
    }

    /// Fragment `i` takes this offset, if all rules are kept then; else the first that is not.
    pub fn take(&mut self, i: u32, to: i32) -> Result<Option<Broken>, RowFault> {
        if i >= self.fragments.count() {
            return Err(RowFault::NoFragment);
        }
        let broken = first_broken(
            &self.fragments,
            &self.near,
            &self.offsets,
            i,
            to,
            &self.rules,
        );
        if broken.is_none() {
            self.offsets[i as usize] = to;
        }
        Ok(broken)
    }
}

/// The fragments of a target that keeps the rules of targets.
pub fn target_fragments(
    alloc: Global,
    region: &Region,
    cut_rules: &CutRules,
    rules: &MaskRules,
) -> Result<Fragments, RowFault>
    requires { All (IsRectWithin 1048000) region.now }
    ensures keeps { IfOk result (λ _. KeepsTarget rules.now (cover region.now)) }
    ensures boundary { IfOk result (IsBoundary (cover region.now)) }
    ensures cut { IfOk result (AreFragments (cover region.now) cut_rules.now) }
{
    if check_target(alloc, region, rules)?.is_some() {
        return Err(RowFault::BreaksRules);
    }
    match cut(alloc, region, cut_rules) {
        Ok(fragments) => Ok(fragments),
        Err(CutFault::TooManyFragments { count }) => Err(RowFault::TooManyFragments(count)),
        Err(CutFault::NoMemory) => Err(RowFault::NoMemory),
    }
}
