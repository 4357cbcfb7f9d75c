//! The rules of a target.

ghost use Rattle.std.specs.Prelude.{◌≡◌, ◌↔◌, All, IfOk, IfSome, IsNone};
ghost use Rattle.opc_base.specs.Plane.{IsRectWithin, cover};
ghost use Rattle.mask_rules.specs.TargetRules.{IsFirstBrokenOf, KeepsTarget, at_pixel, verdict};

use crate::short_lines::first_too_narrow;
use opc_base::{Broken, MaskRules, NoMemory, Pix, Place, Region, RuleName};
use rect_union::first_touch;
use std::alloc::Global;

/// The first of the rules M1, M2 and M3 that the region breaks, with its first pixel: the lowest, and in its row the
/// leftmost. Coordinates are within 1,048,576 of 0.
pub fn check_target(
    alloc: Global,
    region: &Region,
    rules: &MaskRules,
) -> Result<Option<Broken>, NoMemory>
    requires within { All (IsRectWithin 1048576) region.now }
    ensures broken { IfOk result (λ found. IfSome found (IsFirstBrokenOf rules.now (cover region.now))) }
    ensures kept { IfOk result (λ found. IsNone found ↔ KeepsTarget rules.now (cover region.now)) }
{
    let rects = region.rects();
    let narrow = first_too_narrow(alloc, rects, rules.width, false)?;
    let tight = first_too_narrow(alloc, rects, rules.space, true)?;
    let touch = first_touch(alloc, rects)?;
    Ok(verdict(narrow, tight, touch))
}

/// The first of the rules for which there is a pixel at which it is broken.
pub fn verdict(narrow: Option<Pix>, tight: Option<Pix>, touch: Option<Pix>) -> Option<Broken>
    ensures { result ≡ verdict narrow tight touch }
{
    match (narrow, tight, touch) {
        (Some(pixel), _, _) => Some(at_pixel(RuleName::M1, pixel)),
        (None, Some(pixel), _) => Some(at_pixel(RuleName::M2, pixel)),
        (None, None, Some(pixel)) => Some(at_pixel(RuleName::M3, pixel)),
        (None, None, None) => None,
    }
}

/// The rule is broken at this pixel.
pub fn at_pixel(rule: RuleName, pixel: Pix) -> Broken
    ensures { result ≡ at_pixel rule pixel }
{
    Broken {
        rule,
        at: Place::Pixel(pixel),
    }
}
