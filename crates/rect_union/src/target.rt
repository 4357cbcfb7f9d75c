//! The union of placed outlines.

ghost use Rattle.std.specs.Prelude.{◌≡◌, ◌≤◌, ℤ, length, All, IfOk, IfErr};
ghost use Rattle.opc_base.specs.Canonical.{IsCanonical};
ghost use Rattle.opc_base.specs.Plane.{IsRectWithin, cover};
ghost use Rattle.opc_base.specs.Target.{HasMoreCornersThan, target};

use crate::join::joined_up_to;
use crate::rect_corners::count_corners;
use opc_base::{NoMemory, Placed, Region};
use std::alloc::{AllocError, Global};

/// Each canonical rectangle has a corner of its own on its lower side.
const MOST_CORNERS: usize = 65_536;

/// Why a target is not given.
#[derive(Clone, Copy, Debug, PartialEq, Eq)]
pub enum UnionFault {
    /// It has more than 65,536 corners.
    TooManyCorners,
    NoMemory,
}

impl From<AllocError> for UnionFault {
    ghost use Rattle.std.specs.Prelude.{◌≡◌};
    ghost use Rattle.rect_union.specs.declared.target.UnionFault.TheVariants.{NoMemory};

    ghost from_gives = { λ _ e. e ≡ NoMemory };

    fn from(_: AllocError) -> Self {
        UnionFault::NoMemory
    }
}

impl From<NoMemory> for UnionFault {
    ghost use Rattle.std.specs.Prelude.{◌≡◌};
    ghost use Rattle.rect_union.specs.declared.target.UnionFault.TheVariants.{NoMemory};

    ghost from_gives = { λ _ e. e ≡ NoMemory };

    fn from(_: NoMemory) -> Self {
        UnionFault::NoMemory
    }
}

/// The canonical rectangles of the target, the pixels that some outline covers.
pub fn union(alloc: Global, placed: &Placed) -> Result<Region, UnionFault>
    ensures canonical { IfOk result (IsCanonical (target placed.now)) }
    ensures pixels { IfOk result (λ region. (x y : ℤ) → cover region x y ≡ target placed.now x y) }
    ensures few { IfOk result (λ region. length region ≤ 65536) }
    ensures within { IfOk result (All (IsRectWithin 1048000)) }
    ensures corners { IfOk result (λ _. ¬ HasMoreCornersThan 65536 (target placed.now)) }
    ensures too_many { IfErr result (λ fault. fault ≡ UnionFault.TooManyCorners → HasMoreCornersThan 65536 (target placed.now)) }
{
    let found = joined_up_to(alloc, placed.outlines(), MOST_CORNERS)?;
    let Some(rects) = found else {
        return Err(UnionFault::TooManyCorners);
    };
    if rects.len() > MOST_CORNERS {
        return Err(UnionFault::TooManyCorners);
    }
    let corners = count_corners(alloc, &rects)?;
    if corners > MOST_CORNERS {
        return Err(UnionFault::TooManyCorners);
    }
    Ok(Region::from_rects(rects))
}
