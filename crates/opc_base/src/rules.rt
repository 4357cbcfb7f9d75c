//! The rules of a correction. Each part keeps its numbers in their ranges.
ghost use Rattle.std.specs.Prelude.{◌≡◌, ◌≤◌, pos, length, All, IsTrue};
ghost use Rattle.opc_base.specs.Ranges.{IsBetween, is_name_byte};

use crate::fault::NoMemory;
use crate::name::Name;

/// Which shapes of the layout are corrected: those on a layer and a datatype, as the structure `top` places them.
#[derive(Debug, Drop)]
pub struct Pick {
    pub top: Name,
    pub layer: u16,
    pub datatype: u16,
    /// Database units in a pixel.
    pub grid: i32,
    pub ghost top_in_range: { (1 ≤ length top) × (length top ≤ 255) },
    pub ghost grid_in_range: { IsBetween (pos 1) (pos 1000) grid },
}

/// Where and how an edge's error is measured.
#[derive(Clone, Copy, Debug, PartialEq, Eq)]
pub struct SiteRules {
    /// The least intensity that prints.
    pub threshold: i64,
    /// The samples on each side of an edge.
    pub samples: i32,
    pub ghost threshold_in_range: { IsBetween (pos 1) (pos 4800000000000000000) threshold },
    pub ghost samples_in_range: { IsBetween (pos 1) (pos 16) samples },
}

/// How edges are cut into fragments. Lengths are in pixels.
#[derive(Clone, Copy, Debug, PartialEq, Eq)]
pub struct CutRules {
    /// The length of inner fragments.
    pub piece: i32,
    /// The length of a fragment at a convex end of an edge.
    pub corner_out: i32,
    /// The length of a fragment at a concave end of an edge.
    pub corner_in: i32,
    /// Edges up to this length between convex ends stay whole.
    pub line_end: i32,
    pub ghost piece_in_range: { IsBetween (pos 1) (pos 4096) piece },
    pub ghost corner_out_in_range: { IsBetween (pos 1) (pos 4096) corner_out },
    pub ghost corner_in_in_range: { IsBetween (pos 1) (pos 4096) corner_in },
    pub ghost line_end_in_range: { IsBetween (pos 0) (pos 4096) line_end },
}

/// How far a fragment wishes to move for an error. Moves and offsets are in pixels.
#[derive(Clone, Copy, Debug, PartialEq, Eq)]
pub struct MoveRules {
    /// The upper number of the gain.
    pub gain_num: i32,
    /// The lower number of the gain.
    pub gain_den: i32,
    /// The greatest move in one round.
    pub max_step: i32,
    /// The greatest inward offset.
    pub max_in: i32,
    /// The greatest outward offset.
    pub max_out: i32,
    pub ghost gain_num_in_range: { IsBetween (pos 1) (pos 64) gain_num },
    pub ghost gain_den_in_range: { IsBetween (pos 1) (pos 64) gain_den },
    pub ghost max_step_in_range: { IsBetween (pos 1) (pos 32) max_step },
    pub ghost max_in_in_range: { IsBetween (pos 0) (pos 128) max_in },
    pub ghost max_out_in_range: { IsBetween (pos 0) (pos 128) max_out },
}

/// What every mask keeps. Lengths and offsets are in pixels.
#[derive(Clone, Copy, Debug, PartialEq, Eq)]
pub struct MaskRules {
    /// The least length of a covered run in a row or a column.
    pub width: i32,
    /// The least length of an uncovered run between covered pixels.
    pub space: i32,
    /// The greatest inward offset.
    pub max_in: i32,
    /// The greatest outward offset.
    pub max_out: i32,
    pub ghost width_in_range: { IsBetween (pos 1) (pos 1024) width },
    pub ghost space_in_range: { IsBetween (pos 1) (pos 1024) space },
    pub ghost max_in_in_range: { IsBetween (pos 0) (pos 128) max_in },
    pub ghost max_out_in_range: { IsBetween (pos 0) (pos 128) max_out },
}

/// When a run ends, and how its sums are shared out.
#[derive(Clone, Copy, Debug, PartialEq, Eq)]
pub struct RunRules {
    /// Errors up to `16 settle + 8` sixteenths of a pixel are settled.
    pub settle: i32,
    /// The greatest number of rounds.
    pub rounds: u32,
    /// The side of a tile in pixels.
    pub tile: i32,
    /// The parts of the parallel phase.
    pub workers: u32,
    pub ghost settle_in_range: { IsBetween (pos 0) (pos 16) settle },
    pub ghost rounds_in_range: { rounds ≤ 64 },
    pub ghost tile_in_range: { IsBetween (pos 16) (pos 4096) tile },
    pub ghost workers_in_range: { (1 ≤ workers) × (workers ≤ 64) },
}

/// The layer, the datatype and the structure of the mask file.
#[derive(Debug, Drop)]
pub struct OutPick {
    pub layer: u16,
    pub datatype: u16,
    pub name: Name,
    pub ghost name_in_range: { (1 ≤ length name) × (length name ≤ 32) },
    pub ghost name_is_plain: { All (λ b. IsTrue (is_name_byte b)) name },
}

/// All rules of a correction. Its mover and its mask speak of the same greatest offsets.
#[derive(Debug, Drop)]
pub struct Rules {
    pub pick: Pick,
    pub site: SiteRules,
    pub cut: CutRules,
    pub mover: MoveRules,
    pub mask: MaskRules,
    pub run: RunRules,
    pub out: OutPick,
    pub ghost same_max_in: { mover.max_in ≡ mask.max_in },
    pub ghost same_max_out: { mover.max_out ≡ mask.max_out },
}

impl Pick {
    ghost use Rattle.std.specs.Prelude.{IfOk};
    ghost use Rattle.opc_base.specs.Rules.{IsSamePick};

    fn copy(&self) -> Result<Pick, NoMemory>
        ensures { IfOk result (IsSamePick self.now) }
    {
        Ok(Pick {
            top: self.top.clone()?,
            layer: self.layer,
            datatype: self.datatype,
            grid: self.grid,
        })
    }
}

impl OutPick {
    ghost use Rattle.std.specs.Prelude.{IfOk};
    ghost use Rattle.opc_base.specs.Rules.{IsSameOutPick};

    fn copy(&self) -> Result<OutPick, NoMemory>
        ensures { IfOk result (IsSameOutPick self.now) }
    {
        Ok(OutPick {
            layer: self.layer,
            datatype: self.datatype,
            name: self.name.clone()?,
        })
    }
}

impl Rules {
    ghost use Rattle.std.specs.Prelude.{pos, IfOk};
    ghost use Rattle.opc_base.specs.Ranges.{IsBetween};
    ghost use Rattle.opc_base.specs.Rules.{DiffersInThreshold};

    /// The same rules with this threshold in place of their own.
    pub fn with_threshold(&self, threshold: i64) -> Result<Rules, NoMemory>
        requires { IsBetween (pos 1) (pos 4800000000000000000) threshold }
        ensures rules { IfOk result (DiffersInThreshold threshold self.now) }
    {
        Ok(Rules {
            pick: self.pick.copy()?,
            site: SiteRules {
                threshold,
                samples: self.site.samples,
            },
            cut: self.cut,
            mover: self.mover,
            mask: self.mask,
            run: self.run,
            out: self.out.copy()?,
        })
    }
}
