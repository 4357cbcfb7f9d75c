//! Rules and targets that several rows share.

ghost use Rattle.std.specs.Prelude.{pos};
ghost use Rattle.opc_base.specs.Ranges.{IsBetween};

use opc_base::{CutRules, MaskRules, Rect};

/// Edges stay whole up to 109 pixels.
pub const CUT: CutRules = CutRules {
    piece: 100,
    corner_out: 5,
    corner_in: 5,
    line_end: 10,
};

/// Runs have at least two pixels.
pub const MASK: MaskRules = MaskRules {
    width: 2,
    space: 2,
    max_in: 8,
    max_out: 16,
};

/// Runs have at least so many covered and uncovered pixels, and sides move little.
pub fn short_runs(width: i32, space: i32) -> MaskRules
    requires width { IsBetween (pos 1) (pos 1024) width }
    requires space { IsBetween (pos 1) (pos 1024) space }
{
    MaskRules {
        width,
        space,
        max_in: 2,
        max_out: 3,
    }
}

/// Each fragment has one pixel.
pub const FINE: CutRules = CutRules {
    piece: 1,
    corner_out: 1,
    corner_in: 1,
    line_end: 0,
};

/// Pieces of four pixels between ends of three and five.
pub const PIECES: CutRules = CutRules {
    piece: 4,
    corner_out: 3,
    corner_in: 5,
    line_end: 0,
};

/// Two bars, with three pixels between them.
pub const BARS: [Rect; 2] = [
    Rect {
        x0: 0,
        y0: 0,
        x1: 6,
        y1: 20,
    },
    Rect {
        x0: 9,
        y0: 0,
        x1: 15,
        y1: 20,
    },
];

/// A bar below and a bar on the left, which overlap in a corner.
pub const ANGLE: [Rect; 2] = [
    Rect {
        x0: 0,
        y0: 0,
        x1: 20,
        y1: 8,
    },
    Rect {
        x0: 0,
        y0: 0,
        x1: 8,
        y1: 20,
    },
];

/// Two bars that overlap, and a frame round a hole: the points that they are walked through.
pub const CROSS: [&[(i32, i32)]; 3] = [
    &[(0, 0), (10, 0), (10, 4), (0, 4), (0, 0)],
    &[(5, 2), (12, 2), (12, 8), (5, 8), (5, 2)],
    &[
        (20, 0),
        (30, 0),
        (30, 10),
        (20, 10),
        (20, 5),
        (23, 5),
        (23, 7),
        (27, 7),
        (27, 3),
        (23, 3),
        (23, 5),
        (20, 5),
        (20, 0),
    ],
];
