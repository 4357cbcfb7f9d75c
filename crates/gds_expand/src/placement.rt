//! How chains of references place points.

ghost use Rattle.std.specs.Prelude.{◌≡◌, ℕ, ◌+◌, ◌*◌, ◌^◌, ◌<◌, ◌≤◌};

use gds_model::Position;

/// A reflection about the x axis or none, then quarter turns counterclockwise, then a shift.
#[derive(Clone, Copy, Debug)]
pub(crate) struct Placement {
    pub flip: bool,
    pub turns: u8,
    pub shift: Position,
    pub ghost turns_in_range: { turns < 4 },
}

impl Placement {
    ghost use Rattle.gds_expand.specs.Placement.{placed};
    ghost use Rattle.gds_model.specs.Placement.{IsPositionWithin};

    /// Where a point of the structure lies.
    pub fn place(&self, point: Position) -> Position
        requires shift { IsPositionWithin (2 ^ 61) self.now.shift }
        requires point { IsPositionWithin (2 ^ 61) point }
        ensures value { result ≡ placed self.now point }
        ensures bound { (m n : ℕ) → IsPositionWithin m self.now.shift → IsPositionWithin n point → IsPositionWithin (m + n) result }
    {
        point
            .reflected(self.flip)
            .turned(self.turns)
            .shifted(self.shift)
    }

    /// This placement of a structure in which `inner` places another.
    pub fn after(&self, inner: &Placement) -> Placement
        requires shift { IsPositionWithin (2 ^ 61) self.now.shift }
        requires inner { IsPositionWithin (2 ^ 61) inner.now.shift }
        ensures value { (p : Position) → placed result p ≡ placed self.now (placed inner.now p) }
        ensures bound { (m n : ℕ) → IsPositionWithin m self.now.shift → IsPositionWithin n inner.now.shift → IsPositionWithin (m + n) result.shift }
    {
        let turns = if self.flip {
            self.turns + 4 - inner.turns
        } else {
            self.turns + inner.turns
        };
        Placement {
            flip: self.flip != inner.flip,
            turns: turns % 4,
            shift: self.place(inner.shift),
        }
    }
}
