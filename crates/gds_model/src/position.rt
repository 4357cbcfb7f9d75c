//! Points, and the form of paths, as references place them.
ghost use Rattle.std.specs.Prelude.{◌≡◌, ℕ, ◌+◌, ◌^◌, ◌<◌};

/// A point in database units, as references place it.
#[derive(Clone, Copy, Debug, PartialEq, Eq)]
pub struct Position {
    pub x: i64,
    pub y: i64,
}

impl Position {
    ghost use Rattle.gds_model.specs.Placement.{IsPositionWithin, quarter_turned, reflected, shifted, turned};

    /// The point reflected about the x axis, where `flip` says so.
    pub fn reflected(self, flip: bool) -> Self
        requires { IsPositionWithin (2 ^ 61) self }
        ensures value { result ≡ reflected flip self }
        ensures bound { (n : ℕ) → IsPositionWithin n self → IsPositionWithin n result }
    {
        Position {
            x: self.x,
            y: if flip { -self.y } else { self.y },
        }
    }

    /// The point turned about the origin by so many quarter turns counterclockwise.
    pub fn turned(self, turns: u8) -> Self
        requires turns { turns < 4 }
        requires bound { IsPositionWithin (2 ^ 61) self }
        ensures value { result ≡ turned turns self }
        ensures bound { (n : ℕ) → IsPositionWithin n self → IsPositionWithin n result }
    {
        let Position { x, y } = self;
        match turns {
            0 => self,
            1 => Position { x: -y, y: x },
            2 => Position { x: -x, y: -y },
            _ => Position { x: y, y: -x },
        }
    }

    /// The point shifted by this.
    pub fn shifted(self, by: Self) -> Self
        requires from { IsPositionWithin (2 ^ 61) self }
        requires by { IsPositionWithin (2 ^ 61) by }
        ensures value { result ≡ shifted by self }
        ensures bound { (m n : ℕ) → IsPositionWithin m by → IsPositionWithin n self → IsPositionWithin (m + n) result }
    {
        Position {
            x: self.x + by.x,
            y: self.y + by.y,
        }
    }
}

/// A way along an axis.
#[derive(Clone, Copy, Debug, PartialEq, Eq)]
pub enum Direction {
    Right,
    Left,
    Up,
    Down,
}

/// How a path is drawn: its PATHTYPE, its WIDTH, and its BGNEXTN and ENDEXTN, in database units.
#[derive(Clone, Copy, Debug, PartialEq, Eq)]
pub struct PathForm {
    pub ends: i16,
    pub width: i32,
    pub begin: i32,
    pub end: i32,
}

/// A rectangle in half database units, so that half of a width is whole.
#[derive(Clone, Copy, Debug, PartialEq, Eq)]
pub struct DoubledRect {
    pub x0: i64,
    pub y0: i64,
    pub x1: i64,
    pub y1: i64,
}
