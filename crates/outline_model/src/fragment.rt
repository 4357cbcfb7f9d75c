//! Fragments and their joins.

use crate::side::is_rising;
use opc_base::Side;

/// The fragment that another meets at one end.
#[derive(Clone, Copy, PartialEq, Eq, Debug)]
pub enum Join {
    /// The next fragment of the same edge: the end stays at its place.
    Cut(u32),
    /// The fragment of the edge across: the end is where that one's line lies.
    Corner(u32),
}

impl Join {
    ghost use Rattle.std.specs.Prelude.{◌≡◌};
    ghost use Rattle.outline_model.specs.Outline.{joined};

    /// The number of the fragment that is met.
    pub fn fragment(self) -> u32
        ensures { result ≡ joined self }
    {
        match self {
            Join::Cut(j) | Join::Corner(j) => j,
        }
    }
}

/// A piece of an edge of the target, which a correction moves as a whole.
#[derive(Clone, Copy, PartialEq, Eq, Debug)]
pub struct Fragment {
    /// The side of the target on which the edge lies, which points outward.
    pub side: Side,
    /// The edge's x where it is vertical, its y where it is horizontal, in pixels.
    pub edge: i32,
    /// The low end on the target, along the edge.
    pub lo: i32,
    /// The high end on the target, along the edge.
    pub hi: i32,
    /// What it meets at the low end.
    pub low: Join,
    /// What it meets at the high end.
    pub high: Join,
}

impl Fragment {
    ghost use Rattle.std.specs.Prelude.{◌≡◌};
    ghost use Rattle.outline_model.specs.Outline.{finish_join, finish_place, joined, start_join, start_place};

    /// What the fragment meets where its walk starts, and the place there on the target.
    pub fn start(&self) -> (Join, i32)
        ensures join { result.0 ≡ start_join self.now }
        ensures place { result.1 ≡ start_place self.now }
    {
        if is_rising(self.side) {
            (self.low, self.lo)
        } else {
            (self.high, self.hi)
        }
    }

    /// What the fragment meets where its walk finishes, and the place there on the target.
    pub fn finish(&self) -> (Join, i32)
        ensures join { result.0 ≡ finish_join self.now }
        ensures place { result.1 ≡ finish_place self.now }
    {
        if is_rising(self.side) {
            (self.high, self.hi)
        } else {
            (self.low, self.lo)
        }
    }

    /// The number of the fragment before it on the walk.
    pub fn previous(&self) -> u32
        ensures { result ≡ joined (start_join self.now) }
    {
        self.start().0.fragment()
    }

    /// The number of the fragment after it on the walk.
    pub fn next(&self) -> u32
        ensures { result ≡ joined (finish_join self.now) }
    {
        self.finish().0.fragment()
    }
}
