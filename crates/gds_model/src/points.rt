//! Lists of points.
ghost use Rattle.std.specs.Prelude.{◌≡◌};

use gds_records::Point;
use std::marker::Model;

/// A list of points, in database units.
#[derive(Debug, Drop)]
pub struct Points {
    items: Vec<Point>,
}

impl Model for Points {
    ghost use Rattle.std.specs.Prelude.{List};
    ghost use Rattle.gds_records.specs.declared.points.Point.{Point};

    ghost Value = { List Point };

    ghost view = { λ l. l.items.items };
}

impl Points {
    /// The points of this list.
    pub fn from_vec(items: Vec<Point>) -> Self
        ensures list { result ≡ items.items }
    {
        Points { items }
    }

    /// Lends the list.
    pub fn as_slice(&self) -> &[Point]
        ensures list { result.now ≡ self.now }
    {
        self.items.as_slice()
    }
}
