//! The bounds of a frame.

/// A place of the beam.
#[derive(Clone, Copy, Debug, PartialEq, Eq)]
pub struct Point {
    pub x: i32,
    pub y: i32,
}

impl Point {
    ghost use Rattle.std.specs.Prelude.{◌≡◌};
    ghost use Rattle.frame_list.specs.Bounds.{greatest_of, least_of};

    /// The least x and the least y of two places.
    fn least(self, other: Point) -> Point
        ensures { result ≡ least_of self other }
    {
        Point {
            x: self.x.min(other.x),
            y: self.y.min(other.y),
        }
    }

    /// The greatest x and the greatest y of two places.
    fn greatest(self, other: Point) -> Point
        ensures { result ≡ greatest_of self other }
    {
        Point {
            x: self.x.max(other.x),
            y: self.y.max(other.y),
        }
    }
}

/// The least x and y, and the greatest x and y, over both ends of some strokes.
#[derive(Clone, Copy, Debug, PartialEq, Eq)]
pub struct Bounds {
    pub least: Point,
    pub greatest: Point,
}

impl Bounds {
    ghost use Rattle.std.specs.Prelude.{◌≡◌};
    ghost use Rattle.frame_list.specs.Bounds.{joined, of_ends};

    /// The bounds of one stroke, from its first end to its last.
    pub(crate) fn of(from: Point, to: Point) -> Bounds
        ensures { result ≡ of_ends from to }
    {
        Bounds {
            least: from.least(to),
            greatest: from.greatest(to),
        }
    }

    /// The bounds of two groups of strokes together.
    pub(crate) fn join(self, other: Bounds) -> Bounds
        ensures { result ≡ joined self other }
    {
        Bounds {
            least: self.least.least(other.least),
            greatest: self.greatest.greatest(other.greatest),
        }
    }
}
