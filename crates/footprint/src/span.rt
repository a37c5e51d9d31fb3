//! Columns that follow one another, as integers and as those of a map. Rows too.

ghost use Rattle.std.specs.Prelude.{◌≡◌, ◌<◌, ◌≤◌, ◌/◌, ◌↔◌, ℕ, ℤ, pos, ◌-ℤ◌};
ghost use Rattle.footprint.specs.Polygon.{IsNearBy};
ghost use Rattle.footprint.specs.Sides.{IsIn, IsOn, Overlaps};

use crate::corner::STEPS;
use metric::BAND_ROWS;

/// The columns from `first` to `last`; none where `last` is less.
#[derive(Clone, Copy)]
pub struct Span {
    pub first: i64,
    pub last: i64,
}

/// The columns of a map from `first` to `end` - 1; none where `end` isn't greater.
#[derive(Clone, Copy)]
pub struct Stretch {
    pub first: u16,
    pub end: u16,
}

impl Span {
    /// The columns whose cells overlap a range of steps.
    pub fn over(least: i32, most: i32) -> Self
        requires least { IsNearBy least }
        requires most { IsNearBy most }
        ensures { (n : ℤ) → IsOn result.first result.last n ↔ Overlaps least most n }
    {
        Span {
            first: i64::from(least).div_euclid(STEPS),
            last: (i64::from(most) - 1).div_euclid(STEPS),
        }
    }

    /// Those of the columns that a map of this many has.
    pub fn within(self, count: u16) -> Stretch
        ensures on { (n : ℕ) → IsIn result.first result.end n
            ↔ ((n < count) × IsOn self.first self.last (pos n)) }
        ensures few { result.end ≤ count }
    {
        let (first, last) = (self.first.max(0), self.last.min(i64::from(count) - 1));
        if last < first {
            return Stretch { first: 0, end: 0 };
        }
        Stretch {
            first: first as u16,
            end: last as u16 + 1,
        }
    }
}

impl Stretch {
    /// The same columns.
    pub fn span(self) -> Span
        ensures first { result.first ≡ pos self.first }
        ensures last { result.last ≡ pos self.end -ℤ pos 1 }
    {
        Span {
            first: i64::from(self.first),
            last: i64::from(self.end) - 1,
        }
    }

    /// Those of the rows that are in a band.
    pub fn in_band(self, band: u16) -> Stretch
        requires { band < 64 }
        ensures on { (y : ℕ) → IsIn result.first result.end y
            ↔ (IsIn self.first self.end y × (y / BAND_ROWS ≡ band)) }
        ensures few { result.end ≤ self.end }
    {
        let top = BAND_ROWS * band;
        Stretch {
            first: self.first.max(top),
            end: self.end.min(top + BAND_ROWS),
        }
    }
}
