//! The first of some lines that has an obstacle of a word near.

ghost use Rattle.clearance.specs.LineWords.{IsWord};

use crate::gaps::{columns_outside, row_apart};
use crate::lines::Lines;
use metric::{Metric, Rect};

/// A word of a row that has an obstacle.
#[derive(Clone, Copy)]
pub struct Word {
    pub bits: u64,
    pub tile: u16,
    pub y: u16,
    ghost shape: { IsWord bits tile y },
}

impl Word {
    ghost use Rattle.std.specs.Prelude.{◌≡◌, ◌-◌, ◌<◌, ◌≤◌};
    ghost use Rattle.clearance.specs.Lines.{IsFirstBefore};
    ghost use Rattle.clearance.specs.LineWords.{IsWordSpot};
    ghost use Rattle.clearance.specs.Search.{IsLeastBelow};
    ghost use Rattle.clearance.specs.Strips.{IsFirstNear, IsSomeNear};

    /// The least of `limit` and of the distances of the rectangle's cells to these obstacles.
    #[inline(always)]
    pub fn least_below<M: Metric>(self, rect: Rect, limit: u64) -> u64
        ensures { IsLeastBelow M.distance (IsWordSpot self.tile self.y self.bits) rect limit
            result }
    {
        let columns = columns_outside(rect, self.tile, self.bits);
        u64::from(M::of(columns, row_apart(rect, self.y))).min(limit)
    }

    /// The first of the lines before `end`, of which there are some, that has one of these
    /// obstacles near; `end` if none has.
    pub fn first_line<M: Metric>(self, lines: Lines, end: u16) -> u16
        requires some { lines.first < end }
        ensures { IsFirstBefore M.distance (IsWordSpot self.tile self.y self.bits) lines end
            result }
    {
        let rect = lines.strip.rect(lines.first, end - 1);
        if self.least_below::<M>(rect, lines.limit) < lines.limit {
            self.first_by_quarters::<M>(lines, end - 1)
        } else {
            end
        }
    }

    /// The first of the lines up to `last` that has one of these obstacles near. Requires that one
    /// of them has; usually it is one of the first.
    fn first_by_quarters<M: Metric>(self, lines: Lines, last: u16) -> u16
        requires some { IsSomeNear M.distance (IsWordSpot self.tile self.y self.bits) lines.strip
            lines.limit lines.first last }
        ensures { IsFirstNear M.distance (IsWordSpot self.tile self.y self.bits) lines.strip
            lines.limit lines.first last result }
    {
        let (mut low, mut high) = (lines.first, last);
        'quarters: while low < high {
            let quarter = low + (high - low) / 4;
            let rect = lines.strip.rect(low, quarter);
            if self.least_below::<M>(rect, lines.limit) < lines.limit {
                high = quarter;
            } else {
                low = quarter + 1;
            }
        }
        low
    }
}
