//! The position of an obstacle, in four bytes.

ghost use Rattle.std.specs.Prelude.{◌≡◌, ◌≤◌, ◌≤ℤ◌, pos, negsuc, IfSome, Option, None};
ghost use Rattle.field.specs.Obstacles.{IsMeasured, seen_from};
ghost use Rattle.metric.specs.declared.spot.Spot.{Spot};

use envelope::CellAnswer;
use metric::{Metric, Near, Spot};
use std::marker::Model;

/// The column and the row that stand for no obstacle: no map with its frame has them.
const NOWHERE: i16 = -2;

/// The spot of an obstacle, or none, which is what contracts see.
#[derive(Clone, Copy, Debug)]
pub struct ObstacleCell {
    x: i16,
    y: i16,
}

impl Model for ObstacleCell {
    ghost use Rattle.std.specs.Prelude.{Option, Some, None, negsuc};
    ghost use Rattle.metric.specs.declared.spot.Spot.{Spot};

    ghost Value = { Option Spot };

    ghost use Rattle.field.specs.Obstacles.{spot_kept, IsKeptSpot};

    ghost view = { λ kept. spot_kept kept.x kept.y };

    ghost invariant = { λ kept. IsKeptSpot kept.x kept.y };

    ghost inverse = { elim [
      | None ↦ record { x = negsuc 1; y = negsuc 1 }
      | Some cell ↦ record { x = cell.x; y = cell.y }
    ] };
}

impl ObstacleCell {
    /// The spot, or none. Both coordinates of a spot are from -1 to 4097.
    pub fn cell(self) -> Option<Spot>
        ensures cell { result ≡ self }
        ensures left { IfSome result (λ spot. negsuc 0 ≤ℤ spot.x) }
        ensures column { IfSome result (λ spot. spot.x ≤ℤ pos 4097) }
        ensures top { IfSome result (λ spot. negsuc 0 ≤ℤ spot.y) }
        ensures row { IfSome result (λ spot. spot.y ≤ℤ pos 4097) }
    {
        if self.x == NOWHERE {
            None
        } else {
            Some(Spot {
                x: self.x,
                y: self.y,
            })
        }
    }

    /// The distance of the spot from cell (`x`, `y`); `u32::MAX` where there is none.
    #[inline(always)]
    pub fn measure<M: Metric>(self, x: u16, y: u16) -> u32
        requires column { x ≤ 4095 }
        requires row { y ≤ 4095 }
        ensures { IsMeasured M.distance (seen_from M.distance x y self) result }
    {
        let (dx, dy) = ((x as i16).abs_diff(self.x), (y as i16).abs_diff(self.y));
        let dist = M::of(dx, dy);
        if self.x != NOWHERE { dist } else { u32::MAX }
    }
}

impl CellAnswer for ObstacleCell {
    ghost use Rattle.std.specs.Prelude.{refl};
    ghost use Rattle.field.specs.Obstacles.{seen_from};

    ghost told = { seen_from };

    ghost nothing = { None };

    fn none() -> Self {
        ObstacleCell {
            x: NOWHERE,
            y: NOWHERE,
        }
    }

    fn some(near: Near) -> Self {
        ObstacleCell {
            x: near.cell.x,
            y: near.cell.y,
        }
    }

    ghost tells_nothing = { λ distance x y. refl };
}
