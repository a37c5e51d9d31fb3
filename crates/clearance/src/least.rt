//! The least distance of a rectangle's cells to the obstacles.

ghost use Rattle.std.specs.Prelude.{◌≡◌};
ghost use Rattle.bits.specs.Cells.{IsObstacle};
ghost use Rattle.clearance.specs.Search.{IsLeastInBits, IsRectIn};

use crate::around::search;
use crate::gaps::columns_outside;
use crate::rows::Rows;
use crate::seeker::Seeker;
use metric::{Cell, Metric, Rect};

/// Keeps the least distance so far.
#[derive(Clone, Copy)]
struct Least {
    rect: Rect,
    least: u64,
}

impl<M: Metric> Seeker<M> for Least {
    ghost use Rattle.clearance.specs.Rows.{IsFar};
    ghost use Rattle.clearance.specs.Search.{rect_distance};
    ghost use Rattle.clearance.specs.Seekers.{IsLeastKept};

    ghost aim = { record {
      from = λ s. s.rect;
      counts = λ s rect. rect ≡ s.rect;
      begins = λ s. record { x = s.rect.x0; y = s.rect.y0 };
      settles = λ s a b. IsFar (rect_distance M.distance s.rect a b) s.least;
      keeps = λ cells first s.
          IsLeastKept M.distance cells first.rect first.least s.rect s.least;
    } };

    #[inline(always)]
    fn rect(&self) -> Rect {
        self.rect
    }

    #[inline(always)]
    fn start(&self) -> Cell {
        Cell {
            x: self.rect.x0,
            y: self.rect.y0,
        }
    }

    #[inline(always)]
    fn is_far(&self, dist: u32, _x: u16, _gap: u16) -> bool {
        u64::from(dist) >= self.least
    }

    #[inline(always)]
    fn meet(&mut self, word: u64, tile: u16, y: u16, gap: u16) {
        let columns = columns_outside(self.rect, tile, word);
        let dist = u64::from(M::of(columns, gap));
        self.least = self.least.min(dist);
    }
}

/// The least of `limit` and of the distances of the rectangle's cells to the bitmap's obstacles.
pub fn least_in_bits<M: Metric, R: Rows>(rows: &mut R, rect: Rect, limit: u64) -> u64
    requires { IsRectIn (R.cells rows.old) rect }
    ensures least { IsLeastInBits M.distance (IsObstacle (R.cells rows.old)) rect limit result }
    ensures rows { rows.new ≡ rows.old }
{
    let mut least = Least { rect, least: limit };
    search::<M, R, Least>(rows, &mut least);
    least.least
}
