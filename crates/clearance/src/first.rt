//! The nearest obstacle of a cell.

ghost use Rattle.std.specs.Prelude.{◌≡◌, ◌<◌, ◌≤◌, true};
ghost use Rattle.bits.specs.Cells.{IsInside, IsObstacle};
ghost use Rattle.clearance.specs.Nearest.{IsFoundBelow};
ghost use Rattle.clearance.specs.Seekers.{ComesFirst, IsOneCell};

use crate::around::search;
use crate::found::Found;
use crate::gaps::{cell_rect, row_apart};
use crate::rows::{Rows, holds};
use crate::seeker::Seeker;
use crate::spot::{first_in_word, limit_with, merged};
use metric::{Cell, LAST_FRAMED, Metric, Rect};

/// Keeps the first obstacle so far, seen from the rectangle of one cell, and a limit below which
/// one that comes before it is.
#[derive(Clone, Copy)]
struct First {
    rect: Rect,
    limit: u64,
    best: Option<Found>,
    ghost one_cell: { IsOneCell rect limit best },
}

/// Whether what is found comes before obstacles equally near in columns from `x` on, at least `gap`
/// rows away: it is left of them, or in fewer rows where those left of it are too far.
#[inline(always)]
fn comes_first<M: Metric>(best: Option<Found>, rect: Rect, limit: u64, x: u16, gap: u16) -> bool
    requires { gap ≤ LAST_FRAMED }
    ensures { result ≡ true → ComesFirst M.distance rect limit best x gap }
{
    let Some(best) = best else {
        return false;
    };
    if best.cell.x < x {
        return true;
    }
    if gap <= row_apart(rect, best.cell.y) {
        return false;
    }
    // How many columns away those left of it are at least.
    let left = (rect.x0 + 1).saturating_sub(best.cell.x);
    best.cell.x == x || u64::from(M::of(left, gap)) >= limit
}

impl<M: Metric> Seeker<M> for First {
    ghost use Rattle.clearance.specs.Seekers.{IsBehind, IsFirstKept};

    ghost aim = { record {
      from = λ s. s.rect;
      counts = λ s rect. rect ≡ s.rect;
      begins = λ s. record { x = s.rect.x0; y = s.rect.y0 };
      settles = λ s a b. IsBehind M.distance s.rect s.limit s.best a b;
      keeps = λ cells first s.
          IsFirstKept M.distance cells first.rect first.limit s.rect s.limit s.best;
    } };

    #[inline(always)]
    fn rect(&self) -> Rect {
        self.rect
    }

    #[inline(always)]
    fn start(&self) -> Cell {
        Cell {
            x: self.rect.x0,
            y: self.rect.y0,
        }
    }

    #[inline(always)]
    fn is_far(&self, dist: u32, x: u16, gap: u16) -> bool {
        let dist = u64::from(dist);
        if dist + 1 < self.limit {
            return false;
        }
        if dist >= self.limit {
            return true;
        }
        comes_first::<M>(self.best, self.rect, self.limit, x, gap)
    }

    #[inline(always)]
    fn meet(&mut self, word: u64, tile: u16, y: u16, gap: u16) {
        let (rect, limit) = (self.rect, self.limit);
        let Some(next) = first_in_word::<M>(word, tile, y, rect, gap, limit) else {
            return;
        };
        let best = merged(rect.y0, self.best, Some(next));
        *self = First {
            rect,
            limit: limit_with(limit, best),
            best,
        };
    }
}

/// The nearest obstacle of the cell; `None` if none is nearer than the limit.
pub fn nearest<M: Metric, R: Rows>(rows: &mut R, cell: Cell, limit: u64) -> Option<Found>
    requires { IsInside (R.cells rows.old) cell.x cell.y }
    ensures near { IsFoundBelow M.distance (IsObstacle (R.cells rows.old)) cell.x cell.y limit
        result }
    ensures rows { rows.new ≡ rows.old }
{
    let inside = holds(rows, cell);
    prove!(inside);
    let mut first = First {
        rect: cell_rect(cell),
        limit,
        best: None,
    };
    search::<M, R, First>(rows, &mut first);
    first.best
}
