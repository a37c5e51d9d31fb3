//! Some rows of one tile: which of them may matter to a search.

use crate::bit::lowest_bit;
use crate::gaps::{columns_apart, columns_outside};
use crate::rows::Rows;
use crate::seeker::Seeker;
use metric::{BAND_ROWS, Metric, Rect, WORD_CELLS};

/// Rows of a tile from a first one to an end. Their obstacles lie at least this many columns
/// outside a rectangle, and none is left of column `x`.
#[derive(Clone, Copy)]
pub struct Part {
    pub tile: u16,
    pub first: u16,
    pub end: u16,
    pub columns: u16,
    pub x: u16,
}

impl Part {
    ghost use Rattle.std.specs.Prelude.{◌≡◌, ℕ, ◌%◌, ◌<◌, ◌≤◌, ◌⊎◌, IfSome, None, true};
    ghost use Rattle.std.specs.Int.{bit_at};
    ghost use Rattle.bits.specs.Words.{words_across};
    ghost use Rattle.clearance.specs.Search.{column_gap, row_gap};
    ghost use Rattle.clearance.specs.Seekers.{AreOutside, IsCutTo, IsInPart, IsPartIn};
    ghost use Rattle.clearance.specs.Seekers.{IsSameRows};
    ghost use Rattle.clearance.specs.Spots.{IsInTile};

    /// All rows of a tile of a band of the map.
    pub fn of<R: Rows>(rows: &R, band: u16, tile: u16, rect: Rect) -> Part
        requires band { band < 64 }
        requires tile { tile < words_across (R.cells rows.now).width }
        ensures part { IsPartIn (R.cells rows.now) result }
        ensures all { (a b : ℕ) → IsInTile (R.cells rows.now) band tile a b
            → IsInPart (R.cells rows.now) result a b }
        ensures outside { AreOutside (R.cells rows.now) result rect }
    {
        let few = usize::from(tile) < rows.across();
        prove!(few);
        let first = BAND_ROWS * band;
        Part {
            tile,
            first,
            end: rows.height().min(first + BAND_ROWS),
            columns: columns_apart(rect, tile),
            x: WORD_CELLS * tile,
        }
    }

    /// Whether its obstacles this many rows away, and those farther, don't matter any more.
    #[inline(always)]
    pub fn is_far<M: Metric, S: Seeker<M>>(self, gap: u16, seeker: &S) -> bool
        requires columns { self.columns ≤ 4096 }
        requires gap { gap ≤ 4096 }
        ensures { result ≡ true → (a b : ℕ) → a < 4096 → b < 4096
            → self.columns ≤ column_gap (S.aim.from seeker.now) a → self.x ≤ a
            → gap ≤ row_gap (S.aim.from seeker.now) b → S.aim.settles seeker.now a b }
    {
        seeker.is_far(M::of(self.columns, gap), self.x, gap)
    }

    /// The rows that may matter, of some: the others are too far.
    pub fn cut<M: Metric, S: Seeker<M>>(self, rect: Rect, seeker: &S) -> Part
        requires columns { self.columns ≤ 4096 }
        requires some { self.first < self.end }
        requires few { self.end ≤ 4096 }
        requires rect { rect ≡ S.aim.from seeker.now }
        ensures cut { IsCutTo self result }
        ensures far { (a b : ℕ) → a < 4096 → self.first ≤ b → b < self.end
            → (b < result.first) ⊎ (result.end ≤ b) → self.columns ≤ column_gap rect a
            → self.x ≤ a → S.aim.settles seeker.now a b }
    {
        let last = rect
            .y0
            .saturating_sub(self.first)
            .max(self.end.saturating_sub(rect.y1));
        if !self.is_far::<M, S>(last, seeker) {
            return self;
        }
        let reach = self.reach::<M, S>(rect, last, seeker);
        let end = self.end.min(rect.y1 - 1 + reach).max(self.first);
        let first = self.first.max((rect.y0 + 1).saturating_sub(reach)).min(end);
        Part { first, end, ..self }
    }

    /// The least number of rows away from which on they are too far. Requires that those `last`
    /// rows away are.
    fn reach<M: Metric, S: Seeker<M>>(self, rect: Rect, last: u16, seeker: &S) -> u16
        requires columns { self.columns ≤ 4096 }
        requires some { self.first < self.end }
        requires few { last ≤ 4096 }
        requires far { (a b : ℕ) → a < 4096 → b < 4096
            → self.columns ≤ column_gap (S.aim.from seeker.now) a → self.x ≤ a
            → last ≤ row_gap (S.aim.from seeker.now) b → S.aim.settles seeker.now a b }
        ensures few { result ≤ last }
        ensures far { (a b : ℕ) → a < 4096 → b < 4096
            → self.columns ≤ column_gap (S.aim.from seeker.now) a → self.x ≤ a
            → result ≤ row_gap (S.aim.from seeker.now) b → S.aim.settles seeker.now a b }
    {
        let above = rect.y0.saturating_sub(self.end - 1);
        let below = self.first.saturating_sub(rect.y1 - 1);
        let (mut low, mut high) = (above.max(below), last);
        'halves: while low < high {
            let half = low + (high - low) / 2;
            if self.is_far::<M, S>(half, seeker) {
                high = half;
            } else {
                low = half + 1;
            }
        }
        high
    }

    /// The same rows, with what their obstacles tell of the columns; `None` if they have none.
    pub fn looked<R: Rows>(self, rows: &mut R, rect: Rect) -> Option<Part>
        requires part { IsPartIn (R.cells rows.old) self }
        ensures none { result ≡ None → (a b : ℕ) → IsInPart (R.cells rows.old) self a b → ⊥ }
        ensures same { IfSome result (λ part. IsSameRows self part) }
        ensures outside { IfSome result (λ part. AreOutside (R.cells rows.old) part rect) }
        ensures rows { rows.new ≡ rows.old }
    {
        let all = self.joined(rows);
        if all == 0 {
            return None;
        }
        Some(Part {
            columns: columns_outside(rect, self.tile, all),
            x: WORD_CELLS * self.tile + lowest_bit(all),
            ..self
        })
    }

    /// The columns of the tile that have an obstacle in one of the rows, as bits.
    fn joined<R: Rows>(self, rows: &mut R) -> u64
        requires part { IsPartIn (R.cells rows.old) self }
        ensures joined { (a b : ℕ) → IsInPart (R.cells rows.old) self a b
            → bit_at result (a % 64) ≡ 1 }
        ensures rows { rows.new ≡ rows.old }
    {
        let mut all = 0;
        'joined: for y in self.first..self.end {
            all |= rows.word(y, usize::from(self.tile));
        }
        all
    }
}
