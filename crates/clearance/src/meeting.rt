//! Meets the obstacles of a tile's rows, from the rectangle outwards.

use crate::bit::{bits_without, lowest_bit};
use crate::gaps::columns_outside;
use crate::part::Part;
use crate::rows::Rows;
use crate::seeker::Seeker;
use metric::{Metric, Rect, WORD_CELLS};

impl Part {
    ghost use Rattle.std.specs.Prelude.{◌≡◌, ℕ, ◌+◌, ◌/◌, ◌%◌, ◌<◌, ◌≤◌, ◌⊎◌, true, false};
    ghost use Rattle.std.specs.Int.{bit_at};
    ghost use Rattle.bits.specs.Cells.{Cells, IsObstacle};
    ghost use Rattle.clearance.specs.Search.{row_gap};
    ghost use Rattle.clearance.specs.Seekers.{AreFarColumns, AreObstacles, IsInPart};
    ghost use Rattle.clearance.specs.Seekers.{IsOnward, IsSeenFrom, IsSeenPart};
    ghost use Rattle.clearance.specs.Spots.{IsInWord};

    /// Meets the obstacles that matter, row by row from the rectangle outwards: those of the
    /// rectangle's rows from the start's row down, then from it up, then above and below the
    /// rectangle in turns, and last those of the longer side.
    #[inline(always)]
    pub fn meet<M: Metric, R: Rows, S: Seeker<M>>(
        self,
        rows: &mut R,
        rect: Rect,
        start: u16,
        seeker: &mut S,
    )
        requires part { IsSeenPart S.aim (R.cells rows.old) self seeker.old rect }
        requires top { rect.y0 ≤ start }
        requires bottom { start < rect.y1 }
        ensures onward { IsOnward S.aim (R.cells rows.old) seeker.old seeker.new }
        ensures met { (a b : ℕ) → IsInPart (R.cells rows.old) self a b
            → S.aim.settles seeker.new a b }
        ensures rows { rows.new ≡ rows.old }
    {
        let (top, bottom) = (rect.y0.max(self.first), rect.y1.min(self.end));
        if !self.see_down::<M, R, S>(rows, rect, start.max(self.first), bottom, seeker) {
            return;
        }
        if !self.see_up::<M, R, S>(rows, rect, top, start.min(self.end), seeker) {
            return;
        }
        let (up, down) = (
            rect.y0.saturating_sub(self.first),
            self.end.saturating_sub(rect.y1),
        );
        let both = up.min(down);
        if !self.see_pairs::<M, R, S>(rows, rect, both, seeker) {
            return;
        }
        let above = rect.y0.min(self.end) - both;
        let _ = self.see_up::<M, R, S>(rows, rect, self.first, above, seeker);
        let below = rect.y1.max(self.first) + both;
        let _ = self.see_down::<M, R, S>(rows, rect, below, self.end, seeker);
    }

    /// Meets those of rows from one on to an end, none of which is above the rectangle. Returns
    /// whether rows farther away may matter.
    #[inline(always)]
    fn see_down<M: Metric, R: Rows, S: Seeker<M>>(
        self,
        rows: &mut R,
        rect: Rect,
        from: u16,
        to: u16,
        seeker: &mut S,
    ) -> bool
        requires part { IsSeenPart S.aim (R.cells rows.old) self seeker.old rect }
        requires top { rect.y0 ≤ from }
        requires first { self.first ≤ from }
        requires end { to ≤ self.end }
        ensures onward { IsOnward S.aim (R.cells rows.old) seeker.old seeker.new }
        ensures met { (a b : ℕ) → IsInPart (R.cells rows.old) self a b → from ≤ b → b < to
            → S.aim.settles seeker.new a b }
        ensures far { result ≡ false → to ≤ rect.y1
            → (a b : ℕ) → IsInPart (R.cells rows.old) self a b → S.aim.settles seeker.new a b }
        ensures rows { rows.new ≡ rows.old }
    {
        let mut far = 0;
        'down: for y in from..to {
            if !self.see::<M, R, S>(
                rows,
                rect,
                y,
                y.saturating_sub(rect.y1 - 1),
                &mut far,
                seeker,
            ) {
                return false;
            }
        }
        true
    }

    /// The same for rows from an end up to one, none of which is below the rectangle.
    #[inline(always)]
    fn see_up<M: Metric, R: Rows, S: Seeker<M>>(
        self,
        rows: &mut R,
        rect: Rect,
        from: u16,
        to: u16,
        seeker: &mut S,
    ) -> bool
        requires part { IsSeenPart S.aim (R.cells rows.old) self seeker.old rect }
        requires bottom { to ≤ rect.y1 }
        requires first { self.first ≤ from }
        requires end { to ≤ self.end }
        ensures onward { IsOnward S.aim (R.cells rows.old) seeker.old seeker.new }
        ensures met { (a b : ℕ) → IsInPart (R.cells rows.old) self a b → from ≤ b → b < to
            → S.aim.settles seeker.new a b }
        ensures far { result ≡ false → rect.y0 ≤ from
            → (a b : ℕ) → IsInPart (R.cells rows.old) self a b → S.aim.settles seeker.new a b }
        ensures rows { rows.new ≡ rows.old }
    {
        let mut far = 0;
        'up: for y in (from..to).rev() {
            if !self.see::<M, R, S>(rows, rect, y, rect.y0.saturating_sub(y), &mut far, seeker) {
                return false;
            }
        }
        true
    }

    /// Meets those of up to that many rows above and below the rectangle, in turns. Returns whether
    /// rows farther away may matter.
    #[inline(always)]
    fn see_pairs<M: Metric, R: Rows, S: Seeker<M>>(
        self,
        rows: &mut R,
        rect: Rect,
        both: u16,
        seeker: &mut S,
    ) -> bool
        requires part { IsSeenPart S.aim (R.cells rows.old) self seeker.old rect }
        requires above { 0 < both → self.first + both ≤ rect.y0 }
        requires below { 0 < both → rect.y1 + both ≤ self.end }
        ensures onward { IsOnward S.aim (R.cells rows.old) seeker.old seeker.new }
        ensures met { (a b : ℕ) → IsInPart (R.cells rows.old) self a b → 0 < row_gap rect b
            → row_gap rect b ≤ both → S.aim.settles seeker.new a b }
        ensures far { result ≡ false → (a b : ℕ) → IsInPart (R.cells rows.old) self a b
            → 0 < row_gap rect b → S.aim.settles seeker.new a b }
        ensures rows { rows.new ≡ rows.old }
    {
        let mut far = 0;
        'pairs: for gap in 1..both + 1 {
            if !self.see::<M, R, S>(rows, rect, rect.y0 - gap, gap, &mut far, seeker) {
                return false;
            }
            if !self.see::<M, R, S>(rows, rect, rect.y1 - 1 + gap, gap, &mut far, seeker) {
                return false;
            }
        }
        true
    }

    /// Meets the obstacles of a row that matter, except those in far columns. Returns whether
    /// those of rows farther away may matter.
    #[inline(always)]
    fn see<M: Metric, R: Rows, S: Seeker<M>>(
        self,
        rows: &mut R,
        rect: Rect,
        y: u16,
        gap: u16,
        far: &mut u64,
        seeker: &mut S,
    ) -> bool
        requires part { IsSeenPart S.aim (R.cells rows.old) self seeker.old rect }
        requires first { self.first ≤ y }
        requires end { y < self.end }
        requires gap { gap ≡ row_gap rect y }
        requires columns { AreFarColumns self.tile far.old rect gap (S.aim.settles seeker.old) }
        ensures onward { IsOnward S.aim (R.cells rows.old) seeker.old seeker.new }
        ensures columns { AreFarColumns self.tile far.new rect gap (S.aim.settles seeker.new) }
        ensures met { (a : ℕ) → IsObstacle (R.cells rows.old) a y → a / WORD_CELLS ≡ self.tile
            → S.aim.settles seeker.new a y }
        ensures far { result ≡ false → (a b : ℕ) → IsInPart (R.cells rows.old) self a b
            → gap ≤ row_gap rect b → S.aim.settles seeker.new a b }
        ensures rows { rows.new ≡ rows.old }
    {
        if self.is_far::<M, S>(gap, seeker) {
            return false;
        }
        let word = bits_without(rows.word(y, usize::from(self.tile)), *far);
        if word == 0 {
            return true;
        }
        self.meet_word::<M, S>(word, rect, y, gap, far, seeker);
        true
    }

    /// Meets the obstacles of a row's word, or marks their columns as too far.
    #[inline(always)]
    fn meet_word<M: Metric, S: Seeker<M>>(
        self,
        word: u64,
        rect: Rect,
        y: u16,
        gap: u16,
        far: &mut u64,
        seeker: &mut S,
    )
        requires tile { self.tile < 64 }
        requires row { y < 4096 }
        requires some { 0 < word }
        requires seen { IsSeenFrom S.aim seeker.old rect }
        requires gap { gap ≡ row_gap rect y }
        ensures met { (a b : ℕ) → IsInWord self.tile y word a b → S.aim.settles seeker.new a b }
        ensures onward { (cells : Cells) → AreObstacles cells self.tile y word
            → IsOnward S.aim cells seeker.old seeker.new }
        ensures columns { (a b : ℕ) → b < 4096 → a / WORD_CELLS ≡ self.tile
            → bit_at far.new (a % 64) ≡ 1 → gap ≤ row_gap rect b
            → (bit_at far.old (a % 64) ≡ 1) ⊎ S.aim.settles seeker.new a b }
    {
        let columns = columns_outside(seeker.rect(), self.tile, word);
        let x = WORD_CELLS * self.tile + lowest_bit(word);
        if seeker.is_far(M::of(columns, gap), x, gap) {
            *far |= word;
            return;
        }
        seeker.meet(word, self.tile, y, gap);
    }
}
