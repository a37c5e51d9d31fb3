//! The bands of a map that a search hasn't met yet, from a rectangle outwards.

use crate::bit::{after_last_bit, next_bit};
use crate::gaps::rows_apart;
use metric::{LAST_FRAMED, Rect, WORD_CELLS};

/// Which bands are marked, and those of them that are left: the ones before `above`, and from
/// `below` on.
#[derive(Clone, Copy)]
pub struct Bands {
    pub marked: u64,
    pub above: u16,
    pub below: u16,
}

/// The next band, how many rows it lies outside the rectangle, and the bands left after it.
#[derive(Clone, Copy)]
pub struct NextBand {
    pub band: u16,
    pub gap: u16,
    pub left: Bands,
}

impl Bands {
    ghost use Rattle.std.specs.Prelude.{◌≡◌, ℕ, ◌/◌, ◌<◌, ◌≤◌, IfSome, None};
    ghost use Rattle.std.specs.Int.{bit_at};
    ghost use Rattle.clearance.specs.Seekers.{AreAsFarBands, IsLeft, IsNextBand};

    /// All marked bands, from this one outwards.
    #[inline(always)]
    pub fn of(marked: u64, own: u16) -> Bands
        requires { own < 64 }
        ensures marked { result.marked ≡ marked }
        ensures above { result.above ≤ own }
        ensures below { own ≤ result.below }
        ensures few { result.below ≤ 64 }
        ensures all { (k : ℕ) → k < 64 → bit_at marked k ≡ 1
            → IsLeft result.above result.below k }
    {
        Bands {
            marked,
            above: after_last_bit(marked, own),
            below: next_bit(marked, own),
        }
    }

    /// The next band, of those above and below the row of a rectangle; `None` if none is left.
    #[inline(always)]
    pub fn next(self, rect: Rect, y: u16) -> Option<NextBand>
        requires top { rect.y0 ≤ y }
        requires bottom { y < rect.y1 }
        requires above { self.above ≤ y / 64 }
        requires below { y / 64 ≤ self.below }
        requires few { self.below ≤ 64 }
        ensures none { result ≡ None → (k : ℕ) → k < 64 → IsLeft self.above self.below k → ⊥ }
        ensures next { IfSome result (λ next. IsNextBand self next.band next.left) }
        ensures gap { IfSome result (λ next. AreAsFarBands self rect next.gap) }
    {
        let up = if self.above == 0 {
            LAST_FRAMED
        } else {
            rows_apart(rect, self.above - 1)
        };
        let down = if self.below < WORD_CELLS {
            rows_apart(rect, self.below)
        } else {
            LAST_FRAMED
        };
        let gap = up.min(down);
        if gap == LAST_FRAMED {
            return None;
        }
        let (band, left) = if up < down {
            let above = after_last_bit(self.marked, self.above - 1);
            (self.above - 1, Bands { above, ..self })
        } else {
            let below = next_bit(self.marked, self.below + 1);
            (self.below, Bands { below, ..self })
        };
        Some(NextBand { band, gap, left })
    }
}
