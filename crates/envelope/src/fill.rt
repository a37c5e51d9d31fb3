//! Reads the spans of a piece of a row back: each cell with its nearest obstacle.

ghost use Rattle.std.specs.Prelude.{◌≡◌, ℕ, ◌+◌, ◌*◌, ◌<◌, ◌≤◌, ◌⊎◌, length, slice_index_or};
ghost use Rattle.metric.specs.Edge.{shift};
ghost use Rattle.envelope.specs.Columns.{AreEntries, IsColumnFrom, IsSaid, gap_of};
ghost use Rattle.envelope.specs.Envelope.{IsCovered};
ghost use Rattle.envelope.specs.Pieces.{IsEnough, IsPiece};

use crate::answer::CellValue;
use crate::border::Border;
use crate::columns::{distance, near_at};
use crate::cover::Span;
use crate::piece::Piece;
use metric::Metric;

/// Fills the cells of the piece with the obstacle of the column nearest to each, or with none if
/// there is no span. Cells of the frame have no place in the row.
// Not inlined: the two phases would compete for registers.
#[inline(never)]
pub fn fill<M: Metric, A: CellValue, B: Border>(
    entries: &[u16],
    y: u16,
    piece: Piece,
    spans: &[Span],
    answers: &mut [A],
)
    requires entries { AreEntries entries.now y }
    requires row { shift B.EDGE ≤ y }
    requires piece { IsPiece entries.now piece }
    requires enough { IsEnough M.distance entries.now y piece }
    requires width { length answers.old + 2 * shift B.EDGE ≡ length entries.now }
    requires covered { IsCovered M.distance (gap_of entries.now y)
        (IsColumnFrom entries.now piece.first piece.last) spans.now (length spans.now) piece.end }
    ensures filled { (x : ℕ) → piece.from ≤ x + shift B.EDGE → x + shift B.EDGE < piece.end
        → x < length answers.old
        → IsSaid A.says M.distance entries.now y B.EDGE x
        (slice_index_or answers.new x A.unset) }
    ensures others { (x : ℕ) → (x + shift B.EDGE < piece.from) ⊎ (piece.end ≤ x + shift B.EDGE)
        → slice_index_or answers.new x A.unset ≡ slice_index_or answers.old x A.unset }
{
    let edge = B::EDGE;
    let before = usize::from(edge.shift());
    if spans.is_empty() {
        let end = piece.end.saturating_sub(before).min(answers.len());
        fill_none(piece.from.saturating_sub(before), end, answers);
        return;
    }
    let mut end = piece.end;
    let mut count = spans.len();
    'spans: while count > 0 {
        count -= 1;
        let span = spans[count];
        let low = usize::from(span.start)
            .max(piece.from)
            .saturating_sub(before);
        let high = end.saturating_sub(before).min(answers.len());
        'cells: for x in low..high {
            let dist = distance::<M>(span.column, span.gap, (x + before) as u16);
            answers[x] = A::with(near_at(entries, edge, usize::from(span.column), dist));
        }
        end = usize::from(span.start);
    }
}

/// Fills these cells with none.
fn fill_none<A: CellValue>(from: usize, end: usize, answers: &mut [A])
    requires within { end ≤ length answers.old }
    ensures none { (x : ℕ) → from ≤ x → x < end
        → slice_index_or answers.new x A.unset ≡ A.unset }
    ensures others { (x : ℕ) → (x < from) ⊎ (end ≤ x)
        → slice_index_or answers.new x A.unset ≡ slice_index_or answers.old x A.unset }
{
    for x in from..end {
        answers[x] = A::without();
    }
}
