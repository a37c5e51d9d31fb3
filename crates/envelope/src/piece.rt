//! A piece of a row that the stack computes, and the columns that suffice for it.

ghost use Rattle.std.specs.Prelude.{ℕ, ◌+◌, ◌*◌, ◌<◌, ◌≤◌, ◌≡◌, ◌⊎◌, length, slice_index_or};
ghost use Rattle.metric.specs.Edge.{shift};
ghost use Rattle.envelope.specs.Columns.{AreEntries, IsSaid};
ghost use Rattle.envelope.specs.Pieces.{IsEnough, IsPiece};

use crate::answer::CellValue;
use crate::border::Border;
use crate::cover::{Span, cover};
use crate::fill::fill;
use metric::Metric;

/// A range of cells and a range of columns, each up to but not including its end. Both count the
/// frame, if there is one.
#[derive(Clone, Copy)]
pub struct Piece {
    pub from: usize,
    pub end: usize,
    pub first: usize,
    pub last: usize,
}

/// Fills the cells of a piece by the stack, which has room for a row.
pub fn fill_piece<M: Metric, A: CellValue, B: Border>(
    entries: &[u16],
    y: u16,
    piece: Piece,
    spans: &mut [Span],
    answers: &mut [A],
)
    requires entries { AreEntries entries.now y }
    requires row { shift B.EDGE ≤ y }
    requires piece { IsPiece entries.now piece }
    requires enough { IsEnough M.distance entries.now y piece }
    requires room { length entries.now ≤ length spans.old }
    requires width { length answers.old + 2 * shift B.EDGE ≡ length entries.now }
    ensures filled { (x : ℕ) → piece.from ≤ x + shift B.EDGE → x + shift B.EDGE < piece.end
        → x < length answers.old
        → IsSaid A.says M.distance entries.now y B.EDGE x
        (slice_index_or answers.new x A.unset) }
    ensures others { (x : ℕ) → (x + shift B.EDGE < piece.from) ⊎ (piece.end ≤ x + shift B.EDGE)
        → slice_index_or answers.new x A.unset ≡ slice_index_or answers.old x A.unset }
{
    let count = cover::<M>(entries, y, piece, spans);
    fill::<M, A, B>(entries, y, piece, &spans[..count], answers);
}
