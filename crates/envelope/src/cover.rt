//! Stacks the columns of a piece of a row, from the left: each span of cells with the column
//! nearest to them.

ghost use Rattle.std.specs.Prelude.{◌≤◌, length};
ghost use Rattle.envelope.specs.Columns.{AreEntries, IsColumnFrom, gap_of};
ghost use Rattle.envelope.specs.Envelope.{IsCovered, AreSpansKept};
ghost use Rattle.envelope.specs.Pieces.{IsPiece};

use crate::columns::{crossing, distance, gap};
use crate::piece::Piece;
use column::NONE;
use metric::Metric;

/// The cells of a row from `start` up to the start of the next span, to which one column is the
/// nearest.
#[derive(Clone, Copy, Debug)]
pub struct Span {
    pub start: u16,
    pub column: u16,
    /// How many rows away the column's obstacle lies.
    pub gap: u16,
}

/// Stacks the spans of the cells before the piece's end, over the piece's columns. Returns how many
/// there are: none if no such column has an obstacle.
// Not inlined: the two phases would compete for registers.
#[inline(never)]
pub fn cover<M: Metric>(entries: &[u16], y: u16, piece: Piece, spans: &mut [Span]) -> usize
    requires entries { AreEntries entries.now y }
    requires piece { IsPiece entries.now piece }
    requires room { length entries.now ≤ length spans.old }
    ensures few { result ≤ length entries.now }
    ensures covered { IsCovered M.distance (gap_of entries.now y)
        (IsColumnFrom entries.now piece.first piece.last) spans.new result piece.end }
{
    let mut count = 0;
    'columns: for column in piece.first..piece.last {
        if entries[column] != NONE {
            let column = column as u16;
            // The column hides the spans that aren't kept. It starts where it gets strictly nearer
            // than the last of the others: at or after the piece's end if it is nowhere the
            // nearest.
            let kept = kept_spans::<M>(entries, y, piece, column, spans, count);
            let gap = gap(entries, y, column);
            let mut start = 0;
            if kept > 0 {
                let top = spans[kept - 1];
                start = crossing::<M>(top.column, top.gap, column, gap);
            }
            count = kept;
            if usize::from(start) < piece.end {
                spans[kept] = Span { start, column, gap };
                count = kept + 1;
            }
        }
    }
    count
}

/// How many spans remain after popping those on whose first cell the column is strictly nearer than
/// their own.
fn kept_spans<M: Metric>(
    entries: &[u16],
    y: u16,
    _piece: Piece,
    column: u16,
    spans: &[Span],
    count: usize,
) -> usize
    requires entries { AreEntries entries.now y }
    requires piece { IsPiece entries.now _piece }
    requires room { count ≤ length spans.now }
    requires column { IsColumnFrom entries.now _piece.first (length entries.now) column }
    requires covered { IsCovered M.distance (gap_of entries.now y)
        (IsColumnFrom entries.now _piece.first column) spans.now count _piece.end }
    ensures { AreSpansKept M.distance (gap_of entries.now y)
        (IsColumnFrom entries.now _piece.first column) spans.now count result _piece.end column }
{
    let gap = gap(entries, y, column);
    let mut kept = count;
    'spans: while kept > 0 {
        let top = spans[kept - 1];
        let own = distance::<M>(top.column, top.gap, top.start);
        if own <= distance::<M>(column, gap, top.start) {
            break;
        }
        kept -= 1;
    }
    kept
}
