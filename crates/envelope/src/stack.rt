//! The buffers in which a row's spans are stacked, and the row phase.

ghost use Rattle.std.specs.Prelude.{◌≡◌, ℕ, ◌+◌, ◌*◌, ◌<◌, ◌≤◌, length, IfOk};
ghost use Rattle.bits.specs.Cells.{Cells, IsBitmap};
ghost use Rattle.column.specs.Columns.{IsRowOfTable};
ghost use Rattle.envelope.specs.Columns.{AreEntries, AreSaid};
ghost use Rattle.envelope.specs.Rows.{AreRowAnswers, AreRowNears, AreRowValues};
ghost use Rattle.bits.specs.Edges.{framed};
ghost use Rattle.metric.specs.Edge.{shift};

use crate::answer::{CellAnswer, CellValue};
use crate::beside::{SPARE, fill_beside};
use crate::border::{Border, Open, Walled};
use crate::cover::Span;
use crate::piece::{Piece, fill_piece};
use crate::scan::{are_many_far, fill_by_scans};
use column::ColumnTable;
use metric::{Edge, Metric, Near, NoMemory};
use std::alloc::Global;
use std::marker::Model;

/// The content of an unused place of the stack.
const UNUSED: Span = Span {
    start: 0,
    column: 0,
    gap: 0,
};

/// How many rows after one whose obstacles weren't close by go straight to the stack: neighbouring
/// rows are alike.
const FAR_ROWS: u8 = 16;

/// The buffers for the spans of one row, and for the parts and the words of its columns. Contracts
/// see the width of the rows that it was made for.
#[derive(Debug, Drop)]
pub struct Stack {
    spans: Vec<Span>,
    parts: Vec<u16>,
    /// The words of the columns for the cells on their right, and for those on their left.
    left: Vec<u32>,
    right: Vec<u32>,
    /// How many of the next rows skip the search in vectors.
    far_rows: u8,
}

impl Model for Stack {
    ghost use Rattle.std.specs.Prelude.{◌≡◌, ℕ, ◌+◌, length};

    ghost Value = { ℕ };

    ghost view = { λ stack. length stack.spans.items };

    ghost invariant = { λ stack. (length stack.parts.items ≡ length stack.spans.items + 272)
        × (length stack.left.items ≡ length stack.spans.items)
        × (length stack.right.items ≡ length stack.spans.items) };
}

impl Stack {
    /// A stack for rows of this width. Fails only when out of memory.
    pub fn new(alloc: Global, width: u16) -> Result<Self, NoMemory>
        ensures { IfOk result (λ stack. stack ≡ width) }
    {
        let spans = vec![in alloc; UNUSED; usize::from(width)]?;
        let parts = vec![in alloc; 0; usize::from(width) + SPARE]?;
        let left = vec![in alloc; 0; usize::from(width)]?;
        let right = vec![in alloc; 0; usize::from(width)]?;
        Ok(Stack {
            spans,
            parts,
            left,
            right,
            far_rows: 0,
        })
    }
}

/// Fills a row with the nearest obstacle of each cell of row `y`, from the left, or `None` where
/// there is no obstacle.
///
/// Ties go to the obstacle of the least column; among those to the one in the fewest rows away, and
/// of two such to the upper one. The row to fill and the map have the same width, and the stack is
/// for rows of at least as many cells, two more with a wall. It allocates no memory.
pub fn row<M: Metric>(table: &ColumnTable, y: u16, stack: &mut Stack, nears: &mut [Option<Near>])
    requires row { y < table.now.cells.height }
    requires stack { table.now.cells.width + 2 * shift table.now.edge ≤ stack.old }
    requires width { length nears.old ≡ table.now.cells.width }
    ensures nears { AreRowNears M.distance table.now.cells table.now.edge y table.now.cells.width
        nears.new }
    ensures stack { stack.new ≡ stack.old }
{
    let edge = table.edge();
    row_from::<M, Option<Near>>(table.row(y), y + edge.shift(), edge, stack, nears);
}

/// Fills a row with the value for each cell of row `y`, from the left. `entries` is the row of a
/// table of the map: the nearest obstacles of the columns. With a wall, `y` and the entries count
/// the frame.
///
/// The row to fill has as many cells as there are entries, without those of the frame, and the
/// stack is for at least as many entries. It allocates no memory.
pub fn values_from<M: Metric, V: CellValue>(
    entries: &[u16],
    y: u16,
    edge: Edge,
    stack: &mut Stack,
    values: &mut [V],
)
    requires entries { AreEntries entries.now y }
    requires row { shift edge ≤ y }
    requires stack { length entries.now ≤ stack.old }
    requires width { length values.old + 2 * shift edge ≡ length entries.now }
    ensures values { (cells : Cells) (row : ℕ) → IsBitmap cells → row < cells.height
        → y ≡ row + shift edge
        → IsRowOfTable (framed edge cells) y entries.now
        → AreRowValues V.says V.unset M.distance cells edge row cells.width values.new }
    ensures stack { stack.new ≡ stack.old }
{
    match edge {
        Edge::Open => fill_row::<M, V, Open>(entries, y, stack, values),
        Edge::Wall => fill_row::<M, V, Walled>(entries, y, stack, values),
    }
}

/// As `values_from`, with answers.
pub fn row_from<M: Metric, A: CellAnswer>(
    entries: &[u16],
    y: u16,
    edge: Edge,
    stack: &mut Stack,
    answers: &mut [A],
)
    requires entries { AreEntries entries.now y }
    requires row { shift edge ≤ y }
    requires stack { length entries.now ≤ stack.old }
    requires width { length answers.old + 2 * shift edge ≡ length entries.now }
    ensures answers { (cells : Cells) (row : ℕ) → IsBitmap cells → row < cells.height
        → y ≡ row + shift edge
        → IsRowOfTable (framed edge cells) y entries.now
        → AreRowAnswers A.told A.nothing M.distance cells edge row cells.width answers.new }
    ensures stack { stack.new ≡ stack.old }
{
    values_from::<M, A>(entries, y, edge, stack, answers);
}

/// Fills a row with the obstacle of the column nearest to each cell: by two scans if the distance
/// is the sum of columns and rows and many columns have an obstacle some rows away; by searching
/// around each cell if the nearest are close by; and otherwise by the stack, as for each metric
/// without a reach.
fn fill_row<M: Metric, A: CellValue, B: Border>(
    entries: &[u16],
    y: u16,
    stack: &mut Stack,
    answers: &mut [A],
)
    requires entries { AreEntries entries.now y }
    requires row { shift B.EDGE ≤ y }
    requires stack { length entries.now ≤ stack.old }
    requires width { length answers.old + 2 * shift B.EDGE ≡ length entries.now }
    ensures answers { AreSaid A.says A.unset M.distance entries.now y B.EDGE answers.new }
    ensures stack { stack.new ≡ stack.old }
{
    if M::is_sum() && are_many_far(entries, y) {
        let (left, right) = (stack.left.as_mut_slice(), stack.right.as_mut_slice());
        fill_by_scans::<M, A, B>(entries, y, left, right, answers);
        return;
    }
    if stack.far_rows > 0 || M::reach(1) == 0 {
        stack.far_rows = stack.far_rows.saturating_sub(1);
        fill_far::<M, A, B>(entries, y, stack.spans.as_mut_slice(), answers);
        return;
    }
    let (parts, spans) = (stack.parts.as_mut_slice(), stack.spans.as_mut_slice());
    let found = fill_beside::<M, A, B>(entries, y, parts, spans, answers);
    stack.far_rows = if found { 0 } else { FAR_ROWS };
}

/// Fills a row by the stack only.
fn fill_far<M: Metric, A: CellValue, B: Border>(
    entries: &[u16],
    y: u16,
    spans: &mut [Span],
    answers: &mut [A],
)
    requires entries { AreEntries entries.now y }
    requires row { shift B.EDGE ≤ y }
    requires spans { length entries.now ≤ length spans.old }
    requires width { length answers.old + 2 * shift B.EDGE ≡ length entries.now }
    ensures answers { AreSaid A.says A.unset M.distance entries.now y B.EDGE answers.new }
{
    if entries.is_empty() {
        return;
    }
    let piece = Piece {
        from: 0,
        end: entries.len(),
        first: 0,
        last: entries.len(),
    };
    fill_piece::<M, A, B>(entries, y, piece, spans, answers);
}
