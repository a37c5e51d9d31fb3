//! What the rows of a batch are computed from, in order: the nearest obstacles of all columns.

ghost use Rattle.std.specs.Prelude.{◌≡◌, ◌+◌, ◌*◌, ◌<◌, IfOk, length};
ghost use Rattle.metric.specs.Edge.{shift};
ghost use Rattle.bits.specs.Cells.{IsBitmap};
ghost use Rattle.bits.specs.Edges.{framed};
ghost use Rattle.column.specs.Columns.{IsRowOfTable};

use crate::batch::Batch;
use crate::carried::{Carried, no_obstacles};
use crate::seek::nearest_rows;
use metric::NoMemory;
use std::alloc::Global;

/// The most rows for which each is searched outwards by itself; for more, one pass through the
/// bitmap is cheaper.
const FEW_ROWS: u16 = 32;

/// The most rows from the first one to a column's nearest obstacle for which rows are searched by
/// themselves.
const FAR: u16 = 64;

/// The columns of a batch, seen from one of its rows after another.
#[derive(Drop)]
pub struct Columns {
    /// What is carried from row to row, unless each row is searched by itself.
    pub carried: Option<Carried>,
    /// The nearest obstacles of the row read last, counted with the frame; with a wall they include
    /// those of the frame.
    pub entries: Vec<u16>,
}

impl Columns {
    ghost use Rattle.column.specs.Carrying.{IsNextRow};

    /// The columns of the batch, before its first row. Fails only when out of memory.
    pub fn of(alloc: Global, batch: &Batch<'_>) -> Result<Self, NoMemory>
        ensures { IfOk result (λ columns. IsNextRow batch.now columns batch.now.y0) }
    {
        let mut entries = no_obstacles(alloc, usize::from(batch.columns()))?;
        let carried = if is_worth_a_walk(batch, entries.as_mut_slice()) {
            Some(Carried::of(alloc, batch)?)
        } else {
            None
        };
        Ok(Columns { carried, entries })
    }

    /// Reads row `y`, which is the next: its entries are then the row of a table of the bitmap.
    pub fn look(&mut self, batch: &Batch<'_>, y: u16)
        requires bitmap { IsBitmap batch.now.bitmap.now }
        requires ready { IsNextRow batch.now self.old y }
        requires row { y < batch.now.y1 }
        ensures ready { IsNextRow batch.now self.new (y + 1) }
        ensures entries { IsRowOfTable (framed batch.now.edge batch.now.bitmap.now)
            (y + shift batch.now.edge) self.new.entries.items }
    {
        let entries = self.entries.as_mut_slice();
        match &mut self.carried {
            Some(carried) => carried.look(batch, y, entries),
            None => nearest_rows(batch.bitmap, batch.edge, y + batch.edge.shift(), entries),
        }
    }
}

/// Whether carrying lines costs less than searching outwards from each row: for many rows, or if a
/// column's nearest obstacle is far from the first one. `entries` is a buffer for a row.
fn is_worth_a_walk(batch: &Batch<'_>, entries: &mut [u16]) -> bool
    requires { length entries.old ≡ batch.now.bitmap.now.width + 2 * shift batch.now.edge }
    ensures len { length entries.new ≡ length entries.old }
{
    if batch.y1 - batch.y0 > FEW_ROWS {
        return true;
    }
    if batch.y0 == batch.y1 {
        return false;
    }
    let first = batch.y0 + batch.edge.shift();
    nearest_rows(batch.bitmap, batch.edge, first, entries);
    let mut farthest = 0;
    'columns: for x in 0..entries.len() {
        farthest = farthest.max(first.abs_diff(entries[x]));
    }
    farthest > FAR
}
