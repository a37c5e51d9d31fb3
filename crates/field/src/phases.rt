//! The column phase and the row phase over the rows of a batch, in order.

ghost use Rattle.std.specs.Prelude.{◌≡◌, ◌<◌, ◌+◌, IfOk, length};
ghost use Rattle.envelope.specs.Rows.{AreRowValues};

use column::{Batch, Columns};
use envelope::{CellValue, Stack, values_from};
use metric::{Metric, NoMemory};
use std::alloc::Global;

/// What both phases need between two rows of a batch.
pub struct Phases {
    pub columns: Columns,
    pub stack: Stack,
}

// Written by hand: a derived drop is proved field by field at each exit of each caller.
impl Drop for Phases {
    /// Frees what both phases need.
    fn drop(self) {
        let Phases {
            columns: _,
            stack: _,
        } = self;
    }
}

impl Phases {
    ghost use Rattle.field.specs.Phases.{IsNextLine};

    /// Both phases before the batch's first row. Fails only when out of memory.
    pub fn of(alloc: Global, batch: &Batch<'_>) -> Result<Self, NoMemory>
        ensures { IfOk result (λ phases. IsNextLine batch.now phases batch.now.y0) }
    {
        let columns = Columns::of(alloc, batch)?;
        let stack = Stack::new(alloc, batch.columns())?;
        Ok(Phases { columns, stack })
    }

    /// Fills a line with the values of row `y`, which is the next row.
    pub fn fill_line<M: Metric, V: CellValue>(&mut self, batch: &Batch<'_>, y: u16, line: &mut [V])
        requires ready { IsNextLine batch.now self.old y }
        requires row { y < batch.now.y1 }
        requires line { length line.old ≡ batch.now.bitmap.now.width }
        ensures line { AreRowValues V.says V.unset M.distance batch.now.bitmap.now
            batch.now.edge y batch.now.bitmap.now.width line.new }
        ensures ready { IsNextLine batch.now self.new (y + 1) }
    {
        let Phases { columns, stack } = self;
        columns.look(batch, y);
        let edge = batch.edge;
        values_from::<M, V>(&columns.entries, y + edge.shift(), edge, stack, line);
    }
}
