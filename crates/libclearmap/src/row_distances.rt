//! The distances of the cells of a batch, one row after another.

ghost use Rattle.std.specs.Prelude.{◌≡◌, ◌+◌, ◌<◌, length, IfOk};
ghost use Rattle.envelope.specs.Rows.{AreRowValues};

use crate::near::NO_OBSTACLE;
use column::{Batch, Columns};
use envelope::{CellValue, Stack, values_from};
use metric::{Metric, Near, NoMemory};
use std::alloc::Global;

/// The distance of a cell's nearest obstacle; `NO_OBSTACLE` where there is none.
#[derive(Clone, Copy)]
pub struct Away {
    pub dist: u32,
}

impl CellValue for Away {
    ghost use Rattle.std.specs.Prelude.{refl};
    ghost use Rattle.libclearmap.specs.Costs.{no_distance, says_away};

    ghost says = { says_away };

    ghost unset = { no_distance };

    #[inline(always)]
    fn without() -> Self {
        Away { dist: NO_OBSTACLE }
    }

    #[inline(always)]
    fn with(near: Near) -> Self {
        Away { dist: near.dist }
    }

    ghost says_none = { λ distance x y. refl };
}

/// What is needed between two rows of a batch.
pub struct RowDistances {
    pub columns: Columns,
    pub stack: Stack,
}

// Written by hand: a derived drop is proved field by field at each exit of each caller.
impl Drop for RowDistances {
    /// Frees both.
    fn drop(self) {
        let RowDistances {
            columns: _,
            stack: _,
        } = self;
    }
}

impl RowDistances {
    ghost use Rattle.libclearmap.specs.Costs.{IsNextRowOf, no_distance, says_away};

    /// Before the batch's first row. Fails only when out of memory.
    pub fn of(alloc: Global, batch: &Batch<'_>) -> Result<Self, NoMemory>
        ensures { IfOk result (λ rows. IsNextRowOf batch.now rows batch.now.y0) }
    {
        let columns = Columns::of(alloc, batch)?;
        let stack = Stack::new(alloc, batch.columns())?;
        Ok(RowDistances { columns, stack })
    }

    /// Fills a line with the distances of the cells of row `y`, which is the next row.
    pub fn measure<M: Metric>(&mut self, batch: &Batch<'_>, y: u16, line: &mut [Away])
        requires ready { IsNextRowOf batch.now self.old y }
        requires row { y < batch.now.y1 }
        requires line { length line.old ≡ batch.now.bitmap.now.width }
        ensures line { AreRowValues says_away no_distance M.distance batch.now.bitmap.now
            batch.now.edge y batch.now.bitmap.now.width line.new }
        ensures ready { IsNextRowOf batch.now self.new (y + 1) }
    {
        let RowDistances { columns, stack } = self;
        columns.look(batch, y);
        let edge = batch.edge;
        values_from::<M, Away>(&columns.entries, y + edge.shift(), edge, stack, line);
    }
}
