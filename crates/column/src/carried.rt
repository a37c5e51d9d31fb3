//! Lines carried from row to row of a batch.
//!
//! Rows are read in bands of 64. The line of the obstacles before a row is carried from row to row.
//! The lines below the rows are known for one band, and the line below each band from one pass up
//! the batch.

ghost use Rattle.std.specs.Prelude.{◌≡◌, ◌+◌, ◌*◌, ◌<◌, IfOk, length, replicate};
ghost use Rattle.metric.specs.Edge.{shift};
ghost use Rattle.bits.specs.Cells.{IsBitmap};
ghost use Rattle.bits.specs.Edges.{framed};
ghost use Rattle.column.specs.Columns.{IsRowOfTable};

use crate::NONE;
use crate::batch::Batch;
use crate::lines::{BAND, fill_band, next_row, seek_bands};
use metric::NoMemory;
use std::alloc::Global;

/// What is known of the columns of a batch between two of its rows.
#[derive(Drop)]
pub struct Carried {
    /// The first row of the current band, and the row after its last one.
    pub first: u16,
    pub known: u16,
    /// The obstacles before the next row.
    pub before: Vec<u16>,
    /// The obstacles below each row of the current band.
    pub behind: Vec<u16>,
    /// The obstacles below each band.
    pub bands: Vec<u16>,
    /// A buffer for a line.
    pub line: Vec<u16>,
}

impl Carried {
    ghost use Rattle.column.specs.Carrying.{IsCarriedTo};

    /// The lines at the first row of the batch. Fails only when out of memory.
    pub fn of(alloc: Global, batch: &Batch<'_>) -> Result<Self, NoMemory>
        ensures { IfOk result (λ carried. IsCarriedTo batch.now carried batch.now.y0) }
    {
        let width = batch.width();
        let count = usize::from((batch.y1 - batch.y0).div_ceil(BAND));
        let mut before = no_obstacles(alloc, width)?;
        let mut line = no_obstacles(alloc, width)?;
        let mut bands = no_obstacles(alloc, count * width)?;
        let behind = no_obstacles(alloc, usize::from(BAND) * width)?;
        seek_bands(
            batch,
            before.as_mut_slice(),
            line.as_mut_slice(),
            bands.as_mut_slice(),
        );
        Ok(Carried {
            first: batch.y0,
            known: batch.y0,
            before,
            behind,
            bands,
            line,
        })
    }

    /// Reads row `y`, which is the next: the entries are then the row of a table of the bitmap.
    pub fn look(&mut self, batch: &Batch<'_>, y: u16, entries: &mut [u16])
        requires bitmap { IsBitmap batch.now.bitmap.now }
        requires ready { IsCarriedTo batch.now self.old y }
        requires row { y < batch.now.y1 }
        requires width { length entries.old
            ≡ batch.now.bitmap.now.width + 2 * shift batch.now.edge }
        ensures ready { IsCarriedTo batch.now self.new (y + 1) }
        ensures entries { IsRowOfTable (framed batch.now.edge batch.now.bitmap.now)
            (y + shift batch.now.edge) entries.new }
    {
        self.reach(batch, y);
        let width = batch.width();
        let start = usize::from(y - self.first) * width;
        next_row(
            batch.bitmap,
            batch.edge,
            y,
            self.before.as_mut_slice(),
            &self.behind[start..start + width],
            entries,
        );
    }

    /// Starts the next band if row `y` lies after the current one.
    fn reach(&mut self, batch: &Batch<'_>, y: u16)
        requires bitmap { IsBitmap batch.now.bitmap.now }
        requires ready { IsCarriedTo batch.now self.old y }
        requires row { y < batch.now.y1 }
        ensures ready { IsCarriedTo batch.now self.new y }
        ensures inside { y < self.new.known }
    {
        if y < self.known {
            return;
        }
        let width = batch.width();
        let start = usize::from((y - batch.y0) / BAND) * width;
        let end = batch.y1.min(y + BAND);
        let band = Batch::new(batch.bitmap, batch.edge, y, end);
        fill_band(
            &band,
            &self.bands[start..start + width],
            self.line.as_mut_slice(),
            self.behind.as_mut_slice(),
        );
        self.first = y;
        self.known = end;
    }
}

/// This many entries for no obstacle. Fails only when out of memory.
pub fn no_obstacles(alloc: Global, count: usize) -> Result<Vec<u16>, NoMemory>
    ensures { IfOk result (λ entries. entries.items ≡ replicate count 65535) }
{
    Ok(vec![in alloc; NONE; count]?)
}
