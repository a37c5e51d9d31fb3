//! The distances of all cells of a range of rows, in order, in two bytes each where they are short.

ghost use Rattle.std.specs.Prelude.{◌≡◌, [], OnOk, length};
ghost use Rattle.field.specs.Compact.{KeepsDistances, HasLines};
ghost use Rattle.field.specs.Phases.{IsNextLine};

use crate::compact_strip::CompactStrip;
use crate::phases::Phases;
use crate::strips::Strip;
use column::Batch;
use metric::{Metric, NoMemory};
use std::alloc::Global;

/// The distances of all cells.
impl Strip for CompactStrip {
    ghost holds = { KeepsDistances };

    fn of<M: Metric>(alloc: Global, batch: &Batch<'_>) -> Result<Self, NoMemory> {
        let width = batch.width();
        let mut phases = Phases::of(alloc, batch)?;
        let mut line = vec![in alloc; 0; width]?;
        let mut halves = vec![in alloc; 0; width]?;
        let mut strip = CompactStrip::new(alloc, width, batch.y1 - batch.y0)?;
        let (row, own) = (line.as_mut_slice(), halves.as_mut_slice());
        push_rows::<M>(batch, &mut phases, row, own, &mut strip)?;
        Ok(strip)
    }
}

/// Appends the rows of the batch in order. `line` and `halves` are buffers for a row.
fn push_rows<M: Metric>(
    batch: &Batch<'_>,
    phases: &mut Phases,
    line: &mut [u32],
    halves: &mut [u16],
    strip: &mut CompactStrip,
) -> Result<(), NoMemory>
    requires phases { IsNextLine batch.now phases.old batch.now.y0 }
    requires line { length line.old ≡ batch.now.bitmap.now.width }
    requires halves { length halves.old ≡ batch.now.bitmap.now.width }
    requires lines { HasLines batch.now.bitmap.now.width strip.old }
    requires empty { strip.old.starts.items ≡ [] }
    ensures { OnOk result (KeepsDistances M.distance batch.now.bitmap.now batch.now.edge
        batch.now.y0 batch.now.y1 strip.new) }
{
    'rows: for y in batch.y0..batch.y1 {
        phases.fill_line::<M, u32>(batch, y, line);
        strip.push_row(line, halves, batch.y1 - y)?;
    }
    Ok(())
}
