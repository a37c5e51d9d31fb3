//! The nearest obstacles of all cells of a range of rows, in order, or what is kept of them.

ghost use Rattle.std.specs.Prelude.{◌≡◌, IfOk};
ghost use Rattle.field.specs.Bands.{AreValues};
ghost use Rattle.field.specs.Rows.{AreNears};

use crate::phases::Phases;
use column::Batch;
use envelope::CellValue;
use metric::{Metric, Near, NoMemory};
use std::alloc::Global;

/// The nearest obstacles of the cells of a batch, in row-major order.
///
/// Ties go to the obstacle of the least column; among those to the one in the fewest rows away, and
/// of two such to the upper one. With a wall, the cells of the frame around the map are obstacles
/// too. A cell has `None` where there is no obstacle. Fails only when out of memory.
pub fn rows<M: Metric>(alloc: Global, batch: &Batch<'_>) -> Result<Vec<Option<Near>>, NoMemory>
    ensures { IfOk result (λ nears. AreNears M.distance batch.now.bitmap.now batch.now.edge
        batch.now.y0 batch.now.y1 nears.items) }
{
    values::<M, Option<Near>>(alloc, batch)
}

/// The values of the cells of a batch, in row-major order. No memory is touched before its row
/// comes. Fails only when out of memory.
pub fn values<M: Metric, V: CellValue>(alloc: Global, batch: &Batch<'_>) -> Result<Vec<V>, NoMemory>
    ensures { IfOk result (λ values. AreValues V.says V.unset M.distance batch.now.bitmap.now
        batch.now.edge batch.now.y0 batch.now.y1 values.items) }
{
    let width = batch.width();
    let mut phases = Phases::of(alloc, batch)?;
    let mut values = Vec::with_capacity(alloc, usize::from(batch.y1 - batch.y0) * width)?;
    'rows: for y in batch.y0..batch.y1 {
        let start = values.len();
        values.resize(start + width, V::without())?;
        phases.fill_line::<M, V>(batch, y, &mut values.as_mut_slice()[start..]);
    }
    Ok(values)
}
