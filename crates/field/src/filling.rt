//! The answers of all cells of a range of rows, or the distances alone, written to the caller's
//! memory.

ghost use Rattle.std.specs.Prelude.{◌≡◌, IfErr, OnOk};
ghost use Rattle.bits.specs.Cells.{IsBitmap};
ghost use Rattle.field.specs.Bands.{AreAnswers, AreValues, HasRoom};
ghost use Rattle.field.specs.Distances.{AreMeasuredRows};

use crate::phases::Phases;
use column::Batch;
use envelope::{CellAnswer, CellValue};
use metric::{Metric, NoMemory};
use std::alloc::Global;

/// Fills `answers` with those of the cells of a batch, in row-major order.
///
/// Fails only when out of memory, before it writes anything.
pub fn fill<M: Metric, A: CellAnswer>(
    alloc: Global,
    batch: &Batch<'_>,
    answers: &mut [A],
) -> Result<(), NoMemory>
    requires room { HasRoom batch.now.bitmap.now batch.now.y0 batch.now.y1 answers.old }
    ensures rows { OnOk result (AreAnswers A.told A.nothing M.distance batch.now.bitmap.now
        batch.now.edge batch.now.y0 batch.now.y1 answers.new) }
    ensures kept { IfErr result (λ _. answers.new ≡ answers.old) }
{
    fill_values::<M, A>(alloc, batch, answers)
}

/// Fills `distances` with those of the cells of a batch to their nearest obstacles, in
/// row-major order; `u32::MAX` where there is no obstacle.
///
/// Fails only when out of memory, before it writes anything.
pub fn measure<M: Metric>(
    alloc: Global,
    batch: &Batch<'_>,
    distances: &mut [u32],
) -> Result<(), NoMemory>
    requires room { HasRoom batch.now.bitmap.now batch.now.y0 batch.now.y1 distances.old }
    ensures rows { OnOk result (AreMeasuredRows M.distance batch.now.bitmap.now batch.now.edge
        batch.now.y0 batch.now.y1 distances.new) }
    ensures kept { IfErr result (λ _. distances.new ≡ distances.old) }
{
    fill_values::<M, u32>(alloc, batch, distances)
}

/// Fills the rows of the batch in order. Fails only when out of memory, before it writes anything.
fn fill_values<M: Metric, V: CellValue>(
    alloc: Global,
    batch: &Batch<'_>,
    values: &mut [V],
) -> Result<(), NoMemory>
    requires room { HasRoom batch.now.bitmap.now batch.now.y0 batch.now.y1 values.old }
    ensures rows { OnOk result (AreValues V.says V.unset M.distance batch.now.bitmap.now
        batch.now.edge batch.now.y0 batch.now.y1 values.new) }
    ensures kept { IfErr result (λ _. values.new ≡ values.old) }
    ensures bitmap { IsBitmap batch.now.bitmap.now }
{
    let width = batch.width();
    let mut phases = Phases::of(alloc, batch)?;
    'rows: for y in batch.y0..batch.y1 {
        let start = usize::from(y - batch.y0) * width;
        phases.fill_line::<M, V>(batch, y, &mut values[start..start + width]);
    }
    Ok(())
}
