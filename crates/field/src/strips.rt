//! What is kept of a range of rows in strips of equal height, each computed by a thread of its own
//! into memory of its own.

ghost use Rattle.std.specs.Prelude.{◌≡◌, ℕ, ◌+◌, ◌-◌, ◌/◌, ◌%◌, ◌<◌, ◌≤◌, IfOk, Ok};
ghost use Rattle.std.specs.Prelude.{length, map, slice_index_or};
ghost use Rattle.metric.specs.declared.edge.Edge.{Edge};
ghost use Rattle.bits.specs.Cells.{Cells};
ghost use Rattle.field.specs.Bands.{AreValues};
ghost use Rattle.field.specs.Strips.{AreStrips, HoldRows, IsStripOf, line_in, strip_row};

use crate::table::values;
use column::Batch;
use envelope::CellValue;
use metric::{Gate, Metric, NoMemory, Workers};
use std::alloc::Global;
use std::thread::{Threads, map_indices};

/// What is kept of the rows of one strip.
pub trait Strip: Drop + Send + Sized {
    /// This is kept of rows `from` to `to - 1` of a map with its edge, by a metric's distance.
    ghost holds: { (ℕ → ℕ → ℕ) → Cells → Edge → ℕ → ℕ → Self → Type 0 };

    /// What is kept of the rows of a batch. Fails only when out of memory.
    fn of<M: Metric>(alloc: Global, batch: &Batch<'_>) -> Result<Self, NoMemory>
        ensures { IfOk result (holds M.distance batch.now.bitmap.now batch.now.edge
            batch.now.y0 batch.now.y1) };
}

/// The values of all cells.
impl<V: CellValue + Send> Strip for Vec<V> {
    ghost holds = { λ distance cells edge from to strip.
        AreValues V.says V.unset distance cells edge from to strip.items };

    fn of<M: Metric>(alloc: Global, batch: &Batch<'_>) -> Result<Self, NoMemory> {
        values::<M, V>(alloc, batch)
    }
}

/// What is kept of rows `y0` to `y1 - 1` of this width.
#[derive(Debug, Drop)]
pub struct Strips<S> {
    pub width: u16,
    pub y0: u16,
    pub y1: u16,
    /// The rows of a strip; the last strips may have fewer, or none.
    pub height: u16,
    pub all: Vec<S>,
}

impl<S: Strip> Strips<S> {
    /// What is kept of the rows of a batch, one strip per worker, each computed in a thread of its
    /// own where one can be started. Fails only when out of memory.
    pub fn of<M: Metric + Sync, G: Gate + Sync, R: Threads + Sync>(
        rt: &R,
        alloc: Global,
        batch: &Batch<'_>,
        workers: Workers,
        gate: &G,
    ) -> Result<Self, NoMemory>
        ensures width { IfOk result (λ strips. strips.width ≡ batch.now.bitmap.now.width) }
        ensures from { IfOk result (λ strips. strips.y0 ≡ batch.now.y0) }
        ensures to { IfOk result (λ strips. strips.y1 ≡ batch.now.y1) }
        ensures rows { IfOk result (λ strips. HoldRows S.holds M.distance batch.now strips.height
            strips.all.items) }
    {
        let (y0, y1, count) = (batch.y0, batch.y1, workers.count);
        let height = (y1 - y0).div_ceil(u16::from(count)).max(1);
        let parts = Parts { batch, height };
        let work = |strip: usize| -> Result<S, NoMemory>
            requires { strip < 16 }
            ensures { IfOk result (IsStripOf S.holds M.distance parts.entry.batch.now
                parts.entry.height strip) }
        {
            gate.enter(strip as u8 + 1);
            S::of::<M>(alloc, &parts.rows_of(strip as u8))
        };
        let found = map_indices(rt, alloc, usize::from(count), &work)?;
        let all = gather(alloc, found)?;
        Ok(Strips {
            width: batch.bitmap.width(),
            y0,
            y1,
            height,
            all,
        })
    }
}

impl<S> Strips<S> {
    /// The strip that has row `y`, and the row's number in it, counted from 0.
    pub fn strip_of(&self, y: u16) -> (&S, usize)
        requires from { self.now.y0 ≤ y }
        requires some { 1 ≤ self.now.height }
        requires inside { (y - self.now.y0) / self.now.height < length self.now.all.items }
        ensures strip { result.0.now ≡ slice_index_or self.now.all.items
            ((y - self.now.y0) / self.now.height) result.0.now }
        ensures row { result.1 ≡ (y - self.now.y0) % self.now.height }
    {
        let row = y - self.y0;
        let strip = &self.all[usize::from(row / self.height)];
        (strip, usize::from(row % self.height))
    }
}

impl<V: Copy> Strips<Vec<V>> {
    /// What is kept of the cells of row `y`.
    pub fn line(&self, y: u16) -> &[V]
        requires from { self.now.y0 ≤ y }
        requires to { y < self.now.y1 }
        requires strips { AreStrips self.now.width self.now.height (self.now.y1 - self.now.y0)
            (map (λ strip. strip.items) self.now.all.items) }
        ensures len { length result.now ≡ self.now.width }
        ensures line { result.now ≡ line_in self.now.width self.now.height
            (map (λ strip. strip.items) self.now.all.items) (y - self.now.y0) }
    {
        let width = usize::from(self.width);
        let (strip, row) = self.strip_of(y);
        &strip[row * width..row * width + width]
    }
}

/// The rows of a batch in strips of equal height; the last strips may have fewer, or none.
#[derive(Drop)]
struct Parts<'a> {
    batch: &'a Batch<'a>,
    height: u16,
}

impl<'a> Parts<'a> {
    /// The rows of a strip, counted from 0.
    fn rows_of(&self, strip: u8) -> Batch<'a>
        requires { strip < 16 }
        ensures bitmap { result.bitmap.now ≡ self.now.batch.now.bitmap.now }
        ensures edge { result.edge ≡ self.now.batch.now.edge }
        ensures from { result.y0 ≡ strip_row self.now.batch.now self.now.height strip }
        ensures to { result.y1 ≡ strip_row self.now.batch.now self.now.height (strip + 1) }
    {
        let (y0, y1) = (self.first_row(strip), self.first_row(strip + 1));
        Batch::new(self.batch.bitmap, self.batch.edge, y0, y1)
    }

    /// The first row of a strip, counted from 0; the row after the last one if the strip has none.
    fn first_row(&self, strip: u8) -> u16
        requires { strip ≤ 16 }
        ensures row { result ≡ strip_row self.now.batch.now self.now.height strip }
        ensures within { result ≤ self.now.batch.now.y1 }
    {
        let rows = u32::from(self.batch.y1 - self.batch.y0);
        let above = rows.min(u32::from(strip) * u32::from(self.height));
        self.batch.y0 + above as u16
    }
}

/// The results of all strips. Fails if one of them failed, or when out of memory.
fn gather<T: Drop>(alloc: Global, found: Vec<Result<T, NoMemory>>) -> Result<Vec<T>, NoMemory>
    ensures { IfOk result (λ strips. found.items ≡ map (λ strip. Ok strip) strips.items) }
{
    let mut strips = Vec::with_capacity(alloc, found.len())?;
    'strips: for cells in found {
        strips.push_reserved(cells?);
    }
    Ok(strips)
}
