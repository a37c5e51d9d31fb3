//! The nearest obstacles of all cells of a range of rows in a third of the memory: only positions,
//! from which the distances follow.

ghost use Rattle.std.specs.Prelude.{◌≡◌, ◌↔◌, ◌+◌, ◌-◌, ◌*◌, ◌<◌, ◌≤◌, true, IfOk, None};
ghost use Rattle.std.specs.Prelude.{length, slice_index_or, slice_range};
ghost use Rattle.field.specs.Obstacles.{AreMeasured, nears_told, seen_from};
ghost use Rattle.field.specs.Rows.{AreNears};

use crate::obstacle_cell::ObstacleCell;
use crate::strips::Strips;
use column::Batch;
use metric::{Gate, Metric, Near, NoMemory, Workers};
use std::alloc::Global;
use std::marker::{Model, PhantomData};
use std::thread::Threads;

/// The nearest obstacles of the cells of a range of rows by one metric, 4 bytes per cell. Contracts
/// see these obstacles, in row-major order.
#[derive(Debug, Drop)]
pub struct ObstacleTable<M> {
    strips: Strips<Vec<ObstacleCell>>,
    by: PhantomData<M>,
}

impl<M> Model for ObstacleTable<M> {
    ghost use Rattle.std.specs.Prelude.{map};
    ghost use Rattle.field.specs.Obstacles.{HaveRows, Obstacles, in_strips};

    ghost Value = { Obstacles };

    ghost view = { λ t. in_strips t.strips.width t.strips.y0 t.strips.y1 t.strips.height
        (map (λ strip. strip.items) t.strips.all.items) };

    ghost invariant = { λ t. HaveRows t.strips.width t.strips.y0 t.strips.y1 t.strips.height
        (map (λ strip. strip.items) t.strips.all.items) };
}

impl<M: Metric + Sync> ObstacleTable<M> {
    /// The nearest obstacles of the cells of a batch, as `rows` has them, one strip per worker: all
    /// strips have the same number of rows, except the last ones, which may have fewer or none. A
    /// thread per strip enters the gate first, with the strip's number from 1, and then computes
    /// the strip; where a thread can't be started, the calling thread does its work. Fails only
    /// when out of memory.
    pub fn of<G: Gate + Sync, R: Threads + Sync>(
        rt: &R,
        alloc: Global,
        batch: &Batch<'_>,
        workers: Workers,
        gate: &G,
    ) -> Result<Self, NoMemory>
        ensures width { IfOk result (λ table. table.width ≡ batch.now.bitmap.now.width) }
        ensures from { IfOk result (λ table. table.y0 ≡ batch.now.y0) }
        ensures to { IfOk result (λ table. table.y1 ≡ batch.now.y1) }
        ensures rows { IfOk result (λ table. AreNears M.distance batch.now.bitmap.now
            batch.now.edge batch.now.y0 batch.now.y1 (nears_told M.distance table)) }
    {
        let strips = Strips::of::<M, G, R>(rt, alloc, batch, workers, gate)?;
        Ok(ObstacleTable {
            strips,
            by: PhantomData,
        })
    }

    /// The number of cells of a row.
    pub fn width(&self) -> u16
        ensures { result ≡ self.now.width }
    {
        self.strips.width
    }

    /// Whether this is one of its rows.
    pub fn has_row(&self, y: u16) -> bool
        ensures { (result ≡ true) ↔ ((self.now.y0 ≤ y) × (y < self.now.y1)) }
    {
        self.strips.y0 <= y && y < self.strips.y1
    }

    /// The nearest obstacle of cell (`x`, `y`); `None` where there is no obstacle.
    pub fn near(&self, x: u16, y: u16) -> Option<Near>
        requires column { x < self.now.width }
        requires from { self.now.y0 ≤ y }
        requires to { y < self.now.y1 }
        ensures { result ≡ slice_index_or (nears_told M.distance self.now)
            ((y - self.now.y0) * self.now.width + x) None }
    {
        near_from::<M>(x, y, self.strips.line(y)[usize::from(x)])
    }

    /// Fills a line with the nearest obstacles of the cells of row `y`, from the left.
    pub fn fill_row(&self, y: u16, nears: &mut [Option<Near>])
        requires from { self.now.y0 ≤ y }
        requires to { y < self.now.y1 }
        requires width { length nears.old ≡ self.now.width }
        ensures { nears.new ≡ slice_range (nears_told M.distance self.now)
            ((y - self.now.y0) * self.now.width)
            ((y - self.now.y0) * self.now.width + self.now.width) }
    {
        let cells = self.strips.line(y);
        for x in 0..nears.len() {
            nears[x] = near_from::<M>(x as u16, y, cells[x]);
        }
    }

    /// Fills a line with the distances of the cells of row `y` to their nearest obstacles, from the
    /// left; `u32::MAX` where there is no obstacle.
    pub fn fill_distances(&self, y: u16, distances: &mut [u32])
        requires from { self.now.y0 ≤ y }
        requires to { y < self.now.y1 }
        requires width { length distances.old ≡ self.now.width }
        ensures { AreMeasured M.distance
            (slice_range (nears_told M.distance self.now) ((y - self.now.y0) * self.now.width)
            ((y - self.now.y0) * self.now.width + self.now.width)) distances.new }
    {
        let cells = self.strips.line(y);
        for x in 0..distances.len() {
            distances[x] = cells[x].measure::<M>(x as u16, y);
        }
    }
}

/// The obstacle of this entry, or none, seen from cell (`x`, `y`).
#[inline(always)]
fn near_from<M: Metric>(x: u16, y: u16, kept: ObstacleCell) -> Option<Near>
    requires column { x ≤ 4095 }
    requires row { y ≤ 4095 }
    ensures { result ≡ seen_from M.distance x y kept }
{
    let cell = kept.cell()?;
    let (dx, dy) = ((x as i16).abs_diff(cell.x), (y as i16).abs_diff(cell.y));
    Some(Near {
        dist: M::of(dx, dy),
        cell,
    })
}
