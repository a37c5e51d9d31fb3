//! The distances of all cells of a range of rows, in two bytes per cell where they are short.

ghost use Rattle.std.specs.Prelude.{◌≡◌, ◌↔◌, ℕ, ◌<◌, ◌≤◌, true, IfOk};
ghost use Rattle.std.specs.Prelude.{length, slice_index};
ghost use Rattle.bits.specs.Edges.{IsBlocked};
ghost use Rattle.field.specs.Distances.{IsFarAway, number_at};

use crate::compact_strip::CompactStrip;
use crate::strips::Strips;
use column::Batch;
use metric::{Gate, Metric, NoMemory, Workers};
use std::alloc::Global;
use std::marker::Model;
use std::thread::Threads;

/// The distances of the cells of a range of rows to their nearest obstacles, in strips: 2 bytes per
/// cell in rows with no distance over 65,534, otherwise 4. Contracts see the strips.
///
/// It has what a `DistanceTable` has, in half the memory where rows are short; a row is read by
/// copying it.
#[derive(Debug, Drop)]
pub struct CompactDistances {
    strips: Strips<CompactStrip>,
}

impl Model for CompactDistances {
    ghost use Rattle.std.specs.Prelude.{map};
    ghost use Rattle.field.specs.Compact.{AreCompact, numbers_in};
    ghost use Rattle.field.specs.Distances.{Distances, HaveNumbers, distances_in};

    ghost Value = { Distances };

    ghost view = { λ t. distances_in t.strips.width t.strips.y0 t.strips.y1 t.strips.height
        (map (numbers_in t.strips.width) t.strips.all.items) };

    ghost invariant = { λ t. HaveNumbers (distances_in t.strips.width t.strips.y0 t.strips.y1
        t.strips.height (map (numbers_in t.strips.width) t.strips.all.items))
        × AreCompact t.strips.width t.strips.all.items };
}

impl CompactDistances {
    /// The distances of the cells of a batch, as `measure` has them, one strip per worker, computed
    /// as the strips of an `ObstacleTable` are. Fails only when out of memory.
    pub fn of<M: Metric + Sync, G: Gate + Sync, R: Threads + Sync>(
        rt: &R,
        alloc: Global,
        batch: &Batch<'_>,
        workers: Workers,
        gate: &G,
    ) -> Result<Self, NoMemory>
        ensures width { IfOk result (λ table. table.width ≡ batch.now.bitmap.now.width) }
        ensures from { IfOk result (λ table. table.y0 ≡ batch.now.y0) }
        ensures to { IfOk result (λ table. table.y1 ≡ batch.now.y1) }
        ensures rows { IfOk result (λ table. (x y : ℕ) → x < batch.now.bitmap.now.width
            → batch.now.y0 ≤ y → y < batch.now.y1
            → IsFarAway M.distance (IsBlocked batch.now.bitmap.now batch.now.edge) x y
            (number_at table x y)) }
    {
        let strips = Strips::of::<M, G, R>(rt, alloc, batch, workers, gate)?;
        Ok(CompactDistances { strips })
    }

    /// The number of cells of a row.
    pub fn width(&self) -> u16
        ensures { result ≡ self.now.width }
    {
        self.strips.width
    }

    /// Whether this is one of its rows.
    pub fn has_row(&self, y: u16) -> bool
        ensures { (result ≡ true) ↔ ((self.now.y0 ≤ y) × (y < self.now.y1)) }
    {
        self.strips.y0 <= y && y < self.strips.y1
    }

    /// Fills a line with the distances of the cells of row `y`, from the left; `u32::MAX` where
    /// there is no obstacle.
    pub fn fill_row(&self, y: u16, distances: &mut [u32])
        requires from { self.now.y0 ≤ y }
        requires to { y < self.now.y1 }
        requires width { length distances.old ≡ self.now.width }
        ensures len { length distances.new ≡ self.now.width }
        ensures each { (x : ℕ) → x < self.now.width
            → slice_index distances.new x ≡ number_at self.now x y }
    {
        let (strip, row) = self.strips.strip_of(y);
        strip.fill_row(row, distances);
    }
}
