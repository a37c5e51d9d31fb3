//! The distances of all cells of a range of rows, without the obstacles.

ghost use Rattle.std.specs.Prelude.{◌≡◌, ◌↔◌, ℕ, ◌<◌, ◌≤◌, true, IfOk};
ghost use Rattle.std.specs.Prelude.{length, slice_index};
ghost use Rattle.bits.specs.Edges.{IsBlocked};
ghost use Rattle.field.specs.Distances.{IsFarAway, number_at};

use crate::strips::Strips;
use column::Batch;
use metric::{Gate, Metric, NoMemory, Workers};
use std::alloc::Global;
use std::marker::Model;
use std::thread::Threads;

/// The distances of the cells of a range of rows to their nearest obstacles, 4 bytes per cell, in
/// strips. Contracts see the strips.
///
/// It takes less time to make than an `ObstacleTable`, from whose obstacles distances follow.
#[derive(Debug, Drop)]
pub struct DistanceTable {
    strips: Strips<Vec<u32>>,
}

impl Model for DistanceTable {
    ghost use Rattle.std.specs.Prelude.{map};
    ghost use Rattle.field.specs.Distances.{Distances, HaveNumbers, distances_in};

    ghost Value = { Distances };

    ghost view = { λ t. distances_in t.strips.width t.strips.y0 t.strips.y1 t.strips.height
        (map (λ strip. strip.items) t.strips.all.items) };

    ghost invariant = { λ t. HaveNumbers (distances_in t.strips.width t.strips.y0 t.strips.y1
        t.strips.height (map (λ strip. strip.items) t.strips.all.items)) };
}

impl DistanceTable {
    /// The distances of the cells of a batch, as `measure` has them, one strip per worker, computed
    /// as the strips of an `ObstacleTable` are. Fails only when out of memory.
    pub fn of<M: Metric + Sync, G: Gate + Sync, R: Threads + Sync>(
        rt: &R,
        alloc: Global,
        batch: &Batch<'_>,
        workers: Workers,
        gate: &G,
    ) -> Result<Self, NoMemory>
        ensures width { IfOk result (λ table. table.width ≡ batch.now.bitmap.now.width) }
        ensures from { IfOk result (λ table. table.y0 ≡ batch.now.y0) }
        ensures to { IfOk result (λ table. table.y1 ≡ batch.now.y1) }
        ensures rows { IfOk result (λ table. (x y : ℕ) → x < batch.now.bitmap.now.width
            → batch.now.y0 ≤ y → y < batch.now.y1
            → IsFarAway M.distance (IsBlocked batch.now.bitmap.now batch.now.edge) x y
            (number_at table x y)) }
    {
        let strips = Strips::of::<M, G, R>(rt, alloc, batch, workers, gate)?;
        Ok(DistanceTable { strips })
    }

    /// The number of cells of a row.
    pub fn width(&self) -> u16
        ensures { result ≡ self.now.width }
    {
        self.strips.width
    }

    /// Whether this is one of its rows.
    pub fn has_row(&self, y: u16) -> bool
        ensures { (result ≡ true) ↔ ((self.now.y0 ≤ y) × (y < self.now.y1)) }
    {
        self.strips.y0 <= y && y < self.strips.y1
    }

    /// The distances of the cells of row `y`, from the left; `u32::MAX` where there is no obstacle.
    pub fn row(&self, y: u16) -> &[u32]
        requires from { self.now.y0 ≤ y }
        requires to { y < self.now.y1 }
        ensures len { length result.now ≡ self.now.width }
        ensures each { (x : ℕ) → x < self.now.width
            → slice_index result.now x ≡ number_at self.now x y }
    {
        self.strips.line(y)
    }
}
