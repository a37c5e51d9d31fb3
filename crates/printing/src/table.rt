//! The nearest obstacles of one image's cells by one metric, or their distances alone, computed by
//! workers.

ghost use Rattle.std.specs.Prelude.{◌≡◌, ◌+◌, ◌*◌, ◌<◌, ◌≤◌, true, false, IfOk, length};
ghost use Rattle.std.specs.Prelude.{slice_range};
ghost use Rattle.printing.specs.Putting.{Puts};
ghost use Rattle.printing.specs.RowCells.{IsRowRoom};
ghost use Rattle.printing.specs.Table.{row_line};
ghost use Rattle.printing.specs.Tabled.{IsBelowNone, IsTableOf};

use crate::decimals::Decimals;
use crate::distances::put_distances;
use crate::line::put_row;
use crate::row_cells::RowCells;
use bits::Bitmap;
use field::{Batch, CompactDistances, ObstacleTable, Workers};
use metric::{Edge, Gate, Metric, NoMemory};
use std::alloc::Global;
use std::marker::Model;
use std::thread::Threads;

/// What is kept of all cells.
#[derive(Drop)]
enum Kept<M: Metric> {
    /// Their nearest obstacles, in four bytes per cell.
    Obstacles(ObstacleTable<M>),
    /// Their distances alone, in two bytes per cell of a row where all are short, otherwise four.
    Distances(CompactDistances),
}

/// The nearest obstacles of all cells by one metric, or else their distances. Contracts see its
/// size, whether it has obstacles, and what each cell has, in row-major order: with distances
/// alone, an obstacle this far away whose spot means nothing.
pub struct Table<M: Metric> {
    width: u16,
    height: u16,
    kept: Kept<M>,
}

// Written by hand: a derived drop is proved field by field at each exit of each caller.
impl<M: Metric> Drop for Table<M> {
    /// Frees what is kept of all cells.
    fn drop(self) {
        let Table {
            width: _,
            height: _,
            kept: _,
        } = self;
    }
}

impl<M: Metric> Model for Table<M> {
    ghost use Rattle.std.specs.Prelude.{Bool, List, Option, true, false};
    ghost use Rattle.metric.specs.declared.near.Near.{Near};
    ghost use Rattle.field.specs.Obstacles.{nears_told};
    ghost use Rattle.printing.specs.declared.table.Kept.TheVariants.{Obstacles, Distances};
    ghost use Rattle.printing.specs.Tabled.{HasAllNumbers, HasAllRows, TableView, some_nears};

    ghost Value = { TableView };

    ghost view = { λ t. record {
      width = t.width;
      height = t.height;
      nearest = elim t.kept as (λ _. Bool) [
        | Obstacles table ↦ true
        | Distances table ↦ false
      ];
      nears = elim t.kept as (λ _. List (Option Near)) [
        | Obstacles table ↦ nears_told M.distance table
        | Distances table ↦ some_nears t.width t.height table
      ];
    } };

    ghost invariant = { λ t. elim t.kept as (λ _. Type 0) [
      | Obstacles table ↦ HasAllRows M.distance t.width t.height table
      | Distances table ↦ HasAllNumbers t.width t.height table
    ] };
}

impl<M: Metric + Sync> Table<M> {
    /// The nearest obstacles of the cells of this bitmap with this edge, if asked for, or else
    /// their distances, computed by this many workers, or by one if there are few cells.
    pub fn of<T: Threads + Sync>(
        rt: &T,
        alloc: Global,
        bitmap: &Bitmap,
        edge: Edge,
        nearest: bool,
        workers: Workers,
    ) -> Result<Self, NoMemory>
        requires below { IsBelowNone M.distance }
        ensures table { IfOk result (IsTableOf M.distance edge bitmap.now) }
        ensures nearest { IfOk result (λ table. table.nearest ≡ nearest) }
    {
        let (width, height) = (bitmap.width(), bitmap.height());
        let workers = if is_large(width, height) {
            workers
        } else {
            Workers { count: 1 }
        };
        let batch = Batch {
            bitmap,
            edge,
            y0: 0,
            y1: height,
        };
        if nearest {
            let obstacles = ObstacleTable::<M>::of(rt, alloc, &batch, workers, &Passing)?;
            return Ok(Table {
                width,
                height,
                kept: Kept::Obstacles(obstacles),
            });
        }
        let distances = CompactDistances::of::<M, Passing, T>(
            rt, alloc, &batch, workers, &Passing,
        )?;
        Ok(Table {
            width,
            height,
            kept: Kept::Distances(distances),
        })
    }

    /// The number of cells of a row.
    pub fn width(&self) -> u16
        ensures { result ≡ self.now.width }
    {
        self.width
    }

    /// The number of rows.
    pub fn height(&self) -> u16
        ensures { result ≡ self.now.height }
    {
        self.height
    }

    /// Writes the line of row `y` to `text` from `at` on, with obstacles if the table has them, and
    /// returns where it ends. `row` is filled with the row's cells.
    pub fn put_line(
        &self,
        decimals: &Decimals,
        y: u16,
        row: &mut RowCells,
        text: &mut [u8],
        at: usize,
    ) -> usize
        requires row { y < self.now.height }
        requires cells { IsRowRoom self.now.nearest self.now.width row.old }
        requires room { at + (25 * self.now.width + 3) ≤ length text.old }
        ensures line { Puts text.old at (row_line self.now.nearest (slice_range self.now.nears
            (y * self.now.width) (y * self.now.width + self.now.width))) text.new result }
        ensures end { result ≤ at + (25 * self.now.width + 1) }
        ensures cells { IsRowRoom self.now.nearest self.now.width row.new }
    {
        match &self.kept {
            Kept::Obstacles(table) => {
                let nears = row.nears.as_mut_slice();
                table.fill_row(y, nears);
                put_row(decimals, text, at, nears)
            }
            Kept::Distances(table) => {
                let distances = row.distances.as_mut_slice();
                table.fill_row(y, distances);
                put_distances(decimals, text, at, distances)
            }
        }
    }

    /// How many threads do the work of this many workers: as many if the table is large, one if it
    /// has fewer than 2^22 cells.
    pub fn threads(&self, workers: usize) -> usize
        requires { 1 ≤ workers }
        ensures { 1 ≤ result }
    {
        if is_large(self.width, self.height) {
            return workers;
        }
        1
    }

    /// Rows that each worker writes per batch: 16 if one thread does the work; otherwise as many as
    /// give all of them about 2^21 cells, or half of that with obstacles, but at most their share
    /// of the map and at least 16.
    pub fn rows_at_a_time(&self, workers: u8, nearest: bool) -> u32
        requires { 1 ≤ workers }
        ensures some { 1 ≤ result }
        ensures few { result ≤ 4096 }
    {
        if self.threads(usize::from(workers)) == 1 {
            return FEW_ROWS;
        }
        let cells = if nearest { BATCH / 2 } else { BATCH };
        let workers = u32::from(workers);
        let across = u32::from(self.width) * workers;
        let most = u32::from(self.height).div_ceil(workers);
        (cells / across.max(1)).min(most).clamp(FEW_ROWS, 4096)
    }
}

/// Rows a thread writes per batch when it is the only one, so that their lines stay in cache.
const FEW_ROWS: u32 = 16;

/// Cells whose lines all workers write per batch, about.
const BATCH: u32 = 1 << 21;

/// The fewest cells of a map whose rows several threads share. On a smaller map, starting threads,
/// and waiting for the last one on a busy machine, takes longer than it saves.
const LARGE: u32 = 1 << 22;

/// Whether a map of this size has enough cells for threads to share its rows.
fn is_large(width: u16, height: u16) -> bool {
    u32::from(width) * u32::from(height) >= LARGE
}

/// A gate that each worker passes at once.
struct Passing;

impl Gate for Passing {
    fn enter(&self, _band: u8) {}
}
