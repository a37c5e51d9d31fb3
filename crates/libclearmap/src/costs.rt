//! The costs of all cells of a range of rows, by a table of what each distance costs.

ghost use Rattle.std.specs.Prelude.{◌≡◌, ◌≢◌, ℕ, ◌+◌, ◌-◌, ◌*◌, ◌<◌, ◌≤◌, length, min, slice_index};
ghost use Rattle.std.specs.Prelude.{slice_index_or, take, IfErr, OnOk};
ghost use Rattle.metric.specs.Kind.{distance_of};
ghost use Rattle.bits.specs.Cells.{IsBitmap};
ghost use Rattle.field.specs.Bands.{HasRoom};
ghost use Rattle.libclearmap.specs.Costs.{AreCosts, ArePriced, IsNextRowOf, cost_of};
ghost use Rattle.libclearmap.specs.Costs.{no_distance};
ghost use Rattle.libclearmap.specs.Kept.{distance_kept};
ghost use Rattle.libclearmap.specs.Settings.{distance_numbered, edge_numbered};
ghost use Rattle.libclearmap.specs.Statuses.{IsStatus, costs_status, first_wrong};

use crate::near::NO_OBSTACLE;
use crate::row_distances::{Away, RowDistances};
use crate::setting::{Setting, edge_of, kind_of};
use crate::status::{COSTS, DONE, check_setting, no_memory};
use crate::tables::map_of;
use clearance::Rows;
use envelope::CellValue;
use field::Batch;
use metric::{Chess, City, Euclid2, Metric, MetricKind, NoMemory};
use std::alloc::Global;
use std::ops::Range;

/// Writes the costs of the cells of these rows to the front of the output.
pub fn costs_in<R: Rows>(
    alloc: Global,
    rows: &mut R,
    setting: Setting,
    table: &[u8],
    asked: Range<u32>,
    costs: &mut [u8],
) -> u32
    ensures rows { result ≡ DONE → AreCosts table.now (distance_numbered setting.metric)
        (R.cells rows.old) (edge_numbered setting.edge) asked.start asked.end
        (take ((asked.end - asked.start) * (R.cells rows.old).width) costs.new) }
    ensures rest { (k : ℕ) → (asked.end - asked.start) * (R.cells rows.old).width ≤ k
        → slice_index costs.new k ≡ slice_index costs.old k }
    ensures status { IsStatus (first_wrong (costs_status (R.cells rows.old) setting.metric
        setting.edge (length table.now) asked.start asked.end (length costs.old)) setting.range)
        result }
    ensures refused { result ≢ DONE → costs.new ≡ costs.old }
{
    if let Err(status) = check_setting(setting.metric, setting.edge) {
        return status;
    }
    if table.is_empty() {
        return COSTS;
    }
    let bitmap = match map_of(alloc, rows, setting, &asked, costs.len()) {
        Ok(bitmap) => bitmap,
        Err(status) => return status,
    };
    let count = (asked.end - asked.start) as usize * usize::from(bitmap.width());
    let batch = Batch {
        bitmap: &bitmap,
        edge: edge_of(setting.edge),
        y0: asked.start as u16,
        y1: asked.end as u16,
    };
    match fill_by(
        alloc,
        kind_of(setting.metric),
        &batch,
        table,
        &mut costs[..count],
    ) {
        Ok(()) => DONE,
        Err(refused) => no_memory(refused),
    }
}

/// Fills `costs` with those of the cells of a batch, by this metric.
///
/// Fails only when out of memory, before it writes anything.
fn fill_by(
    alloc: Global,
    kind: MetricKind,
    batch: &Batch<'_>,
    table: &[u8],
    costs: &mut [u8],
) -> Result<(), NoMemory>
    requires some { 1 ≤ length table.now }
    requires room { HasRoom batch.now.bitmap.now batch.now.y0 batch.now.y1 costs.old }
    ensures rows { OnOk result (AreCosts table.now (distance_of kind) batch.now.bitmap.now
        batch.now.edge batch.now.y0 batch.now.y1 costs.new) }
    ensures kept { IfErr result (λ _. costs.new ≡ costs.old) }
{
    match kind {
        MetricKind::Euclid2 => fill::<Euclid2>(alloc, batch, table, costs),
        MetricKind::City => fill::<City>(alloc, batch, table, costs),
        MetricKind::Chess => fill::<Chess>(alloc, batch, table, costs),
    }
}

/// Fills `costs` with those of the cells of a batch, row by row.
///
/// Fails only when out of memory, before it writes anything.
fn fill<M: Metric>(
    alloc: Global,
    batch: &Batch<'_>,
    table: &[u8],
    costs: &mut [u8],
) -> Result<(), NoMemory>
    requires some { 1 ≤ length table.now }
    requires room { HasRoom batch.now.bitmap.now batch.now.y0 batch.now.y1 costs.old }
    ensures rows { OnOk result (ArePriced table.now M.distance batch.now.bitmap.now
        batch.now.edge batch.now.y0 batch.now.y1 costs.new) }
    ensures kept { IfErr result (λ _. costs.new ≡ costs.old) }
    ensures bitmap { IsBitmap batch.now.bitmap.now }
{
    let width = batch.width();
    let mut rows = RowDistances::of(alloc, batch)?;
    let mut line = vec![in alloc; Away::without(); width]?;
    fill_rows::<M>(batch, table, &mut rows, line.as_mut_slice(), costs);
    Ok(())
}

/// Fills `costs` with those of the cells of a batch, whose first row is the next. `line` is a
/// buffer for a row.
fn fill_rows<M: Metric>(
    batch: &Batch<'_>,
    table: &[u8],
    rows: &mut RowDistances,
    line: &mut [Away],
    costs: &mut [u8],
)
    requires some { 1 ≤ length table.now }
    requires ready { IsNextRowOf batch.now rows.old batch.now.y0 }
    requires line { length line.old ≡ batch.now.bitmap.now.width }
    requires room { HasRoom batch.now.bitmap.now batch.now.y0 batch.now.y1 costs.old }
    ensures { ArePriced table.now M.distance batch.now.bitmap.now batch.now.edge batch.now.y0
        batch.now.y1 costs.new }
{
    let width = batch.width();
    'rows: for y in batch.y0..batch.y1 {
        rows.measure::<M>(batch, y, line);
        let start = usize::from(y - batch.y0) * width;
        write_costs(line, table, &mut costs[start..start + width]);
    }
}

/// Writes the cost of each distance of a line, from the left. The distances become the places of
/// their entries.
fn write_costs(line: &mut [Away], table: &[u8], costs: &mut [u8])
    requires some { 1 ≤ length table.now }
    requires room { length line.old ≡ length costs.old }
    ensures costs { (x : ℕ) → x < length line.old → slice_index costs.new x
        ≡ cost_of table.now (distance_kept (slice_index_or line.old x no_distance).dist) }
    ensures len { length costs.new ≡ length line.old }
{
    if table.len() > NO_OBSTACLE as usize {
        write_by_long(line, table, costs);
        return;
    }
    cut(line, (table.len() - 1) as u32);
    look_up(line, table, costs);
}

/// Makes each distance of a line over `most` that number.
fn cut(line: &mut [Away], most: u32)
    ensures cut { (x : ℕ) → x < length line.old → (slice_index_or line.new x no_distance).dist
        ≡ min (slice_index_or line.old x no_distance).dist most }
    ensures few { (x : ℕ) → x < length line.old
        → (slice_index_or line.old x no_distance).dist ≤ NO_OBSTACLE }
    ensures len { length line.new ≡ length line.old }
{
    'cells: for x in 0..line.len() {
        line[x] = Away {
            dist: line[x].dist.min(most),
        };
    }
}

/// Writes the entries at the places in a line, from the left.
fn look_up(line: &[Away], table: &[u8], costs: &mut [u8])
    requires places { (x : ℕ) → x < length line.now
        → (slice_index_or line.now x no_distance).dist < length table.now }
    requires room { length line.now ≡ length costs.old }
    ensures costs { (x : ℕ) → x < length line.now → slice_index costs.new x
        ≡ slice_index table.now (slice_index_or line.now x no_distance).dist }
    ensures len { length costs.new ≡ length line.now }
{
    'cells: for x in 0..line.len() {
        costs[x] = table[line[x].dist as usize];
    }
}

/// As `write_costs`, by a table that goes on past all distances.
fn write_by_long(line: &[Away], table: &[u8], costs: &mut [u8])
    requires some { 1 ≤ length table.now }
    requires room { length line.now ≡ length costs.old }
    ensures costs { (x : ℕ) → x < length line.now → slice_index costs.new x
        ≡ cost_of table.now (distance_kept (slice_index_or line.now x no_distance).dist) }
    ensures len { length costs.new ≡ length line.now }
{
    // What means no obstacle has the last entry, however long the table is.
    let count = table.len().min(NO_OBSTACLE as usize);
    'cells: for x in 0..line.len() {
        costs[x] = cost_at(table, count, line[x].dist);
    }
}

/// The cost of a distance, of which the first `count` have an entry of their own.
#[inline(always)]
fn cost_at(table: &[u8], count: usize, distance: u32) -> u8
    requires some { 1 ≤ length table.now }
    requires count { count ≡ min (length table.now) 4294967295 }
    ensures { result ≡ cost_of table.now (distance_kept distance) }
{
    let place = distance as usize;
    if place < count {
        table[place]
    } else {
        table[table.len() - 1]
    }
}
