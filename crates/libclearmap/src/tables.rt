//! The answers of all cells of a range of rows, over a map that is read word by word.

ghost use Rattle.std.specs.Prelude.{◌≡◌, ◌≢◌, ℕ, ◌-◌, ◌*◌, ◌≤◌, IfErr, IfOk, length};
ghost use Rattle.std.specs.Prelude.{slice_index_or, take};
ghost use Rattle.libclearmap.specs.Settings.{distance_numbered, edge_numbered};
ghost use Rattle.libclearmap.specs.Statuses.{IsStatus, first_wrong, table_status};

use crate::copy::bitmap_of;
use crate::setting::{Setting, edge_of, kind_of};
use crate::status::{DONE, OUTSIDE, check_setting, first_wrong, no_memory, room_status};
use crate::table_cell::TableCell;
use bits::Bitmap;
use clearance::Rows;
use field::Batch;
use std::alloc::Global;
use std::ops::Range;

/// Writes the answers of the cells of these rows to the front of the output.
pub fn table_in<T: TableCell, R: Rows>(
    alloc: Global,
    rows: &mut R,
    setting: Setting,
    asked: Range<u32>,
    cells: &mut [T],
) -> u32
    ensures rows { result ≡ DONE → T.are_answers (distance_numbered setting.metric)
        (R.cells rows.old) (edge_numbered setting.edge) asked.start asked.end
        (take ((asked.end - asked.start) * (R.cells rows.old).width) cells.new) }
    ensures rest { (k : ℕ) (other : T) → (asked.end - asked.start) * (R.cells rows.old).width ≤ k
        → slice_index_or cells.new k other ≡ slice_index_or cells.old k other }
    ensures status { IsStatus (first_wrong (table_status (R.cells rows.old) setting.metric
        setting.edge asked.start asked.end (length cells.old)) setting.range) result }
    ensures refused { result ≢ DONE → cells.new ≡ cells.old }
{
    let bitmap = match map_of(alloc, rows, setting, &asked, cells.len()) {
        Ok(bitmap) => bitmap,
        Err(status) => return status,
    };
    let count = (asked.end - asked.start) as usize * usize::from(bitmap.width());
    let batch = Batch {
        bitmap: &bitmap,
        edge: edge_of(setting.edge),
        y0: asked.start as u16,
        y1: asked.end as u16,
    };
    match T::fill(alloc, kind_of(setting.metric), &batch, &mut cells[..count]) {
        Ok(()) => DONE,
        Err(refused) => no_memory(refused),
    }
}

/// Copies the map if a call for these rows is valid; otherwise returns the status of what is wrong.
pub fn map_of<R: Rows>(
    alloc: Global,
    rows: &mut R,
    setting: Setting,
    asked: &Range<u32>,
    count: usize,
) -> Result<Bitmap, u32>
    ensures map { IfOk result (λ bitmap. bitmap ≡ R.cells rows.old) }
    ensures right { IfOk result (λ _. first_wrong (table_status (R.cells rows.old) setting.metric
        setting.edge asked.now.start asked.now.end count) setting.range ≡ DONE) }
    ensures order { IfOk result (λ _. asked.now.start ≤ asked.now.end) }
    ensures within { IfOk result (λ _. asked.now.end ≤ (R.cells rows.old).height) }
    ensures room { IfOk result (λ _. (asked.now.end - asked.now.start) * (R.cells rows.old).width
        ≤ count) }
    ensures wrong { IfErr result (λ status. IsStatus (first_wrong (table_status (R.cells rows.old)
        setting.metric setting.edge asked.now.start asked.now.end count) setting.range) status) }
    ensures some { IfErr result (λ status. status ≢ DONE) }
{
    check_setting(setting.metric, setting.edge)?;
    if asked.end < asked.start || u32::from(rows.height()) < asked.end {
        return Err(OUTSIDE);
    }
    let needed = (asked.end - asked.start) as usize * usize::from(rows.width());
    let status = first_wrong(room_status(needed, count), setting.range);
    if status != DONE {
        return Err(status);
    }
    bitmap_of::<R>(alloc, rows).map_err(no_memory)
}
