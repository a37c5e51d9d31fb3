//! The queries of the cells of a list, over a map that is read word by word. None allocates memory.

ghost use Rattle.std.specs.Prelude.{◌≡◌, ◌≢◌, ℕ, ◌<◌, ◌≤◌, true, false, None, length};
ghost use Rattle.std.specs.Prelude.{slice_index, slice_index_or, IfSome};
ghost use Rattle.std.specs.List.{list_any};
ghost use Rattle.bits.specs.Cells.{IsInside};
ghost use Rattle.bits.specs.Edges.{IsBlocked};
ghost use Rattle.clearance.specs.Paths.{is_outside};
ghost use Rattle.libclearmap.specs.Kept.{kept_nothing};
ghost use Rattle.libclearmap.specs.Many.{AreClearOf, AreNearsOf, IsFirstOutside, IsInsideAt};
ghost use Rattle.libclearmap.specs.Many.{MeansNear, SaysClear};
ghost use Rattle.libclearmap.specs.Settings.{distance_numbered, edge_numbered};
ghost use Rattle.libclearmap.specs.Statuses.{first_wrong, many_status};
ghost use Rattle.metric.specs.Kind.{distance_of};

use crate::near::{ClearmapNear, kept_of};
use crate::setting::{Setting, at_by, clear_by, edge_of, kind_of};
use crate::status::{DONE, OUTSIDE, check_setting, first_wrong, room_status};
use clearance::Rows;
use metric::{Cell, Edge, MetricKind};

/// Writes the nearest obstacle of each cell of a list to the front of the output.
pub fn at_many_in<R: Rows>(
    rows: &mut R,
    setting: Setting,
    cells: &[Cell],
    nears: &mut [ClearmapNear],
    wrong: &mut usize,
) -> u32
    requires { setting.range ≢ OUTSIDE }
    ensures nears { result ≡ DONE → AreNearsOf (distance_numbered setting.metric)
        (IsBlocked (R.cells rows.old) (edge_numbered setting.edge)) cells.now nears.new }
    ensures rest { (k : ℕ) → length cells.now ≤ k → slice_index_or nears.new k kept_nothing
        ≡ slice_index_or nears.old k kept_nothing }
    ensures status { result ≡ first_wrong (many_status (R.cells rows.old) setting.metric
        setting.edge cells.now (length nears.old)) setting.range }
    ensures refused { result ≢ DONE → nears.new ≡ nears.old }
    ensures wrong { result ≡ OUTSIDE → IsFirstOutside (R.cells rows.old) cells.now wrong.new }
    ensures kept { result ≢ OUTSIDE → wrong.new ≡ wrong.old }
{
    let status = check_many(rows, setting, cells, nears.len(), wrong);
    if status == DONE {
        write_nears(rows, setting, cells, nears);
    }
    status
}

/// Writes a byte for each cell of a list to the front of the output: 1 where no obstacle is nearer
/// than `d`, otherwise 0.
pub fn clear_many_in<R: Rows>(
    rows: &mut R,
    setting: Setting,
    cells: &[Cell],
    d: u32,
    clear: &mut [u8],
    wrong: &mut usize,
) -> u32
    requires { setting.range ≢ OUTSIDE }
    ensures clear { result ≡ DONE → AreClearOf (distance_numbered setting.metric)
        (IsBlocked (R.cells rows.old) (edge_numbered setting.edge)) cells.now d clear.new }
    ensures rest { (k : ℕ) → length cells.now ≤ k → slice_index clear.new k
        ≡ slice_index clear.old k }
    ensures status { result ≡ first_wrong (many_status (R.cells rows.old) setting.metric
        setting.edge cells.now (length clear.old)) setting.range }
    ensures refused { result ≢ DONE → clear.new ≡ clear.old }
    ensures wrong { result ≡ OUTSIDE → IsFirstOutside (R.cells rows.old) cells.now wrong.new }
    ensures kept { result ≢ OUTSIDE → wrong.new ≡ wrong.old }
{
    let status = check_many(rows, setting, cells, clear.len(), wrong);
    if status == DONE {
        write_clear(rows, setting, cells, d, clear);
    }
    status
}

/// The status of a call for the cells of a list, with room for `count` answers. Writes the index
/// of the first cell that isn't in the map.
fn check_many<R: Rows>(
    rows: &R,
    setting: Setting,
    cells: &[Cell],
    count: usize,
    wrong: &mut usize,
) -> u32
    requires { setting.range ≢ OUTSIDE }
    ensures status { result ≡ first_wrong (many_status (R.cells rows.now) setting.metric
        setting.edge cells.now count) setting.range }
    ensures inside { (i : ℕ) → result ≡ DONE → i < length cells.now
        → IsInsideAt (R.cells rows.now) cells.now i }
    ensures room { result ≡ DONE → length cells.now ≤ count }
    ensures wrong { result ≡ OUTSIDE → IsFirstOutside (R.cells rows.now) cells.now wrong.new }
    ensures kept { result ≢ OUTSIDE → wrong.new ≡ wrong.old }
{
    if let Err(status) = check_setting(setting.metric, setting.edge) {
        return status;
    }
    match first_outside(rows, cells) {
        Some(index) => {
            *wrong = index;
            OUTSIDE
        }
        None => first_wrong(room_status(cells.len(), count), setting.range),
    }
}

/// The index of the first cell that isn't in the map.
fn first_outside<R: Rows>(rows: &R, cells: &[Cell]) -> Option<usize>
    ensures first { IfSome result (IsFirstOutside (R.cells rows.now) cells.now) }
    ensures some { IfSome result
        (λ _. list_any (is_outside (R.cells rows.now)) cells.now ≡ true) }
    ensures none { result ≡ None → list_any (is_outside (R.cells rows.now)) cells.now ≡ false }
    ensures inside { (i : ℕ) → result ≡ None → i < length cells.now
        → IsInsideAt (R.cells rows.now) cells.now i }
{
    let (width, height) = (rows.width(), rows.height());
    'cells: for i in 0..cells.len() {
        if cells[i].x >= width || cells[i].y >= height {
            return Some(i);
        }
    }
    None
}

/// Writes the nearest obstacle of each cell of a list, all of which are in the map.
fn write_nears<R: Rows>(rows: &mut R, setting: Setting, cells: &[Cell], nears: &mut [ClearmapNear])
    requires inside { (i : ℕ) → i < length cells.now → IsInsideAt (R.cells rows.old) cells.now i }
    requires room { length cells.now ≤ length nears.old }
    ensures nears { AreNearsOf (distance_numbered setting.metric)
        (IsBlocked (R.cells rows.old) (edge_numbered setting.edge)) cells.now nears.new }
    ensures rest { (k : ℕ) → length cells.now ≤ k → slice_index_or nears.new k kept_nothing
        ≡ slice_index_or nears.old k kept_nothing }
{
    let (kind, edge) = (kind_of(setting.metric), edge_of(setting.edge));
    'cells: for i in 0..cells.len() {
        nears[i] = near_by(kind, rows, edge, cells[i]);
    }
}

/// Writes for each cell of a list, all of which are in the map, whether it is clear of `d`.
fn write_clear<R: Rows>(rows: &mut R, setting: Setting, cells: &[Cell], d: u32, clear: &mut [u8])
    requires inside { (i : ℕ) → i < length cells.now → IsInsideAt (R.cells rows.old) cells.now i }
    requires room { length cells.now ≤ length clear.old }
    ensures clear { AreClearOf (distance_numbered setting.metric)
        (IsBlocked (R.cells rows.old) (edge_numbered setting.edge)) cells.now d clear.new }
    ensures rest { (k : ℕ) → length cells.now ≤ k → slice_index clear.new k
        ≡ slice_index clear.old k }
{
    let (kind, edge) = (kind_of(setting.metric), edge_of(setting.edge));
    'cells: for i in 0..cells.len() {
        clear[i] = byte_by(kind, rows, edge, cells[i], d);
    }
}

/// The nearest obstacle of a cell in the map.
fn near_by<R: Rows>(kind: MetricKind, rows: &mut R, edge: Edge, cell: Cell) -> ClearmapNear
    requires { IsInside (R.cells rows.old) cell.x cell.y }
    ensures near { MeansNear (distance_of kind) (IsBlocked (R.cells rows.old) edge) cell result }
    ensures rows { rows.new ≡ rows.old }
{
    match at_by(kind, rows, edge, cell) {
        Ok(near) => kept_of(near),
        Err(_) => kept_of(None),
    }
}

/// 1 where a cell in the map is clear of `d`, otherwise 0.
fn byte_by<R: Rows>(kind: MetricKind, rows: &mut R, edge: Edge, cell: Cell, d: u32) -> u8
    requires { IsInside (R.cells rows.old) cell.x cell.y }
    ensures clear { SaysClear (distance_of kind) (IsBlocked (R.cells rows.old) edge) cell d result }
    ensures rows { rows.new ≡ rows.old }
{
    match clear_by(kind, rows, edge, &[cell], d) {
        Ok(found) => u8::from(found.is_none()),
        Err(_) => 0,
    }
}
