//! The calls for all cells of a range of rows of a map in bytes.

ghost use Rattle.std.specs.Prelude.{◌≡◌, ◌≢◌, ℕ, ◌-◌, ◌*◌, ◌≤◌, length, slice_index};
ghost use Rattle.std.specs.Prelude.{slice_index_or, take};
ghost use Rattle.field.specs.Bands.{AreAnswers};
ghost use Rattle.libclearmap.specs.Costs.{AreCosts};
ghost use Rattle.libclearmap.specs.Distances.{AreDistances};
ghost use Rattle.libclearmap.specs.Kept.{kept_nothing, near_kept};
ghost use Rattle.libclearmap.specs.Layouts.{cells_of_bytes};
ghost use Rattle.libclearmap.specs.Settings.{distance_numbered, edge_numbered};
ghost use Rattle.libclearmap.specs.Statuses.{IsStatus, bytes_status, first_wrong, range_status};
ghost use Rattle.libclearmap.specs.Statuses.{costs_status, table_status};

use crate::byte_map::ByteMap;
use crate::costs::costs_in;
use crate::layout::ClearmapBytes;
use crate::near::ClearmapNear;
use crate::setting::Setting;
use crate::status::{DONE, range_status};
use crate::tables::table_in;
use std::alloc::Global;

/// Writes the distances of the cells of rows `y0` to `y1 - 1`, in row-major order; `u32::MAX` where
/// there is no obstacle.
#[unsafe(no_mangle)]
pub extern "C" fn clearmap_bytes_distances(
    alloc: Global,
    bytes: &[u8],
    map: &ClearmapBytes,
    metric: u32,
    edge: u32,
    y0: u32,
    y1: u32,
    distances: &mut [u32],
) -> u32
    ensures rows { result ≡ DONE → AreDistances (distance_numbered metric)
        (cells_of_bytes map.now bytes.now) (edge_numbered edge) y0 y1
        (take ((y1 - y0) * map.now.width) distances.new) }
    ensures rest { (k : ℕ) → (y1 - y0) * map.now.width ≤ k → slice_index distances.new k
        ≡ slice_index distances.old k }
    ensures status { IsStatus (first_wrong (bytes_status map.now bytes.now)
        (first_wrong (table_status (cells_of_bytes map.now bytes.now) metric edge y0 y1
        (length distances.old)) (range_status map.now))) result }
    ensures refused { result ≢ DONE → distances.new ≡ distances.old }
{
    let setting = Setting::new(metric, edge, range_status(map));
    match ByteMap::of(bytes, map) {
        Ok(mut rows) => table_in(alloc, &mut rows, setting, y0..y1, distances),
        Err(status) => status,
    }
}

/// Writes the nearest obstacles of the cells of rows `y0` to `y1 - 1`, in row-major order.
#[unsafe(no_mangle)]
pub extern "C" fn clearmap_bytes_nearest(
    alloc: Global,
    bytes: &[u8],
    map: &ClearmapBytes,
    metric: u32,
    edge: u32,
    y0: u32,
    y1: u32,
    nears: &mut [ClearmapNear],
) -> u32
    ensures rows { result ≡ DONE → AreAnswers (λ distance x y kept. near_kept kept) kept_nothing
        (distance_numbered metric) (cells_of_bytes map.now bytes.now) (edge_numbered edge) y0 y1
        (take ((y1 - y0) * map.now.width) nears.new) }
    ensures rest { (k : ℕ) → (y1 - y0) * map.now.width ≤ k → slice_index_or nears.new k
        kept_nothing ≡ slice_index_or nears.old k kept_nothing }
    ensures status { IsStatus (first_wrong (bytes_status map.now bytes.now)
        (first_wrong (table_status (cells_of_bytes map.now bytes.now) metric edge y0 y1
        (length nears.old)) (range_status map.now))) result }
    ensures refused { result ≢ DONE → nears.new ≡ nears.old }
{
    let setting = Setting::new(metric, edge, range_status(map));
    match ByteMap::of(bytes, map) {
        Ok(mut rows) => table_in(alloc, &mut rows, setting, y0..y1, nears),
        Err(status) => status,
    }
}

/// Writes the costs of the cells of rows `y0` to `y1 - 1`, in row-major order: for a distance of
/// `d` the table's entry `d`, and its last entry for greater distances and where there is no
/// obstacle.
#[unsafe(no_mangle)]
pub extern "C" fn clearmap_bytes_costs(
    alloc: Global,
    bytes: &[u8],
    map: &ClearmapBytes,
    metric: u32,
    edge: u32,
    table: &[u8],
    y0: u32,
    y1: u32,
    costs: &mut [u8],
) -> u32
    ensures rows { result ≡ DONE → AreCosts table.now (distance_numbered metric)
        (cells_of_bytes map.now bytes.now) (edge_numbered edge) y0 y1
        (take ((y1 - y0) * map.now.width) costs.new) }
    ensures rest { (k : ℕ) → (y1 - y0) * map.now.width ≤ k → slice_index costs.new k
        ≡ slice_index costs.old k }
    ensures status { IsStatus (first_wrong (bytes_status map.now bytes.now) (first_wrong
        (costs_status (cells_of_bytes map.now bytes.now) metric edge (length table.now) y0 y1
        (length costs.old)) (range_status map.now))) result }
    ensures refused { result ≢ DONE → costs.new ≡ costs.old }
{
    let setting = Setting::new(metric, edge, range_status(map));
    match ByteMap::of(bytes, map) {
        Ok(mut rows) => costs_in(alloc, &mut rows, setting, table, y0..y1, costs),
        Err(status) => status,
    }
}
