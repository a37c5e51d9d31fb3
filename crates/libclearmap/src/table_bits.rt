//! The calls for all cells of a range of rows of a map in bits.

ghost use Rattle.std.specs.Prelude.{◌≡◌, ◌≢◌, ℕ, ◌-◌, ◌*◌, ◌≤◌, length, slice_index};
ghost use Rattle.std.specs.Prelude.{slice_index_or, take};
ghost use Rattle.field.specs.Bands.{AreAnswers};
ghost use Rattle.libclearmap.specs.Costs.{AreCosts};
ghost use Rattle.libclearmap.specs.Distances.{AreDistances};
ghost use Rattle.libclearmap.specs.Kept.{kept_nothing, near_kept};
ghost use Rattle.libclearmap.specs.Layouts.{cells_of_bits};
ghost use Rattle.libclearmap.specs.Settings.{distance_numbered, edge_numbered};
ghost use Rattle.libclearmap.specs.Statuses.{IsStatus, bits_status, costs_status, first_wrong};
ghost use Rattle.libclearmap.specs.Statuses.{table_status};

use crate::bit_rows::BitRows;
use crate::costs::costs_in;
use crate::layout::ClearmapBits;
use crate::near::ClearmapNear;
use crate::setting::Setting;
use crate::status::DONE;
use crate::tables::table_in;
use std::alloc::Global;

/// Writes the distances of the cells of rows `y0` to `y1 - 1`, in row-major order; `u32::MAX` where
/// there is no obstacle.
#[unsafe(no_mangle)]
pub extern "C" fn clearmap_bits_distances(
    alloc: Global,
    words: &[u64],
    map: &ClearmapBits,
    metric: u32,
    edge: u32,
    y0: u32,
    y1: u32,
    distances: &mut [u32],
) -> u32
    ensures rows { result ≡ DONE → AreDistances (distance_numbered metric)
        (cells_of_bits map.now words.now) (edge_numbered edge) y0 y1
        (take ((y1 - y0) * map.now.width) distances.new) }
    ensures rest { (k : ℕ) → (y1 - y0) * map.now.width ≤ k → slice_index distances.new k
        ≡ slice_index distances.old k }
    ensures status { IsStatus (first_wrong (bits_status map.now words.now)
        (table_status (cells_of_bits map.now words.now) metric edge y0 y1 (length distances.old)))
        result }
    ensures refused { result ≢ DONE → distances.new ≡ distances.old }
{
    let setting = Setting::new(metric, edge, DONE);
    match BitRows::of(words, map) {
        Ok(BitRows::Plain(mut rows)) => table_in(alloc, &mut rows, setting, y0..y1, distances),
        Ok(BitRows::Tiled(mut rows)) => table_in(alloc, &mut rows, setting, y0..y1, distances),
        Err(status) => status,
    }
}

/// Writes the nearest obstacles of the cells of rows `y0` to `y1 - 1`, in row-major order.
#[unsafe(no_mangle)]
pub extern "C" fn clearmap_bits_nearest(
    alloc: Global,
    words: &[u64],
    map: &ClearmapBits,
    metric: u32,
    edge: u32,
    y0: u32,
    y1: u32,
    nears: &mut [ClearmapNear],
) -> u32
    ensures rows { result ≡ DONE → AreAnswers (λ distance x y kept. near_kept kept) kept_nothing
        (distance_numbered metric) (cells_of_bits map.now words.now) (edge_numbered edge) y0 y1
        (take ((y1 - y0) * map.now.width) nears.new) }
    ensures rest { (k : ℕ) → (y1 - y0) * map.now.width ≤ k → slice_index_or nears.new k
        kept_nothing ≡ slice_index_or nears.old k kept_nothing }
    ensures status { IsStatus (first_wrong (bits_status map.now words.now)
        (table_status (cells_of_bits map.now words.now) metric edge y0 y1 (length nears.old)))
        result }
    ensures refused { result ≢ DONE → nears.new ≡ nears.old }
{
    let setting = Setting::new(metric, edge, DONE);
    match BitRows::of(words, map) {
        Ok(BitRows::Plain(mut rows)) => table_in(alloc, &mut rows, setting, y0..y1, nears),
        Ok(BitRows::Tiled(mut rows)) => table_in(alloc, &mut rows, setting, y0..y1, nears),
        Err(status) => status,
    }
}

/// Writes the costs of the cells of rows `y0` to `y1 - 1`, in row-major order: for a distance of
/// `d` the table's entry `d`, and its last entry for greater distances and where there is no
/// obstacle.
#[unsafe(no_mangle)]
pub extern "C" fn clearmap_bits_costs(
    alloc: Global,
    words: &[u64],
    map: &ClearmapBits,
    metric: u32,
    edge: u32,
    table: &[u8],
    y0: u32,
    y1: u32,
    costs: &mut [u8],
) -> u32
    ensures rows { result ≡ DONE → AreCosts table.now (distance_numbered metric)
        (cells_of_bits map.now words.now) (edge_numbered edge) y0 y1
        (take ((y1 - y0) * map.now.width) costs.new) }
    ensures rest { (k : ℕ) → (y1 - y0) * map.now.width ≤ k → slice_index costs.new k
        ≡ slice_index costs.old k }
    ensures status { IsStatus (first_wrong (bits_status map.now words.now)
        (costs_status (cells_of_bits map.now words.now) metric edge (length table.now) y0 y1
        (length costs.old))) result }
    ensures refused { result ≢ DONE → costs.new ≡ costs.old }
{
    let setting = Setting::new(metric, edge, DONE);
    match BitRows::of(words, map) {
        Ok(BitRows::Plain(mut rows)) => costs_in(alloc, &mut rows, setting, table, y0..y1, costs),
        Ok(BitRows::Tiled(mut rows)) => costs_in(alloc, &mut rows, setting, table, y0..y1, costs),
        Err(status) => status,
    }
}
