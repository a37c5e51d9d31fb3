//! The queries of the cells of a list, of a map in bytes.

ghost use Rattle.std.specs.Prelude.{◌≡◌, ◌≢◌, ℕ, ◌≤◌, length, slice_index, slice_index_or};
ghost use Rattle.bits.specs.Edges.{IsBlocked};
ghost use Rattle.libclearmap.specs.Kept.{kept_nothing};
ghost use Rattle.libclearmap.specs.Layouts.{cells_of_bytes};
ghost use Rattle.libclearmap.specs.Many.{AreClearOf, AreNearsOf, IsFirstOutside};
ghost use Rattle.libclearmap.specs.Settings.{distance_numbered, edge_numbered};
ghost use Rattle.libclearmap.specs.Statuses.{bytes_status, first_wrong, many_status, range_status};

use crate::byte_map::ByteMap;
use crate::layout::ClearmapBytes;
use crate::many::{at_many_in, clear_many_in};
use crate::near::ClearmapNear;
use crate::setting::Setting;
use crate::status::{DONE, OUTSIDE, range_status};
use metric::Cell;

/// Writes the nearest obstacle of each cell of a list to the front of `nears`. If a cell isn't in
/// the map, writes only the index of the first one that isn't to `wrong`.
#[unsafe(no_mangle)]
pub extern "C" fn clearmap_bytes_at_many(
    bytes: &[u8],
    map: &ClearmapBytes,
    metric: u32,
    edge: u32,
    cells: &[Cell],
    nears: &mut [ClearmapNear],
    wrong: &mut usize,
) -> u32
    ensures nears { result ≡ DONE → AreNearsOf (distance_numbered metric)
        (IsBlocked (cells_of_bytes map.now bytes.now) (edge_numbered edge)) cells.now nears.new }
    ensures rest { (k : ℕ) → length cells.now ≤ k → slice_index_or nears.new k kept_nothing
        ≡ slice_index_or nears.old k kept_nothing }
    ensures status { result ≡ first_wrong (bytes_status map.now bytes.now) (first_wrong
        (many_status (cells_of_bytes map.now bytes.now) metric edge cells.now (length nears.old))
        (range_status map.now)) }
    ensures refused { result ≢ DONE → nears.new ≡ nears.old }
    ensures wrong { result ≡ OUTSIDE → IsFirstOutside (cells_of_bytes map.now bytes.now) cells.now
        wrong.new }
    ensures kept { result ≢ OUTSIDE → wrong.new ≡ wrong.old }
{
    let setting = Setting::new(metric, edge, range_status(map));
    match ByteMap::of(bytes, map) {
        Ok(mut rows) => at_many_in(&mut rows, setting, cells, nears, wrong),
        Err(status) => status,
    }
}

/// Writes a byte for each cell of a list to the front of `clear`: 1 where no obstacle is nearer
/// than `d`, in the unit of the metric, otherwise 0. If a cell isn't in the map, writes only the
/// index of the first one that isn't to `wrong`.
#[unsafe(no_mangle)]
pub extern "C" fn clearmap_bytes_clear_many(
    bytes: &[u8],
    map: &ClearmapBytes,
    metric: u32,
    edge: u32,
    cells: &[Cell],
    d: u32,
    clear: &mut [u8],
    wrong: &mut usize,
) -> u32
    ensures clear { result ≡ DONE → AreClearOf (distance_numbered metric)
        (IsBlocked (cells_of_bytes map.now bytes.now) (edge_numbered edge)) cells.now d clear.new }
    ensures rest { (k : ℕ) → length cells.now ≤ k → slice_index clear.new k
        ≡ slice_index clear.old k }
    ensures status { result ≡ first_wrong (bytes_status map.now bytes.now) (first_wrong
        (many_status (cells_of_bytes map.now bytes.now) metric edge cells.now (length clear.old))
        (range_status map.now)) }
    ensures refused { result ≢ DONE → clear.new ≡ clear.old }
    ensures wrong { result ≡ OUTSIDE → IsFirstOutside (cells_of_bytes map.now bytes.now) cells.now
        wrong.new }
    ensures kept { result ≢ OUTSIDE → wrong.new ≡ wrong.old }
{
    let setting = Setting::new(metric, edge, range_status(map));
    match ByteMap::of(bytes, map) {
        Ok(mut rows) => clear_many_in(&mut rows, setting, cells, d, clear, wrong),
        Err(status) => status,
    }
}
