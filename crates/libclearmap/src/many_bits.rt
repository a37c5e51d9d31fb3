//! The queries of the cells of a list, of a map in bits.

ghost use Rattle.std.specs.Prelude.{◌≡◌, ◌≢◌, ℕ, ◌≤◌, length, slice_index, slice_index_or};
ghost use Rattle.bits.specs.Edges.{IsBlocked};
ghost use Rattle.libclearmap.specs.Kept.{kept_nothing};
ghost use Rattle.libclearmap.specs.Layouts.{cells_of_bits};
ghost use Rattle.libclearmap.specs.Many.{AreClearOf, AreNearsOf, IsFirstOutside};
ghost use Rattle.libclearmap.specs.Settings.{distance_numbered, edge_numbered};
ghost use Rattle.libclearmap.specs.Statuses.{bits_status, first_wrong, many_status};

use crate::bit_rows::BitRows;
use crate::layout::ClearmapBits;
use crate::many::{at_many_in, clear_many_in};
use crate::near::ClearmapNear;
use crate::setting::Setting;
use crate::status::{DONE, OUTSIDE};
use metric::Cell;

/// Writes the nearest obstacle of each cell of a list to the front of `nears`. If a cell isn't in
/// the map, writes only the index of the first one that isn't to `wrong`.
#[unsafe(no_mangle)]
pub extern "C" fn clearmap_bits_at_many(
    words: &[u64],
    map: &ClearmapBits,
    metric: u32,
    edge: u32,
    cells: &[Cell],
    nears: &mut [ClearmapNear],
    wrong: &mut usize,
) -> u32
    ensures nears { result ≡ DONE → AreNearsOf (distance_numbered metric)
        (IsBlocked (cells_of_bits map.now words.now) (edge_numbered edge)) cells.now nears.new }
    ensures rest { (k : ℕ) → length cells.now ≤ k → slice_index_or nears.new k kept_nothing
        ≡ slice_index_or nears.old k kept_nothing }
    ensures status { result ≡ first_wrong (bits_status map.now words.now)
        (many_status (cells_of_bits map.now words.now) metric edge cells.now (length nears.old)) }
    ensures refused { result ≢ DONE → nears.new ≡ nears.old }
    ensures wrong { result ≡ OUTSIDE → IsFirstOutside (cells_of_bits map.now words.now) cells.now
        wrong.new }
    ensures kept { result ≢ OUTSIDE → wrong.new ≡ wrong.old }
{
    let setting = Setting::new(metric, edge, DONE);
    match BitRows::of(words, map) {
        Ok(BitRows::Plain(mut rows)) => at_many_in(&mut rows, setting, cells, nears, wrong),
        Ok(BitRows::Tiled(mut rows)) => at_many_in(&mut rows, setting, cells, nears, wrong),
        Err(status) => status,
    }
}

/// Writes a byte for each cell of a list to the front of `clear`: 1 where no obstacle is nearer
/// than `d`, in the unit of the metric, otherwise 0. If a cell isn't in the map, writes only the
/// index of the first one that isn't to `wrong`.
#[unsafe(no_mangle)]
pub extern "C" fn clearmap_bits_clear_many(
    words: &[u64],
    map: &ClearmapBits,
    metric: u32,
    edge: u32,
    cells: &[Cell],
    d: u32,
    clear: &mut [u8],
    wrong: &mut usize,
) -> u32
    ensures clear { result ≡ DONE → AreClearOf (distance_numbered metric)
        (IsBlocked (cells_of_bits map.now words.now) (edge_numbered edge)) cells.now d clear.new }
    ensures rest { (k : ℕ) → length cells.now ≤ k → slice_index clear.new k
        ≡ slice_index clear.old k }
    ensures status { result ≡ first_wrong (bits_status map.now words.now)
        (many_status (cells_of_bits map.now words.now) metric edge cells.now (length clear.old)) }
    ensures refused { result ≢ DONE → clear.new ≡ clear.old }
    ensures wrong { result ≡ OUTSIDE → IsFirstOutside (cells_of_bits map.now words.now) cells.now
        wrong.new }
    ensures kept { result ≢ OUTSIDE → wrong.new ≡ wrong.old }
{
    let setting = Setting::new(metric, edge, DONE);
    match BitRows::of(words, map) {
        Ok(BitRows::Plain(mut rows)) => clear_many_in(&mut rows, setting, cells, d, clear, wrong),
        Ok(BitRows::Tiled(mut rows)) => clear_many_in(&mut rows, setting, cells, d, clear, wrong),
        Err(status) => status,
    }
}
