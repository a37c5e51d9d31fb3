//! The queries of a map in bits.

ghost use Rattle.std.specs.Prelude.{◌≡◌, ◌≢◌};
ghost use Rattle.metric.specs.Nearest.{IsNear};
ghost use Rattle.bits.specs.Edges.{IsBlocked};
ghost use Rattle.clearance.specs.Answers.{IsClearOf, IsLeastOf, cells_of_rect};
ghost use Rattle.clearance.specs.Paths.{cells_of_path};
ghost use Rattle.libclearmap.specs.Kept.{found_kept, near_kept};
ghost use Rattle.libclearmap.specs.Layouts.{cells_of_bits};
ghost use Rattle.libclearmap.specs.Searches.{IsFound, search_status};
ghost use Rattle.libclearmap.specs.Settings.{distance_numbered, edge_numbered};
ghost use Rattle.libclearmap.specs.Statuses.{bits_status, cell_status, first_wrong, path_status};
ghost use Rattle.libclearmap.specs.Statuses.{rect_status, setting_status};

use crate::bit_rows::BitRows;
use crate::layout::ClearmapBits;
use crate::near::{ClearmapFound, ClearmapNear};
use crate::queries::{at_in, find_in};
use crate::search::{Corners, Search};
use crate::setting::Setting;
use crate::status::DONE;
use metric::Cell;

/// Writes the nearest obstacle of cell (`x`, `y`).
#[unsafe(no_mangle)]
pub extern "C" fn clearmap_bits_at(
    words: &[u64],
    map: &ClearmapBits,
    metric: u32,
    edge: u32,
    x: u32,
    y: u32,
    near: &mut ClearmapNear,
) -> u32
    ensures near { result ≡ DONE → IsNear (distance_numbered metric)
        (IsBlocked (cells_of_bits map.now words.now) (edge_numbered edge)) x y
        (near_kept near.new) }
    ensures status { result ≡ first_wrong (bits_status map.now words.now)
        (first_wrong (setting_status metric edge) (cell_status (cells_of_bits map.now words.now) x
        y)) }
    ensures refused { result ≢ DONE → near.new ≡ near.old }
{
    let setting = Setting::new(metric, edge, DONE);
    match BitRows::of(words, map) {
        Ok(BitRows::Plain(mut rows)) => at_in(&mut rows, setting, x, y, near),
        Ok(BitRows::Tiled(mut rows)) => at_in(&mut rows, setting, x, y, near),
        Err(status) => status,
    }
}

/// Writes the first cell with the least distance in columns `x0` to `x1 - 1` and rows `y0` to `y1 -
/// 1`, in row-major order, with its nearest obstacle.
#[unsafe(no_mangle)]
pub extern "C" fn clearmap_bits_rect(
    words: &[u64],
    map: &ClearmapBits,
    metric: u32,
    edge: u32,
    x0: u32,
    y0: u32,
    x1: u32,
    y1: u32,
    found: &mut ClearmapFound,
) -> u32
    ensures least { result ≡ DONE → IsLeastOf (distance_numbered metric)
        (IsBlocked (cells_of_bits map.now words.now) (edge_numbered edge))
        (cells_of_rect x0 y0 x1 y1) (found_kept found.new) }
    ensures status { result ≡ first_wrong (bits_status map.now words.now)
        (first_wrong (setting_status metric edge) (rect_status (cells_of_bits map.now words.now) x0
        y0 x1 y1)) }
    ensures refused { result ≢ DONE → found.new ≡ found.old }
{
    let corners = Corners { x0, y0, x1, y1 };
    find_bits(words, map, metric, edge, Search::Least(corners), found)
}

/// Writes the first cell with the least distance along a path, with its nearest obstacle.
#[unsafe(no_mangle)]
pub extern "C" fn clearmap_bits_path(
    words: &[u64],
    map: &ClearmapBits,
    metric: u32,
    edge: u32,
    points: &[Cell],
    found: &mut ClearmapFound,
) -> u32
    ensures least { result ≡ DONE → IsLeastOf (distance_numbered metric)
        (IsBlocked (cells_of_bits map.now words.now) (edge_numbered edge))
        (cells_of_path points.now) (found_kept found.new) }
    ensures status { result ≡ first_wrong (bits_status map.now words.now)
        (first_wrong (setting_status metric edge) (path_status (cells_of_bits map.now words.now)
        points.now)) }
    ensures refused { result ≢ DONE → found.new ≡ found.old }
{
    find_bits(words, map, metric, edge, Search::Path(points), found)
}

/// Writes the first cell along a path that is nearer than `d` to an obstacle, with its nearest
/// obstacle; no cell where the path is clear.
#[unsafe(no_mangle)]
pub extern "C" fn clearmap_bits_clear_of(
    words: &[u64],
    map: &ClearmapBits,
    metric: u32,
    edge: u32,
    points: &[Cell],
    d: u32,
    found: &mut ClearmapFound,
) -> u32
    ensures clear { result ≡ DONE → IsClearOf (distance_numbered metric)
        (IsBlocked (cells_of_bits map.now words.now) (edge_numbered edge))
        (cells_of_path points.now) d (found_kept found.new) }
    ensures status { result ≡ first_wrong (bits_status map.now words.now)
        (first_wrong (setting_status metric edge) (path_status (cells_of_bits map.now words.now)
        points.now)) }
    ensures refused { result ≢ DONE → found.new ≡ found.old }
{
    find_bits(words, map, metric, edge, Search::ClearOf(points, d), found)
}

/// Writes the cell that a search finds, with its nearest obstacle.
fn find_bits(
    words: &[u64],
    map: &ClearmapBits,
    metric: u32,
    edge: u32,
    search: Search<'_>,
    found: &mut ClearmapFound,
) -> u32
    ensures found { result ≡ DONE → IsFound (distance_numbered metric)
        (IsBlocked (cells_of_bits map.now words.now) (edge_numbered edge)) search.entry
        (found_kept found.new) }
    ensures status { result ≡ first_wrong (bits_status map.now words.now)
        (first_wrong (setting_status metric edge) (search_status (cells_of_bits map.now words.now)
        search.entry)) }
    ensures refused { result ≢ DONE → found.new ≡ found.old }
{
    let setting = Setting::new(metric, edge, DONE);
    match BitRows::of(words, map) {
        Ok(BitRows::Plain(mut rows)) => find_in(&mut rows, setting, search, found),
        Ok(BitRows::Tiled(mut rows)) => find_in(&mut rows, setting, search, found),
        Err(status) => status,
    }
}
