//! The queries of cells, rectangles and paths, over a map that is read word by word. None allocates
//! memory.

ghost use Rattle.std.specs.Prelude.{◌≡◌, ◌≢◌, ◌<◌};
ghost use Rattle.metric.specs.Nearest.{IsNear};
ghost use Rattle.bits.specs.Edges.{IsBlocked};
ghost use Rattle.libclearmap.specs.Kept.{found_kept, near_kept};
ghost use Rattle.libclearmap.specs.Searches.{IsFound, search_status};
ghost use Rattle.libclearmap.specs.Settings.{distance_numbered, edge_numbered};
ghost use Rattle.libclearmap.specs.Statuses.{cell_status, first_wrong, setting_status};

use crate::near::{ClearmapFound, ClearmapNear, found_of, kept_of};
use crate::search::{Search, find_by};
use crate::setting::{Setting, at_by, edge_of, kind_of};
use crate::status::{DONE, OUTSIDE, check_setting, refusal_status};
use clearance::Rows;
use metric::Cell;

/// Writes the nearest obstacle of cell (`x`, `y`).
pub fn at_in<R: Rows>(
    rows: &mut R,
    setting: Setting,
    x: u32,
    y: u32,
    near: &mut ClearmapNear,
) -> u32
    ensures near { result ≡ DONE → IsNear (distance_numbered setting.metric)
        (IsBlocked (R.cells rows.old) (edge_numbered setting.edge)) x y (near_kept near.new) }
    ensures status { result ≡ first_wrong (setting_status setting.metric setting.edge)
        (first_wrong (cell_status (R.cells rows.old) x y) setting.range) }
    ensures refused { result ≢ DONE → near.new ≡ near.old }
{
    if let Err(status) = check_setting(setting.metric, setting.edge) {
        return status;
    }
    let (width, height) = (u32::from(rows.width()), u32::from(rows.height()));
    if width <= x || height <= y {
        return OUTSIDE;
    }
    if setting.range != DONE {
        return setting.range;
    }
    let cell = Cell {
        x: x as u16,
        y: y as u16,
    };
    let (kind, edge) = (kind_of(setting.metric), edge_of(setting.edge));
    match at_by::<R>(kind, rows, edge, cell) {
        Ok(found) => {
            *near = kept_of(found);
            DONE
        }
        Err(refusal) => refusal_status(refusal),
    }
}

/// Writes the cell that a search finds, with its nearest obstacle.
pub fn find_in<R: Rows>(
    rows: &mut R,
    setting: Setting,
    search: Search<'_>,
    found: &mut ClearmapFound,
) -> u32
    ensures found { result ≡ DONE → IsFound (distance_numbered setting.metric)
        (IsBlocked (R.cells rows.old) (edge_numbered setting.edge)) search.entry
        (found_kept found.new) }
    ensures status { result ≡ first_wrong (setting_status setting.metric setting.edge)
        (first_wrong (search_status (R.cells rows.old) search.entry) setting.range) }
    ensures refused { result ≢ DONE → found.new ≡ found.old }
{
    if let Err(status) = check_setting(setting.metric, setting.edge) {
        return status;
    }
    let (kind, edge) = (kind_of(setting.metric), edge_of(setting.edge));
    match find_by::<R>(kind, rows, edge, search) {
        Ok(first) => {
            if setting.range == DONE {
                *found = found_of(first);
            }
            setting.range
        }
        Err(refusal) => refusal_status(refusal),
    }
}
