//! Whether polygons of a list hit obstacles, over a map that is read word by word. None allocates
//! memory.

ghost use Rattle.std.specs.Prelude.{◌≡◌, ◌≢◌, ℕ, ◌<◌, ◌≤◌, ◌/◌, length, slice_index};
ghost use Rattle.std.specs.List.{All};
ghost use Rattle.footprint.specs.Polygon.{IsNear};
ghost use Rattle.libclearmap.specs.Footprints.{AreSaid, SayHits, hits_many_status};
ghost use Rattle.libclearmap.specs.Settings.{edge_numbered};
ghost use Rattle.libclearmap.specs.Statuses.{first_wrong};

use crate::hits::fault_status;
use crate::setting::edge_of;
use crate::status::{DONE, EDGE, first_wrong, room_status};
use clearance::Rows;
use footprint::{Corner, fault_of_all, hits, polygon_at};
use metric::Edge;

/// Writes a byte for each polygon of `count` corners to the front of the output: 1 where it hits an
/// obstacle of the map, and 0 where it doesn't. `range` is told after any other fault.
pub fn hits_many_in<R: Rows>(
    rows: &mut R,
    edge: u32,
    range: u32,
    corners: &[Corner],
    count: usize,
    bytes: &mut [u8],
) -> u32
    ensures hits { result ≡ DONE → SayHits (R.cells rows.old) (edge_numbered edge) corners.now
        count bytes.new }
    ensures rest { (k : ℕ) → length corners.now / count ≤ k
        → slice_index bytes.new k ≡ slice_index bytes.old k }
    ensures status { result ≡ first_wrong
        (hits_many_status edge corners.now count (length bytes.old)) range }
    ensures refused { result ≢ DONE → bytes.new ≡ bytes.old }
{
    let status = check_polygons(edge, corners, count, bytes.len(), range);
    if status == DONE {
        write_hits(rows, edge_of(edge), corners, count, bytes);
    }
    status
}

/// The status of a call for polygons of `count` corners each, with room for `room` answers.
fn check_polygons(edge: u32, corners: &[Corner], count: usize, room: usize, range: u32) -> u32
    ensures status { result ≡ first_wrong (hits_many_status edge corners.now count room) range }
    ensures some { result ≡ DONE → 0 < count }
    ensures near { result ≡ DONE → All IsNear corners.now }
    ensures room { result ≡ DONE → length corners.now / count ≤ room }
{
    if edge > 1 {
        return EDGE;
    }
    if let Some(fault) = fault_of_all(corners, count) {
        return fault_status(fault);
    }
    first_wrong(room_status(corners.len() / count, room), range)
}

/// Writes for each polygon whether it hits an obstacle.
fn write_hits<R: Rows>(rows: &mut R, edge: Edge, corners: &[Corner], count: usize, bytes: &mut [u8])
    requires some { 0 < count }
    requires near { All IsNear corners.now }
    requires room { length corners.now / count ≤ length bytes.old }
    ensures hits { SayHits (R.cells rows.old) edge corners.now count bytes.new }
    ensures rest { (k : ℕ) → length corners.now / count ≤ k
        → slice_index bytes.new k ≡ slice_index bytes.old k }
{
    'polygons: for k in 0..corners.len() / count {
        let hit = hits(rows, edge, polygon_at(corners, count, k));
        bytes[k] = u8::from(hit);
    }
}
