//! Whether polygons hit obstacles of a map in bytes.

ghost use Rattle.std.specs.Prelude.{◌≡◌, ◌≢◌, ◌≤◌, ◌/◌, ℕ, length, slice_index};
ghost use Rattle.libclearmap.specs.Footprints.{SayHits, SaysHit, hits_many_status};
ghost use Rattle.libclearmap.specs.Footprints.{hits_status};
ghost use Rattle.libclearmap.specs.Layouts.{cells_of_bytes};
ghost use Rattle.libclearmap.specs.Settings.{edge_numbered};
ghost use Rattle.libclearmap.specs.Statuses.{bytes_status, first_wrong, range_status};

use crate::byte_map::ByteMap;
use crate::hits::hits_in;
use crate::hits_many::hits_many_in;
use crate::layout::ClearmapBytes;
use crate::status::{DONE, range_status};
use footprint::Corner;

/// Writes 1 where a polygon hits an obstacle, and 0 where it doesn't.
#[unsafe(no_mangle)]
pub extern "C" fn clearmap_bytes_hits(
    bytes: &[u8],
    map: &ClearmapBytes,
    edge: u32,
    corners: &[Corner],
    hit: &mut u8,
) -> u32
    ensures hit { result ≡ DONE → SaysHit (cells_of_bytes map.now bytes.now) (edge_numbered edge)
        corners.now hit.new }
    ensures status { result ≡ first_wrong (bytes_status map.now bytes.now)
        (first_wrong (hits_status edge corners.now) (range_status map.now)) }
    ensures refused { result ≢ DONE → hit.new ≡ hit.old }
{
    let range = range_status(map);
    match ByteMap::of(bytes, map) {
        Ok(mut rows) => hits_in::<ByteMap<'_>>(&mut rows, edge, range, corners, hit),
        Err(status) => status,
    }
}

/// Writes a byte for each polygon of `count` corners to the front of `hits`: 1 where it hits an
/// obstacle, and 0 where it doesn't.
#[unsafe(no_mangle)]
pub extern "C" fn clearmap_bytes_hits_many(
    bytes: &[u8],
    map: &ClearmapBytes,
    edge: u32,
    corners: &[Corner],
    count: usize,
    hits: &mut [u8],
) -> u32
    ensures hits { result ≡ DONE → SayHits (cells_of_bytes map.now bytes.now) (edge_numbered edge)
        corners.now count hits.new }
    ensures rest { (k : ℕ) → length corners.now / count ≤ k
        → slice_index hits.new k ≡ slice_index hits.old k }
    ensures status { result ≡ first_wrong (bytes_status map.now bytes.now)
        (first_wrong (hits_many_status edge corners.now count (length hits.old))
        (range_status map.now)) }
    ensures refused { result ≢ DONE → hits.new ≡ hits.old }
{
    let range = range_status(map);
    match ByteMap::of(bytes, map) {
        Ok(mut rows) => {
            hits_many_in::<ByteMap<'_>>(&mut rows, edge, range, corners, count, hits)
        }
        Err(status) => status,
    }
}
