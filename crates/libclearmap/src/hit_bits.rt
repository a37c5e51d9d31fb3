//! Whether polygons hit obstacles of a map in bits.

ghost use Rattle.std.specs.Prelude.{◌≡◌, ◌≢◌, ◌≤◌, ◌/◌, ℕ, length, slice_index};
ghost use Rattle.libclearmap.specs.Footprints.{SayHits, SaysHit, hits_many_status};
ghost use Rattle.libclearmap.specs.Footprints.{hits_status};
ghost use Rattle.libclearmap.specs.Layouts.{cells_of_bits};
ghost use Rattle.libclearmap.specs.Settings.{edge_numbered};
ghost use Rattle.libclearmap.specs.Statuses.{bits_status, first_wrong};

use crate::bit_rows::BitRows;
use crate::hits::hits_in;
use crate::hits_many::hits_many_in;
use crate::layout::ClearmapBits;
use crate::status::DONE;
use footprint::Corner;

/// Writes 1 where a polygon hits an obstacle, and 0 where it doesn't.
#[unsafe(no_mangle)]
pub extern "C" fn clearmap_bits_hits(
    words: &[u64],
    map: &ClearmapBits,
    edge: u32,
    corners: &[Corner],
    hit: &mut u8,
) -> u32
    ensures hit { result ≡ DONE → SaysHit (cells_of_bits map.now words.now) (edge_numbered edge)
        corners.now hit.new }
    ensures status { result ≡ first_wrong (bits_status map.now words.now)
        (hits_status edge corners.now) }
    ensures refused { result ≢ DONE → hit.new ≡ hit.old }
{
    match BitRows::of(words, map) {
        Ok(BitRows::Plain(mut rows)) => hits_in(&mut rows, edge, DONE, corners, hit),
        Ok(BitRows::Tiled(mut rows)) => hits_in(&mut rows, edge, DONE, corners, hit),
        Err(status) => status,
    }
}

/// Writes a byte for each polygon of `count` corners to the front of `hits`: 1 where it hits an
/// obstacle, and 0 where it doesn't.
#[unsafe(no_mangle)]
pub extern "C" fn clearmap_bits_hits_many(
    words: &[u64],
    map: &ClearmapBits,
    edge: u32,
    corners: &[Corner],
    count: usize,
    hits: &mut [u8],
) -> u32
    ensures hits { result ≡ DONE → SayHits (cells_of_bits map.now words.now) (edge_numbered edge)
        corners.now count hits.new }
    ensures rest { (k : ℕ) → length corners.now / count ≤ k
        → slice_index hits.new k ≡ slice_index hits.old k }
    ensures status { result ≡ first_wrong (bits_status map.now words.now)
        (hits_many_status edge corners.now count (length hits.old)) }
    ensures refused { result ≢ DONE → hits.new ≡ hits.old }
{
    match BitRows::of(words, map) {
        Ok(BitRows::Plain(mut rows)) => {
            hits_many_in(&mut rows, edge, DONE, corners, count, hits)
        }
        Ok(BitRows::Tiled(mut rows)) => {
            hits_many_in(&mut rows, edge, DONE, corners, count, hits)
        }
        Err(status) => status,
    }
}
