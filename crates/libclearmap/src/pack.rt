//! The calls that convert a map from bytes to bits, and back.

ghost use Rattle.std.specs.Prelude.{◌≡◌, ◌≢◌, ℕ, ◌<◌, ◌≤◌, ◌+◌, ◌*◌, length, slice_index};
ghost use Rattle.std.specs.Prelude.{◌/◌, false, if◌then◌else◌};
ghost use Rattle.std.specs.Int.{bit_at};
ghost use Rattle.bits.specs.Cells.{has};
ghost use Rattle.bits.specs.Stored.{cells_stored, is_stored};
ghost use Rattle.bits.specs.Words.{words_across};
ghost use Rattle.clearance.specs.Rows.{IsBlankRow};
ghost use Rattle.libclearmap.specs.Layouts.{cells_of_bits, cells_of_bytes};
ghost use Rattle.libclearmap.specs.Statuses.{bits_status, bytes_status, first_wrong};
ghost use Rattle.libclearmap.specs.Statuses.{range_status, room_status};

use crate::bit_rows::BitRows;
use crate::byte_map::ByteMap;
use crate::copy::pack_rows;
use crate::layout::{ClearmapBits, ClearmapBytes};
use crate::status::{DONE, first_wrong, range_status, room_status};
use crate::unpack::{Shades, unpack_in};

/// Packs a map in bytes into words, one row after another without a gap, and writes their layout to
/// `bits`, without marks of tiles. Bits past the last column are 0.
#[unsafe(no_mangle)]
pub extern "C" fn clearmap_pack(
    bytes: &[u8],
    map: &ClearmapBytes,
    words: &mut [u64],
    bits: &mut ClearmapBits,
) -> u32
    ensures packed { result ≡ DONE → cells_of_bits bits.new words.new ≡ cells_of_bytes map.now
        bytes.now }
    ensures right { result ≡ DONE → bits_status bits.new words.new ≡ DONE }
    ensures stored { result ≡ DONE → cells_stored map.now.width map.now.height words.new
        ≡ cells_of_bytes map.now bytes.now }
    ensures blank { (band : ℕ) → result ≡ DONE → band < 64 → ((y : ℕ) → y / 64 ≡ band
        → IsBlankRow (cells_of_bytes map.now bytes.now) y) → bit_at bits.new.blank_bands band ≡ 1 }
    ensures stride { result ≡ DONE → bits.new.stride ≡ words_across map.now.width }
    ensures tiles { result ≡ DONE → bits.new.tiles ≡ 0 }
    ensures edge { (x y : ℕ) → result ≡ DONE → map.now.width ≤ x
        → x < 64 * words_across map.now.width → y < map.now.height
        → is_stored (words_across map.now.width) words.new x y ≡ false }
    ensures rest { (k : ℕ) → map.now.height * words_across map.now.width ≤ k → slice_index
        words.new k ≡ slice_index words.old k }
    ensures status { result ≡ first_wrong (bytes_status map.now bytes.now) (first_wrong
        (room_status (map.now.height * words_across map.now.width) (length words.old))
        (range_status map.now)) }
    ensures refused { result ≢ DONE → words.new ≡ words.old }
    ensures kept { result ≢ DONE → bits.new ≡ bits.old }
{
    let mut rows = match ByteMap::of(bytes, map) {
        Ok(rows) => rows,
        Err(status) => return status,
    };
    let (width, height) = (map.width, map.height);
    let stride = (width as usize).div_ceil(64);
    let room = room_status(height as usize * stride, words.len());
    let status = first_wrong(room, range_status(map));
    if status != DONE {
        return status;
    }
    let blank_bands = pack_rows::<ByteMap<'_>>(&mut rows, words);
    *bits = ClearmapBits {
        width,
        height,
        stride,
        blank_bands,
        tiles: 0,
    };
    DONE
}

/// Unpacks a map in bits into bytes, one per cell, one row after another.
#[unsafe(no_mangle)]
pub extern "C" fn clearmap_unpack(
    words: &[u64],
    map: &ClearmapBits,
    free: u8,
    obstacle: u8,
    bytes: &mut [u8],
) -> u32
    ensures cells { (x y : ℕ) → result ≡ DONE → x < map.now.width → y < map.now.height
        → slice_index bytes.new (y * map.now.width + x)
        ≡ (if has (cells_of_bits map.now words.now) x y then obstacle else free) }
    ensures rest { (k : ℕ) → map.now.height * map.now.width ≤ k → slice_index bytes.new k
        ≡ slice_index bytes.old k }
    ensures status { result ≡ first_wrong (bits_status map.now words.now)
        (room_status (map.now.height * map.now.width) (length bytes.old)) }
    ensures refused { result ≢ DONE → bytes.new ≡ bytes.old }
{
    let shades = Shades { free, obstacle };
    match BitRows::of(words, map) {
        Ok(BitRows::Plain(mut rows)) => unpack_in(&mut rows, shades, bytes),
        Ok(BitRows::Tiled(mut rows)) => unpack_in(&mut rows, shades, bytes),
        Err(status) => status,
    }
}
