//! The call that marks a map's blank tiles.

ghost use Rattle.std.specs.Prelude.{◌≡◌, ◌≢◌, ◌⊎◌, ℕ, ◌<◌, ◌≤◌, ◌+◌, ◌/◌, IfErr, IfOk, length};
ghost use Rattle.std.specs.Prelude.{slice_index};
ghost use Rattle.std.specs.Int.{bit_at};
ghost use Rattle.bits.specs.Cells.{IsObstacle};
ghost use Rattle.bits.specs.Words.{words_across};
ghost use Rattle.clearance.specs.Rows.{IsBlankRow};
ghost use Rattle.libclearmap.specs.Layouts.{IsBlankTile, IsShape, bands_down, cells_of_bits};
ghost use Rattle.libclearmap.specs.Statuses.{bits_status, first_wrong, marks_status};

use crate::bit_rows::{BitRows, check_marks};
use crate::layout::ClearmapBits;
use crate::marks::{blank_bands, blank_tiles, write_marks};
use crate::status::DONE;

/// Marks a map's blank tiles by one word per band, from index `tiles` of its words on, and writes
/// to `map` where they are and which bands are blank. Its cells stay as they are: it believes the
/// marks and the bands that `map` has, so that what was set in a marked tile since stays blank. To
/// mark a map anew, set both to 0 first.
#[unsafe(no_mangle)]
pub extern "C" fn clearmap_mark(words: &mut [u64], map: &mut ClearmapBits, tiles: usize) -> u32
    ensures same { result ≡ DONE → cells_of_bits map.new words.new
        ≡ cells_of_bits map.old words.old }
    ensures right { result ≡ DONE → bits_status map.new words.new ≡ DONE }
    ensures layout { result ≡ DONE → map.new ≡ record {
      width = map.old.width;
      height = map.old.height;
      stride = map.old.stride;
      blank_bands = map.new.blank_bands;
      tiles = tiles;
    } }
    ensures blank { (band tile : ℕ) → result ≡ DONE → band < bands_down map.old → tile < 64
        → IsBlankTile (cells_of_bits map.old words.old) band tile
        → bit_at (slice_index words.new (tiles + band)) tile ≡ 1 }
    ensures blank_bands { (band : ℕ) → result ≡ DONE → band < 64 → ((y : ℕ) → y / 64 ≡ band
        → IsBlankRow (cells_of_bits map.old words.old) y) → bit_at map.new.blank_bands band ≡ 1 }
    ensures rest { (k : ℕ) → (k < tiles) ⊎ (tiles + bands_down map.old ≤ k)
        → slice_index words.new k ≡ slice_index words.old k }
    ensures status { result ≡ first_wrong (bits_status map.old words.old)
        (marks_status tiles map.old (length words.old)) }
    ensures refused { result ≢ DONE → words.new ≡ words.old }
    ensures kept { result ≢ DONE → map.new ≡ map.old }
{
    let marks = match marks_of(words, map) {
        Ok(marks) => marks,
        Err(status) => return status,
    };
    if let Err(status) = check_marks(tiles, map, words.len()) {
        return status;
    }
    let bands = (map.height as usize).div_ceil(64);
    write_marks(words, tiles, &marks, bands);
    map.blank_bands = blank_bands(&marks);
    map.tiles = tiles;
    DONE
}

/// The marks of the tiles of the map in these words, or the status of what is wrong with it.
fn marks_of(words: &[u64], map: &ClearmapBits) -> Result<[u64; 64], u32>
    ensures some { IfOk result (λ marks. (x y : ℕ)
        → IsObstacle (cells_of_bits map.now words.now) x y
        → bit_at (slice_index marks (y / 64)) (x / 64) ≡ 0) }
    ensures none { IfOk result (λ marks. (band tile : ℕ) → band < 64 → tile < 64
        → IsBlankTile (cells_of_bits map.now words.now) band tile
        → bit_at (slice_index marks band) tile ≡ 1) }
    ensures shape { IfOk result (λ _. IsShape map.now.width map.now.height
        (words_across map.now.width) map.now.stride (length words.now)) }
    ensures right { IfOk result (λ _. bits_status map.now words.now ≡ DONE) }
    ensures wrong { IfErr result (λ status. status ≡ bits_status map.now words.now) }
    ensures fault { IfErr result (λ status. status ≢ DONE) }
{
    match BitRows::of(words, map) {
        Ok(BitRows::Plain(mut rows)) => Ok(blank_tiles(&mut rows)),
        Ok(BitRows::Tiled(mut rows)) => Ok(blank_tiles(&mut rows)),
        Err(status) => Err(status),
    }
}
