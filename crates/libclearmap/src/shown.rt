//! Marks taken away from the bands and tiles of a map in bits, whose cells stay as they are: where
//! a mark hid bits, these become 0.

ghost use Rattle.std.specs.Prelude.{◌≡◌, ◌≢◌, ◌⊎◌, ℕ, ◌+◌, ◌*◌, ◌/◌, ◌<◌, ◌≤◌, ◌&&◌, false};
ghost use Rattle.std.specs.Prelude.{length, slice_index};
ghost use Rattle.std.specs.Int.{bit_at};
ghost use Rattle.bits.specs.Stored.{is_stored};
ghost use Rattle.bits.specs.Words.{words_across};
ghost use Rattle.libclearmap.specs.Layouts.{bands_down, cells_of_bits, is_tile_counted};
ghost use Rattle.libclearmap.specs.Paints.{IsChangedTo, IsUnused};
ghost use Rattle.libclearmap.specs.Statuses.{bits_status};

use crate::layout::ClearmapBits;
use crate::status::DONE;
use bits::{has_bit, without_bit};
use metric::BAND_ROWS;

/// Makes a band one that isn't said to be blank.
pub fn show_band(words: &mut [u64], map: &mut ClearmapBits, band: u16)
    requires right { bits_status map.old words.old ≡ DONE }
    requires band { band < bands_down map.old }
    ensures same { IsChangedTo map.old words.old map.new words.new
        (cells_of_bits map.old words.old) }
    ensures shown { bit_at map.new.blank_bands band ≡ 0 }
{
    if has_bit(map.blank_bands, band) {
        hide_band(words, map, band);
        map.blank_bands = without_bit(map.blank_bands, band);
    }
}

/// Makes these tiles of a band ones that aren't said to be blank, if tiles have marks.
pub fn show_tiles(words: &mut [u64], map: &ClearmapBits, band: u16, first: u16, last: u16)
    requires right { bits_status map.now words.old ≡ DONE }
    requires band { band < bands_down map.now }
    requires last { last < words_across map.now.width }
    ensures same { IsChangedTo map.now words.old map.now words.new
        (cells_of_bits map.now words.old) }
    ensures shown { (tile : ℕ) → map.now.tiles ≢ 0 → first ≤ tile → tile ≤ last
        → bit_at (slice_index words.new (map.now.tiles + band)) tile ≡ 0 }
{
    if map.tiles == 0 {
        return;
    }
    'tiles: for tile in first..last + 1 {
        show_tile(words, map, band, tile);
    }
}

/// Makes a tile of a band one that isn't said to be blank.
fn show_tile(words: &mut [u64], map: &ClearmapBits, band: u16, tile: u16)
    requires right { bits_status map.now words.old ≡ DONE }
    requires marks { map.now.tiles ≢ 0 }
    requires band { band < bands_down map.now }
    requires tile { tile < words_across map.now.width }
    ensures same { IsChangedTo map.now words.old map.now words.new
        (cells_of_bits map.now words.old) }
    ensures shown { bit_at (slice_index words.new (map.now.tiles + band)) tile ≡ 0 }
    ensures others { (k : ℕ) → k < 64 → k ≢ tile
        → bit_at (slice_index words.new (map.now.tiles + band)) k
        ≡ bit_at (slice_index words.old (map.now.tiles + band)) k }
{
    let place = map.tiles + usize::from(band);
    if has_bit(words[place], tile) {
        let index = usize::from(tile);
        blank_part(words, map, band, index, index + 1);
        words[place] = without_bit(words[place], tile);
    }
}

/// Makes the cells of a band blank by marks of its tiles or, without marks, by its words.
fn hide_band(words: &mut [u64], map: &ClearmapBits, band: u16)
    requires right { bits_status map.now words.old ≡ DONE }
    requires band { band < bands_down map.now }
    ensures none { (x y : ℕ) → x < map.now.width → y < map.now.height → y / 64 ≡ band
        → (is_tile_counted map.now.tiles words.new x y && is_stored map.now.stride words.new x y)
        ≡ false }
    ensures others { (x y : ℕ) → x < map.now.width → y < map.now.height → y / 64 ≢ band
        → (is_tile_counted map.now.tiles words.new x y && is_stored map.now.stride words.new x y)
        ≡ (is_tile_counted map.now.tiles words.old x y && is_stored map.now.stride words.old x y) }
    ensures unused { (k : ℕ) → IsUnused map.now k
        → slice_index words.new k ≡ slice_index words.old k }
    ensures len { length words.new ≡ length words.old }
{
    if map.tiles == 0 {
        let across = (map.width as usize).div_ceil(64);
        blank_part(words, map, band, 0, across);
    } else {
        words[map.tiles + usize::from(band)] = u64::MAX;
    }
}

/// Writes 0 to the words `first` to `end - 1` of each row of a band.
fn blank_part(words: &mut [u64], map: &ClearmapBits, band: u16, first: usize, end: usize)
    requires right { bits_status map.now words.old ≡ DONE }
    requires band { band < bands_down map.now }
    requires order { first ≤ end }
    requires within { end ≤ words_across map.now.width }
    ensures none { (y k : ℕ) → y < map.now.height → y / 64 ≡ band → first ≤ k → k < end
        → slice_index words.new (y * map.now.stride + k) ≡ 0 }
    ensures others { (k : ℕ) → ((y : ℕ) → y < map.now.height → y / 64 ≡ band
        → (k < y * map.now.stride + first) ⊎ (y * map.now.stride + end ≤ k))
        → slice_index words.new k ≡ slice_index words.old k }
    ensures len { length words.new ≡ length words.old }
{
    let top = BAND_ROWS * band;
    let bottom = (map.height as u16).min(top + BAND_ROWS);
    'rows: for y in top..bottom {
        let start = usize::from(y) * map.stride;
        blank_words(words, start + first, start + end);
    }
}

/// Writes 0 to the words from one index up to another.
fn blank_words(words: &mut [u64], from: usize, to: usize)
    requires order { from ≤ to }
    requires room { to ≤ length words.old }
    ensures none { (k : ℕ) → from ≤ k → k < to → slice_index words.new k ≡ 0 }
    ensures others { (k : ℕ) → (k < from) ⊎ (to ≤ k)
        → slice_index words.new k ≡ slice_index words.old k }
    ensures len { length words.new ≡ length words.old }
{
    words[from..to].fill(0);
}
