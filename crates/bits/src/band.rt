//! Which bands of 64 rows may have an obstacle, and which of their tiles, as bits of words.

ghost use Rattle.std.specs.Prelude.{◌≡◌, ◌≢◌, ℕ, ◌<◌, ◌≤◌, ◌/◌, length, slice_index};
ghost use Rattle.std.specs.Int.{bit_at};

use crate::word::{has_bit, low_bits, with_bit};
use metric::{BAND_ROWS, MOST_SIDE};

/// The bands after this word is written to row `y`: each keeps its bit, and the row's own band has
/// one if an obstacle has come.
#[inline(always)]
pub fn marked(bands: u64, y: u16, word: u64) -> u64
    requires { y < MOST_SIDE }
    ensures here { (i : ℕ) → bit_at word i ≡ 1 → bit_at result (y / BAND_ROWS) ≡ 1 }
    ensures kept { (band : ℕ) → band < BAND_ROWS → bit_at bands band ≡ 1 → bit_at result band ≡ 1 }
{
    with_mark(bands, y / BAND_ROWS, word)
}

/// The bits after this word is written at `index`: each keeps its mark, and `index` has one if an
/// obstacle has come.
#[inline(always)]
pub fn with_mark(bits: u64, index: u16, word: u64) -> u64
    requires { index < 64 }
    ensures here { (i : ℕ) → bit_at word i ≡ 1 → bit_at result index ≡ 1 }
    ensures kept { (k : ℕ) → k < 64 → bit_at bits k ≡ 1 → bit_at result k ≡ 1 }
{
    if word != 0 {
        with_bit(bits, index, true)
    } else {
        bits
    }
}

/// The bits after all that `index` stands for is written anew, as this word: `index` has its mark
/// if there is an obstacle, and none if there isn't, and each other keeps its own.
#[inline(always)]
pub fn renewed(bits: u64, index: u16, word: u64) -> u64
    requires { index < 64 }
    ensures here { (i : ℕ) → bit_at word i ≡ 1 → bit_at result index ≡ 1 }
    ensures kept { (k : ℕ) → k < 64 → k ≢ index → bit_at bits k ≡ 1 → bit_at result k ≡ 1 }
{
    with_bit(bits, index, word != 0)
}

/// The bands after these words are written to row `y`, or to the rows of its band.
pub fn marked_by(bands: u64, y: u16, words: &[u64]) -> u64
    requires { y < MOST_SIDE }
    ensures here { (k i : ℕ) → k < length words.now → bit_at (slice_index words.now k) i ≡ 1
        → bit_at result (y / BAND_ROWS) ≡ 1 }
    ensures kept { (band : ℕ) → band < BAND_ROWS → bit_at bands band ≡ 1 → bit_at result band ≡ 1 }
{
    if has_bit(bands, y / BAND_ROWS) {
        return bands;
    }
    marked(bands, y, all_bits(words))
}

/// The marks of a band's tiles, with those in which one of the first `across` words has an
/// obstacle.
pub fn with_marks(tiles: u64, row: &[u64; 64], across: u16) -> u64
    requires { across ≤ 64 }
    ensures here { (k i : ℕ) → k < across → bit_at (slice_index row.now k) i ≡ 1
        → bit_at result k ≡ 1 }
    ensures kept { (k : ℕ) → k < 64 → bit_at tiles k ≡ 1 → bit_at result k ≡ 1 }
{
    if low_bits(tiles, across) == low_bits(u64::MAX, across) {
        return tiles;
    }
    let mut all = tiles;
    'words: for index in 0..across {
        all = with_mark(all, index, row[usize::from(index)]);
    }
    all
}

/// The bits that are 1 in any of the words.
pub fn all_bits(words: &[u64]) -> u64
    ensures { (k i : ℕ) → k < length words.now → bit_at (slice_index words.now k) i ≡ 1
        → bit_at result i ≡ 1 }
{
    let mut all = 0;
    'words: for word in words {
        all |= *word;
    }
    all
}
