//! The digits of one row of a plain raster, from the words of a bitmap.

ghost use Rattle.std.specs.Prelude.{◌≡◌, ℕ, ◌+◌, ◌*◌, ◌/◌, ◌%◌, ◌<◌, ◌≤◌, length, slice_index};
ghost use Rattle.std.specs.Int.{bit_at};

use std::simd::prelude::*;

/// The most digits that a row takes.
pub const MOST_DIGITS: usize = 4096;

/// The bit of each of eight pixels.
const PLACES: [u8; 8] = [1, 2, 4, 8, 16, 32, 64, 128];

/// The digits of eight pixels: the lowest bit is the leftmost pixel.
#[inline(always)]
fn digits_of(eight: u8) -> u8x8
    ensures { (i : ℕ) → i < 8 → slice_index result i ≡ 48 + bit_at eight i }
{
    let places = u8x8::from_array(PLACES);
    let black = (u8x8::splat(eight) & places).simd_eq(places);
    black.select(u8x8::splat(b'1'), u8x8::splat(b'0'))
}

/// Writes the digits of a word's pixels from index `first` on.
#[inline(always)]
fn put_word(word: u64, first: usize, digits: &mut [u8])
    requires { first + 64 ≤ length digits.old }
    ensures len { length digits.new ≡ length digits.old }
    ensures pixels { (i : ℕ) → i < 64 → slice_index digits.new (first + i) ≡ 48 + bit_at word i }
    ensures others { (x : ℕ) → x < first → slice_index digits.new x ≡ slice_index digits.old x }
{
    'parts: for part in 0..8 {
        let eight = ((word >> (8 * part)) & 0xff) as u8;
        let start = first + 8 * part;
        digits_of(eight).copy_to_slice(&mut digits[start..]);
    }
}

/// Writes the digits of a row's pixels to the front of `digits`, 64 per word.
pub fn put_digits(words: &[u64], digits: &mut [u8])
    requires { 64 * length words.now ≤ length digits.old }
    ensures len { length digits.new ≡ length digits.old }
    ensures pixels { (x : ℕ) → x < 64 * length words.now
        → slice_index digits.new x ≡ 48 + bit_at (slice_index words.now (x / 64)) (x % 64) }
{
    'words: for index in 0..words.len() {
        put_word(words[index], 64 * index, digits);
    }
}
