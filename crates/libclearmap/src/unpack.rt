//! A map that is read word by word, written as bytes.

ghost use Rattle.std.specs.Prelude.{◌≡◌, ◌≢◌, ℕ, ◌<◌, ◌≤◌, ◌+◌, ◌*◌, ◌⊎◌, length, slice_index};
ghost use Rattle.std.specs.Prelude.{if◌then◌else◌};
ghost use Rattle.bits.specs.Cells.{has};
ghost use Rattle.bits.specs.TileWords.{is_bit};
ghost use Rattle.libclearmap.specs.Statuses.{room_status};

use crate::status::{DONE, room_status};
use clearance::Rows;
use metric::WORD_BITS;

/// The bytes written for free cells and for obstacles.
#[derive(Clone, Copy, Debug)]
pub struct Shades {
    pub free: u8,
    pub obstacle: u8,
}

/// Writes one byte per cell, in row-major order, if there is capacity for them. Returns the status.
pub fn unpack_in<R: Rows>(rows: &mut R, shades: Shades, bytes: &mut [u8]) -> u32
    ensures cells { (x y : ℕ) → result ≡ DONE → x < (R.cells rows.old).width
        → y < (R.cells rows.old).height
        → slice_index bytes.new (y * (R.cells rows.old).width + x)
        ≡ (if has (R.cells rows.old) x y then shades.obstacle else shades.free) }
    ensures rest { (k : ℕ) → (R.cells rows.old).height * (R.cells rows.old).width ≤ k → slice_index
        bytes.new k ≡ slice_index bytes.old k }
    ensures status { result ≡ room_status ((R.cells rows.old).height * (R.cells rows.old).width)
        (length bytes.old) }
    ensures refused { result ≢ DONE → bytes.new ≡ bytes.old }
{
    let needed = usize::from(rows.height()) * usize::from(rows.width());
    let status = room_status(needed, bytes.len());
    if status == DONE {
        unpack_rows(rows, shades, bytes);
    }
    status
}

/// Writes one byte per cell, in row-major order.
fn unpack_rows<R: Rows>(rows: &mut R, shades: Shades, bytes: &mut [u8])
    requires { (R.cells rows.old).height * (R.cells rows.old).width ≤ length bytes.old }
    ensures cells { (x y : ℕ) → x < (R.cells rows.old).width → y < (R.cells rows.old).height
        → slice_index bytes.new (y * (R.cells rows.old).width + x)
        ≡ (if has (R.cells rows.old) x y then shades.obstacle else shades.free) }
    ensures rest { (k : ℕ) → (R.cells rows.old).height * (R.cells rows.old).width ≤ k → slice_index
        bytes.new k ≡ slice_index bytes.old k }
{
    let width = usize::from(rows.width());
    'rows: for y in 0..rows.height() {
        unpack_row(rows, y, usize::from(y) * width, shades, bytes);
    }
}

/// Writes one byte per cell of row `y`, from index `start` on.
fn unpack_row<R: Rows>(rows: &mut R, y: u16, start: usize, shades: Shades, bytes: &mut [u8])
    requires row { y < (R.cells rows.old).height }
    requires room { start + (R.cells rows.old).width ≤ length bytes.old }
    ensures cells { (x : ℕ) → x < (R.cells rows.old).width
        → slice_index bytes.new (start + x)
        ≡ (if has (R.cells rows.old) x y then shades.obstacle else shades.free) }
    ensures others { (k : ℕ) → (k < start) ⊎ (start + (R.cells rows.old).width ≤ k) → slice_index
        bytes.new k ≡ slice_index bytes.old k }
    ensures rows { rows.new ≡ rows.old }
{
    let width = usize::from(rows.width());
    'words: for index in 0..rows.across() {
        let left = WORD_BITS * index;
        let count = (width - left).min(WORD_BITS);
        let word = rows.word(y, index);
        unpack_word(word, count, start + left, shades, bytes);
    }
}

/// Writes one byte for each of the first `count` bits of a word, from index `start` on.
fn unpack_word(word: u64, count: usize, start: usize, shades: Shades, bytes: &mut [u8])
    requires few { count ≤ 64 }
    requires room { start + count ≤ length bytes.old }
    ensures cells { (i : ℕ) → i < count → slice_index bytes.new (start + i)
        ≡ (if is_bit word i then shades.obstacle else shades.free) }
    ensures others { (k : ℕ) → (k < start) ⊎ (start + count ≤ k) → slice_index bytes.new k
        ≡ slice_index bytes.old k }
{
    'bits: for i in 0..count {
        bytes[start + i] = shade(word, i, shades);
    }
}

/// The byte for the cell of this bit of a word.
#[inline(always)]
fn shade(word: u64, i: usize, shades: Shades) -> u8
    requires { i < 64 }
    ensures { result ≡ (if is_bit word i then shades.obstacle else shades.free) }
{
    if (word >> i) & 1 == 1 {
        shades.obstacle
    } else {
        shades.free
    }
}
