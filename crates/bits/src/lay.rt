//! Lays a part of a bitmap on a tile, row by row as words.

ghost use Rattle.std.specs.Prelude.{◌≡◌, ℕ, ◌≤◌, ◌<◌, ◌+◌, ◌-◌, nat_lt};
ghost use Rattle.std.specs.Prelude.{slice_index, if◌then◌else◌};
ghost use Rattle.std.specs.Int.{bit_at};
ghost use Rattle.bits.specs.Cells.{has};
ghost use Rattle.bits.specs.TileWords.{is_bit, laid, filled_word, filled_words, words_changed};
ghost use Rattle.bits.specs.TileWords.{words_differ};

use crate::bitmap::Bitmap;
use crate::tile_bits::{TileBits, changes, columns};
use metric::{Cell, MOST_SIDE, Rect, TILE_SIDE};

impl TileBits {
    /// Lays a bitmap on the rectangle, with its cell `from` on the rectangle's first cell, and
    /// returns how many cells changed. What lies past the bitmap's edge is free.
    pub fn lay(words: &mut [u64; 64], rect: Rect, stamp: &Bitmap, from: Cell) -> u32
        requires columns { rect.x1 ≤ TILE_SIDE }
        requires rows { rect.y1 ≤ TILE_SIDE }
        requires from { from.y ≤ MOST_SIDE }
        ensures filled { words.new ≡ filled_words words.old rect.x0 rect.y0 rect.x1 rect.y1
            (laid (has stamp.now) from.x from.y rect.x0 rect.y0) }
        ensures changed { result ≡ words_changed words.old words.new }
    {
        let mut changed = 0;
        'rows: for y in rect.y0..rect.y1 {
            let row = usize::from(y);
            let old = words[row];
            let new = laid_row(old, y, rect, stamp, from);
            words[row] = new;
            changed += changes(old, new);
        }
        changed
    }

    /// Whether `lay` would change a cell.
    #[tactic(auto, using(crate::proofs::TileBitsLemmas::nothing_would_change))]
    pub fn would_lay(words: &[u64; 64], rect: Rect, stamp: &Bitmap, from: Cell) -> bool
        requires columns { rect.x1 ≤ TILE_SIDE }
        requires rows { rect.y1 ≤ TILE_SIDE }
        requires from { from.y ≤ MOST_SIDE }
        ensures { result ≡ words_differ words.now
            (filled_words words.now rect.x0 rect.y0 rect.x1 rect.y1
            (laid (has stamp.now) from.x from.y rect.x0 rect.y0)) }
    {
        'rows: for y in rect.y0..rect.y1 {
            let old = words[usize::from(y)];
            if laid_row(old, y, rect, stamp, from) != old {
                return true;
            }
        }
        false
    }
}

/// Row `y` of a tile after the bitmap is laid on the rectangle.
#[tactic(auto, using(crate::proofs::LayLemmas::laid_word))]
fn laid_row(old: u64, y: u16, rect: Rect, stamp: &Bitmap, from: Cell) -> u64
    requires columns { rect.x1 ≤ TILE_SIDE }
    requires above { rect.y0 ≤ y }
    requires row { y < TILE_SIDE }
    requires from { from.y ≤ MOST_SIDE }
    ensures { result ≡ filled_word old rect.x0 rect.x1
        (λ j. laid (has stamp.now) from.x from.y rect.x0 rect.y0 j y) }
{
    let cells = row_from(stamp, from.x, from.y + (y - rect.y0));
    let (first, end) = (u32::from(rect.x0), u32::from(rect.x1));
    let mask = columns(first, end);
    (old & !mask) | (moved(cells, first) & mask)
}

/// The 64 cells of a row from column `x` on, as a word; past the edge there is none.
#[tactic(auto, using(crate::proofs::LayLemmas::row_from_none))]
fn row_from(bitmap: &Bitmap, x: u16, y: u16) -> u64
    ensures { (j : ℕ) → j < 64 → is_bit result j ≡ has bitmap.now (x + j) y }
{
    if bitmap.height() <= y {
        return 0;
    }
    let row = bitmap.row_words(y);
    let place = usize::from(x / 64);
    joined(
        word_at(row, place),
        word_at(row, place + 1),
        u32::from(x % 64),
    )
}

/// The word at this index of a row; 0 past its end.
fn word_at(row: &[u64], place: usize) -> u64
    ensures { result ≡ slice_index row.now place }
{
    if place < row.len() { row[place] } else { 0 }
}

/// The 64 columns from `shift` on of two adjacent words.
#[tactic(auto, using(crate::proofs::LayLemmas::joined_bits))]
fn joined(left: u64, right: u64, shift: u32) -> u64
    requires { shift < 64 }
    ensures { (j : ℕ) → j < 64
        → bit_at result j ≡ (if nat_lt (shift + j) 64 then bit_at left (shift + j)
        else bit_at right (shift + j - 64)) }
{
    if shift == 0 {
        left
    } else {
        (left >> shift) | (right << (64 - shift))
    }
}

/// The word with its columns moved by `by`.
#[tactic(auto, using(crate::proofs::LayLemmas::left_high))]
fn moved(word: u64, by: u32) -> u64
    requires { by < 64 }
    ensures { (j : ℕ) → by ≤ j → j < 64 → bit_at result j ≡ bit_at word (j - by) }
{
    word << by
}
