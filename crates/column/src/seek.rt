//! The nearest obstacles of all columns seen from one row, without a table. With a wall, rows count
//! the frame.

ghost use Rattle.std.specs.Prelude.{◌≡◌, ℕ, ◌+◌, ◌*◌, ◌<◌, ◌≤◌, false, length, bit_and};
ghost use Rattle.std.specs.Prelude.{slice_index};
ghost use Rattle.metric.specs.Edge.{shift};
ghost use Rattle.bits.specs.Cells.{IsBitmap, has};
ghost use Rattle.bits.specs.Edges.{framed};
ghost use Rattle.column.specs.Capped.{capped};
ghost use Rattle.column.specs.Columns.{IsRowOfTable};
ghost use Rattle.column.specs.Marks.{AreMissing, first_marked};

use crate::NONE;
use crate::cap::{is_cap, mark_all, mark_sides};
use crate::row::mark_word;
use bits::Bitmap;
use metric::{Edge, FRAMED_SIDE, MOST_SIDE, WORD_BITS, WORD_CELLS};

/// The number of words of the widest row.
pub const MOST_WORDS: usize = (MOST_SIDE / WORD_CELLS) as usize;

/// Fills `entries` with row `y` of the bitmap's table, counted with the frame if there is a wall.
/// It allocates no memory.
///
/// Searches the rows from `y` outwards, so that a few rows take less time than a table of the whole
/// bitmap.
pub fn nearest_rows(bitmap: &Bitmap, edge: Edge, y: u16, entries: &mut [u16])
    requires row { y < bitmap.now.height + 2 * shift edge }
    requires width { length entries.old ≡ bitmap.now.width + 2 * shift edge }
    ensures { IsRowOfTable (framed edge bitmap.now) y entries.new }
{
    let first = usize::from(edge.shift());
    let width = usize::from(bitmap.width());
    look_around(bitmap, edge, y, &mut entries[first..first + width]);
    mark_sides(edge, y, entries);
}

/// Searches the rows from `y` outwards, usually until each column has an entry. A mask per word
/// says which of its columns have none yet.
fn look_around(bitmap: &Bitmap, edge: Edge, y: u16, entries: &mut [u16])
    requires row { y < bitmap.now.height + 2 * shift edge }
    requires width { length entries.old ≡ bitmap.now.width }
    ensures { IsRowOfTable (capped edge bitmap.now) y entries.new }
{
    let mut missing = [u64::MAX; MOST_WORDS];
    entries.fill(NONE);
    let rows = bitmap.height() + 2 * edge.shift();
    let walled = past_frame(edge, rows, y);
    'away: for away in 0..rows {
        if (away.is_power_of_two() || away == walled) && !entries.contains(&NONE) {
            return;
        }
        // Above the first row the number wraps to one that no row has.
        look_within(bitmap, edge, y.wrapping_sub(away), &mut missing, entries);
        look_within(bitmap, edge, y + away, &mut missing, entries);
    }
}

/// How many rows away from row `y` the search has passed a row of the frame, so that all columns
/// have entries; 0 where the edge is open.
fn past_frame(edge: Edge, rows: u16, y: u16) -> u16
    requires row { y < rows }
    requires few { rows ≤ FRAMED_SIDE }
{
    match edge {
        Edge::Open => 0,
        Edge::Wall => y.min(rows - 1 - y) + 1,
    }
}

/// Reads row `y`, if there is one.
fn look_within(bitmap: &Bitmap, edge: Edge, y: u16, missing: &mut [u64], entries: &mut [u16])
    requires bitmap { IsBitmap bitmap.now }
    requires width { length entries.old ≡ bitmap.now.width }
    requires room { length missing.old ≡ 64 }
    requires missing { AreMissing missing.old entries.old }
    ensures len { length entries.new ≡ length entries.old }
    ensures room { length missing.new ≡ length missing.old }
    ensures missing { AreMissing missing.new entries.new }
    ensures seen { y < bitmap.now.height + 2 * shift edge → (x : ℕ) → x < bitmap.now.width
        → slice_index entries.new x ≡ first_marked (has (capped edge bitmap.now) x y) y
        (slice_index entries.old x) }
    ensures none { bitmap.now.height + 2 * shift edge ≤ y → entries.new ≡ entries.old }
{
    if y < bitmap.height() + 2 * edge.shift() {
        look_at(bitmap, edge, y, missing, entries);
    }
}

/// Reads row `y`: it becomes the entry of each column that has an obstacle there and had no entry.
pub fn look_at(bitmap: &Bitmap, edge: Edge, y: u16, missing: &mut [u64], entries: &mut [u16])
    requires bitmap { IsBitmap bitmap.now }
    requires row { y < bitmap.now.height + 2 * shift edge }
    requires width { length entries.old ≡ bitmap.now.width }
    requires room { length missing.old ≡ 64 }
    requires missing { AreMissing missing.old entries.old }
    ensures len { length entries.new ≡ length entries.old }
    ensures room { length missing.new ≡ length missing.old }
    ensures missing { AreMissing missing.new entries.new }
    ensures seen { (x : ℕ) → x < bitmap.now.width → slice_index entries.new x
        ≡ first_marked (has (capped edge bitmap.now) x y) y (slice_index entries.old x) }
{
    if is_cap(edge, bitmap.height(), y) {
        mark_all(y, missing, entries);
        return;
    }
    let row = bitmap.row_words(y - edge.shift());
    if !has_new(row, missing) {
        return;
    }
    'words: for (index, word) in row.iter().enumerate() {
        let new = *word & missing[index];
        if new != 0 {
            mark_word(new, y, index * WORD_BITS, entries);
            missing[index] &= !*word;
        }
    }
}

/// Whether a word has an obstacle whose column is missing.
fn has_new(words: &[u64], missing: &[u64]) -> bool
    requires { length words.now ≤ length missing.now }
    ensures { result ≡ false → (k : ℕ) → k < length words.now
        → bit_and (slice_index words.now k) (slice_index missing.now k) ≡ 0 }
{
    let mut new = 0;
    'words: for index in 0..words.len() {
        new |= words[index] & missing[index];
    }
    new != 0
}
