//! Copies of a map that is read word by word: as a bitmap, and as words.

ghost use Rattle.std.specs.Prelude.{◌≡◌, ℕ, ◌<◌, ◌≤◌, ◌+◌, ◌*◌, IfOk, length};
ghost use Rattle.std.specs.Prelude.{◌/◌, false, slice_index};
ghost use Rattle.std.specs.Int.{bit_at};
ghost use Rattle.bits.specs.Cells.{IsObstacle};
ghost use Rattle.bits.specs.Stored.{cells_stored, is_stored};
ghost use Rattle.bits.specs.Words.{words_across};
ghost use Rattle.bits.specs.Writes.{with_row};
ghost use Rattle.clearance.specs.Rows.{IsBlankRow, words_of_row};

use crate::marks::without;
use bits::Bitmap;
use clearance::Rows;
use metric::{BAND_ROWS, NoMemory};
use std::alloc::Global;

/// Copies the map into a bitmap. Fails only when out of memory.
pub fn bitmap_of<R: Rows>(alloc: Global, rows: &mut R) -> Result<Bitmap, NoMemory>
    ensures copy { IfOk result (λ bitmap. bitmap ≡ R.cells rows.old) }
    ensures rows { rows.new ≡ rows.old }
{
    let (width, height) = (rows.width(), rows.height());
    let mut bitmap = Bitmap::blank(alloc, width, height)?;
    'rows: for y in 0..height {
        copy_row(&mut bitmap, rows, y);
    }
    Ok(bitmap)
}

/// Writes row `y` of a bitmap of the same size.
fn copy_row<R: Rows>(bitmap: &mut Bitmap, rows: &mut R, y: u16)
    requires width { bitmap.old.width ≡ (R.cells rows.old).width }
    requires height { bitmap.old.height ≡ (R.cells rows.old).height }
    requires row { y < bitmap.old.height }
    ensures written { bitmap.new ≡ with_row bitmap.old y (words_of_row (R.cells rows.old) y) }
    ensures rows { rows.new ≡ rows.old }
{
    let mut row = [0u64; 64];
    'words: for index in 0..rows.across() {
        row[index] = rows.word(y, index);
    }
    bitmap.set_row(y, &row);
}

/// Writes the words of all rows, one row after another. Returns which bands are blank.
#[tactic(auto, using(crate::proofs::MarkLemmas::bit_of_ones))]
pub fn pack_rows<R: Rows>(rows: &mut R, words: &mut [u64]) -> u64
    requires { (R.cells rows.old).height * words_across (R.cells rows.old).width
        ≤ length words.old }
    ensures packed { cells_stored (R.cells rows.old).width (R.cells rows.old).height words.new
        ≡ R.cells rows.old }
    ensures marked { (x y : ℕ) → IsObstacle (R.cells rows.old) x y → bit_at result (y / 64) ≡ 0 }
    ensures blank { (band : ℕ) → band < 64 → ((y : ℕ) → y / 64 ≡ band
        → IsBlankRow (R.cells rows.old) y) → bit_at result band ≡ 1 }
    ensures edge { (x y : ℕ) → (R.cells rows.old).width ≤ x
        → x < 64 * words_across (R.cells rows.old).width → y < (R.cells rows.old).height
        → is_stored (words_across (R.cells rows.old).width) words.new x y ≡ false }
    ensures rest { (k : ℕ) → (R.cells rows.old).height * words_across (R.cells rows.old).width ≤ k
        → slice_index words.new k ≡ slice_index words.old k }
    ensures len { length words.new ≡ length words.old }
{
    let across = rows.across();
    let height = rows.height();
    let mut blank = u64::MAX;
    'rows: for y in 0..height {
        let some = pack_row(rows, y, usize::from(y) * across, words);
        blank = without(blank, y / BAND_ROWS, some);
    }
    blank
}

/// Writes the words of row `y` from index `start` on. Returns the bits set in any of them.
fn pack_row<R: Rows>(rows: &mut R, y: u16, start: usize, words: &mut [u64]) -> u64
    requires row { y < (R.cells rows.old).height }
    requires room { start + words_across (R.cells rows.old).width ≤ length words.old }
    ensures len { length words.new ≡ length words.old }
    ensures row { (k : ℕ) → k < words_across (R.cells rows.old).width → slice_index words.new
        (start + k) ≡ slice_index (words_of_row (R.cells rows.old) y) k }
    ensures some { (k i : ℕ) → k < words_across (R.cells rows.old).width → bit_at
        (slice_index (words_of_row (R.cells rows.old) y) k) i ≡ 1 → bit_at result i ≡ 1 }
    ensures none { IsBlankRow (R.cells rows.old) y → result ≡ 0 }
    ensures before { (k : ℕ) → k < start → slice_index words.new k ≡ slice_index words.old k }
    ensures after { (k : ℕ) → start + words_across (R.cells rows.old).width ≤ k → slice_index
        words.new k ≡ slice_index words.old k }
    ensures rows { rows.new ≡ rows.old }
{
    let across = rows.across();
    let mut some = 0;
    'words: for index in 0..across {
        let word = rows.word(y, index);
        words[start + index] = word;
        some |= word;
    }
    some
}
