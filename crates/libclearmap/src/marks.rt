//! The marks of a map's blank tiles, one word per band.

ghost use Rattle.std.specs.Prelude.{◌≡◌, ◌≢◌, ◌⊎◌, ℕ, ◌<◌, ◌≤◌, ◌+◌, ◌/◌, length, slice_index};
ghost use Rattle.std.specs.Int.{bit_at};
ghost use Rattle.bits.specs.Cells.{IsObstacle};
ghost use Rattle.bits.specs.Words.{words_across};
ghost use Rattle.clearance.specs.Rows.{words_of_row};
ghost use Rattle.libclearmap.specs.Layouts.{IsBlankTile};

use clearance::Rows;
use metric::BAND_ROWS;

/// Which tiles of each band are blank, as bits of a word per band.
pub fn blank_tiles<R: Rows>(rows: &mut R) -> [u64; 64]
    ensures some { (x y : ℕ) → IsObstacle (R.cells rows.old) x y
        → bit_at (slice_index result (y / 64)) (x / 64) ≡ 0 }
    ensures none { (band tile : ℕ) → band < 64 → tile < 64
        → IsBlankTile (R.cells rows.old) band tile → bit_at (slice_index result band) tile ≡ 1 }
{
    let mut marks = [u64::MAX; 64];
    'rows: for y in 0..rows.height() {
        let band = usize::from(y / BAND_ROWS);
        marks[band] = marks_after(rows, y, marks[band]);
    }
    marks
}

/// The marks of a band's tiles after row `y`: without those of tiles in which it has an obstacle.
fn marks_after<R: Rows>(rows: &mut R, y: u16, marks: u64) -> u64
    requires { y < (R.cells rows.old).height }
    ensures some { (k i : ℕ) → k < words_across (R.cells rows.old).width
        → bit_at (slice_index (words_of_row (R.cells rows.old) y) k) i ≡ 1 → bit_at result k ≡ 0 }
    ensures fewer { (k : ℕ) → k < 64 → bit_at marks k ≡ 0 → bit_at result k ≡ 0 }
    ensures none { (k : ℕ) → k < 64 → (k < words_across (R.cells rows.old).width
        → slice_index (words_of_row (R.cells rows.old) y) k ≡ 0)
        → bit_at result k ≡ bit_at marks k }
    ensures rows { rows.new ≡ rows.old }
{
    let mut left = marks;
    'words: for index in 0..rows.across() {
        left = without(left, index as u16, rows.word(y, index));
    }
    left
}

/// The bits without the one of this index, if the word has a bit that is 1.
#[inline(always)]
pub fn without(bits: u64, index: u16, word: u64) -> u64
    requires { index < 64 }
    ensures marked { (i : ℕ) → bit_at word i ≡ 1 → bit_at result index ≡ 0 }
    ensures fewer { (k : ℕ) → k < 64 → bit_at bits k ≡ 0 → bit_at result k ≡ 0 }
    ensures others { (k : ℕ) → k < 64 → k ≢ index → bit_at result k ≡ bit_at bits k }
    ensures none { word ≡ 0 → result ≡ bits }
{
    if word == 0 {
        bits
    } else {
        bits & !(1 << index)
    }
}

/// The bands all of whose tiles have a mark.
#[tactic(auto, using(crate::proofs::MarkLemmas::bit_of_ones))]
pub fn blank_bands(marks: &[u64; 64]) -> u64
    ensures some { (band tile : ℕ) → band < 64 → tile < 64
        → bit_at (slice_index marks.now band) tile ≡ 0 → bit_at result band ≡ 0 }
    ensures none { (band : ℕ) → band < 64 → ((tile : ℕ) → tile < 64
        → bit_at (slice_index marks.now band) tile ≡ 1) → bit_at result band ≡ 1 }
{
    let mut bands = u64::MAX;
    'bands: for band in 0..64 {
        bands = without(bands, band, unmarked(marks[usize::from(band)]));
    }
    bands
}

/// The tiles of a band that have no mark.
#[inline(always)]
#[tactic(auto, using(crate::proofs::MarkLemmas::not_of_ones))]
fn unmarked(marks: u64) -> u64
    ensures some { (tile : ℕ) → tile < 64 → bit_at marks tile ≡ 0 → bit_at result tile ≡ 1 }
    ensures none { ((tile : ℕ) → tile < 64 → bit_at marks tile ≡ 1) → result ≡ 0 }
{
    !marks
}

/// Writes the first `bands` marks from index `tiles` on.
pub fn write_marks(words: &mut [u64], tiles: usize, marks: &[u64; 64], bands: usize)
    requires few { bands ≤ 64 }
    requires room { tiles + bands ≤ length words.old }
    ensures marks { (k : ℕ) → k < bands
        → slice_index words.new (tiles + k) ≡ slice_index marks.now k }
    ensures rest { (k : ℕ) → (k < tiles) ⊎ (tiles + bands ≤ k)
        → slice_index words.new k ≡ slice_index words.old k }
    ensures len { length words.new ≡ length words.old }
{
    words[tiles..tiles + bands].copy_from_slice(&marks[..bands]);
}
