//! The obstacles of a row that lie in some columns, by the row's words.

ghost use Rattle.std.specs.Prelude.{◌≡◌, ◌<◌, ◌≤◌, ◌-◌, ◌/◌, ℕ, MatchBool, false};
ghost use Rattle.std.specs.Int.{bit_at};
ghost use Rattle.bits.specs.Cells.{IsBitmap, IsObstacle};
ghost use Rattle.footprint.specs.Rows.{IsInWord, IsStruck};
ghost use Rattle.footprint.specs.Sides.{IsIn};

use crate::span::Stretch;
use bits::{has_bit, low_bits};
use clearance::Rows;
use metric::{BAND_ROWS, WORD_CELLS};

/// Whether an obstacle of row `y` lies in these columns.
pub fn strikes<R: Rows>(rows: &mut R, y: u16, columns: Stretch) -> bool
    requires bitmap { IsBitmap (R.cells rows.old) }
    requires row { y < (R.cells rows.old).height }
    requires few { columns.end ≤ (R.cells rows.old).width }
    ensures found { MatchBool result
        ((x : ℕ) × IsStruck (R.cells rows.old) y columns.first columns.end x)
        ((x : ℕ) → IsStruck (R.cells rows.old) y columns.first columns.end x → ⊥) }
    ensures rows { rows.new ≡ rows.old }
{
    if columns.end <= columns.first {
        return false;
    }
    let (first, last) = (columns.first / WORD_CELLS, (columns.end - 1) / WORD_CELLS);
    'words: for tile in first..last + 1 {
        let word = rows.word(y, usize::from(tile));
        if is_struck(word, tile, columns) {
            return true;
        }
    }
    false
}

/// The first of some rows with an obstacle in these columns; `lines.end` if none has one.
pub fn first_struck<R: Rows>(rows: &mut R, columns: Stretch, lines: Stretch) -> u16
    requires bitmap { IsBitmap (R.cells rows.old) }
    requires few { columns.end ≤ (R.cells rows.old).width }
    requires some { columns.first < columns.end }
    requires rows { lines.end ≤ (R.cells rows.old).height }
    ensures few { result ≤ lines.end }
    ensures from { result < lines.end → lines.first ≤ result }
    ensures none { (x y : ℕ) → IsIn columns.first columns.end x → lines.first ≤ y → y < result
        → IsObstacle (R.cells rows.old) x y → ⊥ }
    ensures rows { rows.new ≡ rows.old }
{
    let (first, last) = (columns.first / WORD_CELLS, (columns.end - 1) / WORD_CELLS);
    let mut left = lines;
    'words: for tile in first..last + 1 {
        left.end = first_in_tile::<R>(rows, tile, columns, left);
    }
    left.end
}

/// The first of some rows whose word of a tile has a 1 in these columns; `lines.end` if none has.
fn first_in_tile<R: Rows>(rows: &mut R, tile: u16, columns: Stretch, lines: Stretch) -> u16
    requires bitmap { IsBitmap (R.cells rows.old) }
    requires few { columns.end ≤ (R.cells rows.old).width }
    requires some { columns.first < columns.end }
    requires start { columns.first / WORD_CELLS ≤ tile }
    requires end { tile ≤ (columns.end - 1) / WORD_CELLS }
    requires rows { lines.end ≤ (R.cells rows.old).height }
    ensures few { result ≤ lines.end }
    ensures from { result < lines.end → lines.first ≤ result }
    ensures none { (x y : ℕ) → IsIn columns.first columns.end x → x / WORD_CELLS ≡ tile
        → lines.first ≤ y → y < result → IsObstacle (R.cells rows.old) x y → ⊥ }
    ensures rows { rows.new ≡ rows.old }
{
    'rows: for y in lines.first..lines.end {
        let word = rows.word(y, usize::from(tile));
        if is_struck(word, tile, columns) {
            return y;
        }
    }
    lines.end
}

/// Whether a band may have an obstacle in these columns, by its mark and those of its tiles.
pub fn may_strike<R: Rows>(rows: &R, band: u16, columns: Stretch) -> bool
    requires band { band < 64 }
    requires few { columns.end ≤ 4096 }
    requires some { columns.first < columns.end }
    ensures { result ≡ false → (x y : ℕ) → IsIn columns.first columns.end x → y / BAND_ROWS ≡ band
        → IsObstacle (R.cells rows.now) x y → ⊥ }
{
    let (first, end) = (columns.first / WORD_CELLS, columns.end.div_ceil(WORD_CELLS));
    has_bit(rows.bands(), band) && has_between(rows.tiles(band), first, end)
}

/// Whether a bit of a tile's word is 1 in these columns, of which some are the tile's.
#[inline(always)]
fn is_struck(word: u64, tile: u16, columns: Stretch) -> bool
    requires tile { tile < 64 }
    requires start { columns.first / WORD_CELLS ≤ tile }
    requires end { tile ≤ (columns.end - 1) / WORD_CELLS }
    requires some { columns.first < columns.end }
    ensures { MatchBool result
        ((x : ℕ) × IsInWord columns.first columns.end tile word x)
        ((x : ℕ) → IsInWord columns.first columns.end tile word x → ⊥) }
{
    let left = WORD_CELLS * tile;
    has_between(word, columns.first.saturating_sub(left), columns.end - left)
}

/// Whether a bit of the word from `from` to `end` - 1 is 1.
#[inline(always)]
fn has_between(word: u64, from: u16, end: u16) -> bool
    requires { from < WORD_CELLS }
    ensures { MatchBool result
        ((i : ℕ) × (from ≤ i) × (i < end) × (i < 64) × (bit_at word i ≡ 1))
        ((i : ℕ) → from ≤ i → i < end → i < 64 → bit_at word i ≡ 1 → ⊥) }
{
    low_bits(word, end) & (u64::MAX << from) != 0
}
