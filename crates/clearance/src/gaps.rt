//! How far bands, tiles, rows and the obstacles of a word lie outside a rectangle.

ghost use Rattle.std.specs.Prelude.{◌≡◌, ℕ, ◌+◌, ◌/◌, ◌%◌, ◌<◌, ◌≤◌};
ghost use Rattle.std.specs.Int.{bit_at};
ghost use Rattle.clearance.specs.Nearest.{IsCellRect};
ghost use Rattle.clearance.specs.Search.{column_gap, row_gap};
ghost use Rattle.clearance.specs.Seekers.{IsColumnOf};
ghost use Rattle.clearance.specs.Spots.{AreLeftOf, AreRightFrom};

use crate::bit::{highest_bit, lowest_bit};
use crate::spot::parts_of;
use metric::{BAND_ROWS, Cell, MOST_SIDE, Rect, WORD_CELLS};

/// A limit above every distance.
pub const NO_LIMIT: u64 = 1 << 32;

/// How many columns the nearest obstacle of a word, which has one, lies outside the rectangle.
#[inline(always)]
pub fn columns_outside(rect: Rect, tile: u16, word: u64) -> u16
    requires tile { tile < 64 }
    requires some { 0 < word }
    ensures few { result ≤ MOST_SIDE }
    ensures apart { (a : ℕ) → a / WORD_CELLS ≡ tile → bit_at word (a % WORD_CELLS) ≡ 1
        → result ≤ column_gap rect a }
    ensures column { IsColumnOf rect tile word result }
{
    let (left, right) = parts_of(word, tile, rect.x0);
    if left == 0 {
        return right_outside(rect, tile, right);
    }
    let to_left = left_outside(rect, tile, left);
    if right == 0 {
        return to_left;
    }
    to_left.min(right_outside(rect, tile, right))
}

/// The same for obstacles none of which is left of the rectangle's first column.
#[inline(always)]
fn right_outside(rect: Rect, tile: u16, word: u64) -> u16
    requires tile { tile < 64 }
    requires some { 0 < word }
    requires right { AreRightFrom tile word rect.x0 }
    ensures few { result ≤ MOST_SIDE }
    ensures apart { (a : ℕ) → a / WORD_CELLS ≡ tile → bit_at word (a % WORD_CELLS) ≡ 1
        → result ≤ column_gap rect a }
    ensures column { IsColumnOf rect tile word result }
{
    (WORD_CELLS * tile + lowest_bit(word)).saturating_sub(rect.x1 - 1)
}

/// The same for obstacles all of which are left of it.
#[inline(always)]
fn left_outside(rect: Rect, tile: u16, word: u64) -> u16
    requires tile { tile < 64 }
    requires some { 0 < word }
    requires left { AreLeftOf tile word rect.x0 }
    ensures few { result ≤ MOST_SIDE }
    ensures apart { (a : ℕ) → a / WORD_CELLS ≡ tile → bit_at word (a % WORD_CELLS) ≡ 1
        → result ≤ column_gap rect a }
    ensures column { IsColumnOf rect tile word result }
{
    rect.x0
        .saturating_sub(WORD_CELLS * tile + highest_bit(word))
}

/// The least number of rows that a row of the band lies outside the rectangle.
pub fn rows_apart(rect: Rect, band: u16) -> u16
    requires { band < 64 }
    ensures few { result ≤ MOST_SIDE }
    ensures apart { (b : ℕ) → b / BAND_ROWS ≡ band → result ≤ row_gap rect b }
{
    let first = BAND_ROWS * band;
    let above = rect.y0.saturating_sub(first + (BAND_ROWS - 1));
    let below = first.saturating_sub(rect.y1 - 1);
    above.max(below)
}

/// The least number of columns that a column of the tile lies outside the rectangle.
pub fn columns_apart(rect: Rect, tile: u16) -> u16
    requires { tile < 64 }
    ensures few { result ≤ MOST_SIDE }
    ensures apart { (a : ℕ) → a / WORD_CELLS ≡ tile → result ≤ column_gap rect a }
{
    let first = WORD_CELLS * tile;
    let left = rect.x0.saturating_sub(first + (WORD_CELLS - 1));
    let right = first.saturating_sub(rect.x1 - 1);
    left.max(right)
}

/// How many rows row `y` lies outside the rectangle.
pub fn row_apart(rect: Rect, y: u16) -> u16
    ensures { result ≡ row_gap rect y }
{
    let above = rect.y0.saturating_sub(y);
    let below = y.saturating_sub(rect.y1 - 1);
    above.max(below)
}

/// The rectangle of one cell.
#[inline(always)]
pub fn cell_rect(cell: Cell) -> Rect
    requires column { cell.x < MOST_SIDE }
    requires row { cell.y < MOST_SIDE }
    ensures { IsCellRect cell.x cell.y result }
{
    Rect {
        x0: cell.x,
        y0: cell.y,
        x1: cell.x + 1,
        y1: cell.y + 1,
    }
}
