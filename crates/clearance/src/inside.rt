//! The first obstacle in a rectangle, row by row.

ghost use Rattle.std.specs.Prelude.{◌≡◌, ℕ, ◌/◌, ◌%◌, ◌<◌, ◌≤◌, IfSome, None};
ghost use Rattle.std.specs.Int.{bit_at};
ghost use Rattle.bits.specs.Cells.{IsObstacle};
ghost use Rattle.clearance.specs.Inside.{HasObstacle, IsFirstInRow, IsFirstInWord};
ghost use Rattle.clearance.specs.Inside.{IsFirstObstacle};
ghost use Rattle.clearance.specs.Search.{IsRectIn};

use crate::bit::lowest_bit;
use crate::rows::Rows;
use crate::spot::parts_of;
use bits::has_bit;
use metric::{BAND_ROWS, Cell, Rect, WORD_CELLS};

/// The first obstacle in a rectangle that has one, row by row.
pub fn first_obstacle<R: Rows>(rows: &mut R, rect: Rect) -> Cell
    requires rect { IsRectIn (R.cells rows.old) rect }
    requires some { HasObstacle (R.cells rows.old) rect }
    ensures first { IsFirstObstacle (R.cells rows.old) rect result }
    ensures rows { rows.new ≡ rows.old }
{
    'rows: for y in rect.y0..rect.y1 {
        if let Some(x) = first_in_row::<R>(rows, rect, y) {
            return Cell { x, y };
        }
    }
    Cell {
        x: rect.x0,
        y: rect.y0,
    }
}

/// The column of the first obstacle of a row of the rectangle; `None` if it has none.
fn first_in_row<R: Rows>(rows: &mut R, rect: Rect, y: u16) -> Option<u16>
    requires rect { IsRectIn (R.cells rows.old) rect }
    requires bottom { y < rect.y1 }
    ensures some { IfSome result (IsFirstInRow (R.cells rows.old) rect y) }
    ensures none { result ≡ None → (a : ℕ) → rect.x0 ≤ a → a < rect.x1
        → IsObstacle (R.cells rows.old) a y → ⊥ }
    ensures rows { rows.new ≡ rows.old }
{
    if !has_bit(rows.bands(), y / BAND_ROWS) {
        return None;
    }
    let (first, last) = (rect.x0 / WORD_CELLS, (rect.x1 - 1) / WORD_CELLS);
    'words: for tile in first..last + 1 {
        let word = rows.word(y, usize::from(tile));
        if let Some(x) = first_in_word(word, tile, rect) {
            return Some(x);
        }
    }
    None
}

/// The column of the first of a word's obstacles that is in the rectangle's columns.
#[inline(always)]
fn first_in_word(word: u64, tile: u16, rect: Rect) -> Option<u16>
    requires { tile < 64 }
    ensures some { IfSome result (IsFirstInWord rect tile word) }
    ensures none { result ≡ None → (a : ℕ) → rect.x0 ≤ a → a < rect.x1 → a / WORD_CELLS ≡ tile
        → bit_at word (a % WORD_CELLS) ≡ 1 → ⊥ }
{
    let right = parts_of(word, tile, rect.x0).1;
    if right == 0 {
        return None;
    }
    let x = WORD_CELLS * tile + lowest_bit(right);
    (x < rect.x1).then_some(x)
}
