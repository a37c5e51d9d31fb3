//! The calls that make the cells of a rectangle obstacles, or free.

ghost use Rattle.std.specs.Prelude.{◌≡◌, ◌≢◌, ℕ, ◌+◌, ◌/◌, ◌<◌, ◌≤◌, ◌&&◌, true, false, IfErr};
ghost use Rattle.std.specs.Prelude.{IfOk};
ghost use Rattle.bits.specs.Cells.{with_rect};
ghost use Rattle.bits.specs.Words.{words_across};
ghost use Rattle.libclearmap.specs.Layouts.{cells_of_bits, is_counted, is_tile_counted};
ghost use Rattle.libclearmap.specs.Paints.{IsChangedTo};
ghost use Rattle.libclearmap.specs.Statuses.{bits_status, first_wrong, rect_status};

use crate::bit_rows::BitRows;
use crate::bit_span::write_span;
use crate::layout::ClearmapBits;
use crate::search::Corners;
use crate::shown::{show_band, show_tiles};
use crate::status::{DONE, OUTSIDE};
use metric::{BAND_ROWS, Rect, WORD_CELLS};

/// Makes the cells in columns `x0` to `x1 - 1` and rows `y0` to `y1 - 1` obstacles; all others stay
/// as they are. No band and no tile with such a cell is said to be blank any more.
#[unsafe(no_mangle)]
pub extern "C" fn clearmap_paint(
    words: &mut [u64],
    map: &mut ClearmapBits,
    x0: u32,
    y0: u32,
    x1: u32,
    y1: u32,
) -> u32
    ensures painted { result ≡ DONE → IsChangedTo map.old words.old map.new words.new
        (with_rect (cells_of_bits map.old words.old) x0 y0 x1 y1 true) }
    ensures status { result ≡ first_wrong (bits_status map.old words.old)
        (rect_status (cells_of_bits map.old words.old) x0 y0 x1 y1) }
    ensures refused { result ≢ DONE → words.new ≡ words.old }
    ensures kept { result ≢ DONE → map.new ≡ map.old }
{
    match rect_in(words, map, Corners { x0, y0, x1, y1 }) {
        Ok(rect) => {
            paint_rows(words, map, rect);
            DONE
        }
        Err(status) => status,
    }
}

/// Makes the cells in columns `x0` to `x1 - 1` and rows `y0` to `y1 - 1` free; all others stay as
/// they are, and so do marks.
#[unsafe(no_mangle)]
pub extern "C" fn clearmap_clear(
    words: &mut [u64],
    map: &ClearmapBits,
    x0: u32,
    y0: u32,
    x1: u32,
    y1: u32,
) -> u32
    ensures cleared { result ≡ DONE → IsChangedTo map.now words.old map.now words.new
        (with_rect (cells_of_bits map.now words.old) x0 y0 x1 y1 false) }
    ensures status { result ≡ first_wrong (bits_status map.now words.old)
        (rect_status (cells_of_bits map.now words.old) x0 y0 x1 y1) }
    ensures refused { result ≢ DONE → words.new ≡ words.old }
{
    match rect_in(words, map, Corners { x0, y0, x1, y1 }) {
        Ok(rect) => {
            clear_rows(words, map, rect);
            DONE
        }
        Err(status) => status,
    }
}

/// The rectangle of these corners in a map, or the status of what is wrong.
fn rect_in(words: &[u64], map: &ClearmapBits, corners: Corners) -> Result<Rect, u32>
    ensures right { IfOk result (λ _. bits_status map.now words.now ≡ DONE) }
    ensures rect { IfOk result (λ rect. (rect.x0 ≡ corners.x0) × (rect.y0 ≡ corners.y0)
        × (rect.x1 ≡ corners.x1) × (rect.y1 ≡ corners.y1)) }
    ensures within { IfOk result (λ _. rect_status (cells_of_bits map.now words.now) corners.x0
        corners.y0 corners.x1 corners.y1 ≡ DONE) }
    ensures wrong { IfErr result (λ status. status ≡ first_wrong (bits_status map.now words.now)
        (rect_status (cells_of_bits map.now words.now) corners.x0 corners.y0 corners.x1
        corners.y1)) }
    ensures some { IfErr result (λ status. status ≢ DONE) }
{
    let _rows = BitRows::of(words, map)?;
    let Corners { x0, y0, x1, y1 } = corners;
    if x1 <= x0 || map.width < x1 || y1 <= y0 || map.height < y1 {
        return Err(OUTSIDE);
    }
    Ok(Rect {
        x0: x0 as u16,
        y0: y0 as u16,
        x1: x1 as u16,
        y1: y1 as u16,
    })
}

/// Makes the cells of a rectangle obstacles.
fn paint_rows(words: &mut [u64], map: &mut ClearmapBits, rect: Rect)
    requires right { bits_status map.old words.old ≡ DONE }
    requires columns { rect.x1 ≤ map.old.width }
    requires rows { rect.y1 ≤ map.old.height }
    ensures { IsChangedTo map.old words.old map.new words.new
        (with_rect (cells_of_bits map.old words.old) rect.x0 rect.y0 rect.x1 rect.y1 true) }
{
    'rows: for y in rect.y0..rect.y1 {
        paint_row(words, map, y, rect.x0, rect.x1);
    }
}

/// Makes the cells of a rectangle free.
fn clear_rows(words: &mut [u64], map: &ClearmapBits, rect: Rect)
    requires right { bits_status map.now words.old ≡ DONE }
    requires columns { rect.x1 ≤ map.now.width }
    requires rows { rect.y1 ≤ map.now.height }
    ensures { IsChangedTo map.now words.old map.now words.new
        (with_rect (cells_of_bits map.now words.old) rect.x0 rect.y0 rect.x1 rect.y1 false) }
{
    'rows: for y in rect.y0..rect.y1 {
        write_row(words, map, y, rect.x0, rect.x1, false);
    }
}

/// Makes the cells in columns `x0` to `x1 - 1` of row `y` obstacles.
fn paint_row(words: &mut [u64], map: &mut ClearmapBits, y: u16, x0: u16, x1: u16)
    requires right { bits_status map.old words.old ≡ DONE }
    requires row { y < map.old.height }
    requires some { x0 < x1 }
    requires columns { x1 ≤ map.old.width }
    ensures { IsChangedTo map.old words.old map.new words.new
        (with_rect (cells_of_bits map.old words.old) x0 y x1 (y + 1) true) }
{
    let band = y / BAND_ROWS;
    show_band(words, map, band);
    show_tiles(words, map, band, x0 / WORD_CELLS, (x1 - 1) / WORD_CELLS);
    write_row(words, map, y, x0, x1, true);
}

/// Makes the cells in columns `x0` to `x1 - 1` of row `y` obstacles, or free. Obstacles have no
/// mark.
fn write_row(words: &mut [u64], map: &ClearmapBits, y: u16, x0: u16, x1: u16, value: bool)
    requires right { bits_status map.now words.old ≡ DONE }
    requires row { y < map.now.height }
    requires some { x0 < x1 }
    requires columns { x1 ≤ map.now.width }
    requires shown { (x : ℕ) → value ≡ true → x0 ≤ x → x < x1
        → (is_tile_counted map.now.tiles words.old x y && is_counted map.now.blank_bands y)
        ≡ true }
    ensures { IsChangedTo map.now words.old map.now words.new
        (with_rect (cells_of_bits map.now words.old) x0 y x1 (y + 1) value) }
{
    write_span(words, usize::from(y) * map.stride, x0, x1, value);
}
