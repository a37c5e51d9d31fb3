//! Bitmaps: that calls find memory, and the layout of cells at the edges of words.

use crate::compare::{holds, same};
use bits::Bitmap;
use metric::{Cell, Rect};
use std::test::Fail;

/// A width, how many words its rows take, and the first and the last word of a row whose first and
/// last cell are obstacles.
const ROWS: [(u16, usize, u64, u64); 5] = [
    (1, 1, 1, 1),
    (63, 1, 0x4000_0000_0000_0001, 0x4000_0000_0000_0001),
    (64, 1, 0x8000_0000_0000_0001, 0x8000_0000_0000_0001),
    (65, 2, 1, 1),
    (4096, 64, 1, 0x8000_0000_0000_0000),
];

#[test]
fn rows_lie_in_words(rt: HostRuntime) -> Result<(), Fail> {
    for (width, words, first, last) in ROWS {
        assert!(rt; 1 <= width && width <= 4096);
        let mut bitmap = Bitmap::blank(rt.alloc(), width, 3)?;
        holds(
            &rt,
            bitmap.row_words(1).iter().all(|word| *word == 0),
            ("width", width),
        );
        for x in [0, width - 1] {
            let cell = Cell { x, y: 1 };
            assert!(rt; bitmap.holds(cell));
            bitmap.set(cell, true);
            holds(&rt, bitmap.get(cell), ("width", width));
        }
        assert!(rt; bitmap.height() == 3);
        let row = bitmap.row_words(1);
        same(&rt, row.len(), words, ("width", width));
        same(&rt, row.first(), Some(&first), ("width", width));
        same(&rt, row.last(), Some(&last), ("width", width));
        holds(
            &rt,
            bitmap.row_words(0).iter().all(|word| *word == 0),
            ("width", width),
        );
        holds(
            &rt,
            bitmap.row_words(2).iter().all(|word| *word == 0),
            ("width", width),
        );
    }
    Ok(())
}

/// Rectangles as `(x0, y0, x1, y1)`, the value to fill them with, and how many cells change.
///
/// They are filled in order on a bitmap of 4 columns and 3 rows, whose only obstacle is (1, 1) at
/// first.
const FILLS: [((u16, u16, u16, u16), bool, u32); 5] = [
    ((0, 0, 3, 2), true, 5),
    ((0, 0, 3, 2), true, 0),
    ((1, 0, 4, 2), false, 4),
    ((3, 2, 4, 3), true, 1),
    ((0, 0, 4, 3), false, 3),
];

#[test]
fn fill_counts_what_changes(rt: HostRuntime) -> Result<(), Fail> {
    let mut bitmap = Bitmap::blank(rt.alloc(), 4, 3)?;
    bitmap.set(Cell { x: 1, y: 1 }, true);
    for ((x0, y0, x1, y1), black, changed) in FILLS {
        let rect = Rect::new(x0, y0, x1, y1).ok_or("a rectangle without cells")?;
        assert!(rt; bitmap.holds_rect(rect));
        same(&rt, bitmap.fill(rect, black), changed, (x0, y0, black));
    }
    Ok(())
}

#[test]
fn copies_are_apart(rt: HostRuntime) -> Result<(), Fail> {
    let mut bitmap = Bitmap::blank(rt.alloc(), 65, 2)?;
    let cell = Cell { x: 64, y: 1 };
    bitmap.set(cell, true);
    let copy = bitmap.try_copy(rt.alloc())?;
    bitmap.set(cell, false);
    same(
        &rt,
        (copy.width(), copy.height()),
        (65, 2),
        "width and height",
    );
    assert!(rt; copy.get(cell) && !bitmap.get(cell));
    Ok(())
}

/// A position, a row, and the row's word, on a bitmap of 70 columns and 66 rows with obstacles at
/// (0, 0), (63, 1) and (69, 65).
const TILE_ROWS: [(u16, u16, u64); 6] = [
    (0, 0, 1),
    (0, 1, 0x8000_0000_0000_0000),
    (1, 1, 0),
    (2, 1, 0),
    (3, 1, 32),
    (3, 2, 0),
];

#[test]
fn tile_rows_are_words(rt: HostRuntime) -> Result<(), Fail> {
    let mut bitmap = Bitmap::blank(rt.alloc(), 70, 66)?;
    for cell in [
        Cell { x: 0, y: 0 },
        Cell { x: 63, y: 1 },
        Cell { x: 69, y: 65 },
    ] {
        assert!(rt; bitmap.holds(cell));
        bitmap.set(cell, true);
    }
    assert!(rt; bitmap.tiles() == 4);
    for (position, row, word) in TILE_ROWS {
        assert!(rt; position < bitmap.tiles() && row < 64);
        same(
            &rt,
            bitmap.tile_row(position, row),
            word,
            ("tile, row", position, row),
        );
    }
    Ok(())
}

#[test]
fn stamps_are_laid(rt: HostRuntime) -> Result<(), Fail> {
    let mut bitmap = Bitmap::blank(rt.alloc(), 70, 3)?;
    let mut stamp = Bitmap::blank(rt.alloc(), 2, 2)?;
    let (first, last) = (Cell { x: 0, y: 0 }, Cell { x: 1, y: 1 });
    assert!(rt; stamp.holds(first) && stamp.holds(last));
    stamp.set(first, true);
    stamp.set(last, true);
    for (x, changed) in [(63, 2), (63, 0), (64, 3)] {
        assert!(rt; x <= 64 && bitmap.width() == 70 && bitmap.height() == 3);
        assert!(rt; stamp.width() == 2 && stamp.height() == 2);
        same(&rt, bitmap.stamp(x, 1, &stamp), changed, x);
    }
    Ok(())
}
