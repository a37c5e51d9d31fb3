//! The largest bitmap through each call, and stamps wider than a word.

use crate::compare::same;
use bits::Bitmap;
use metric::{Cell, Rect};
use std::test::Fail;

/// The last cell of the largest bitmap.
const LAST: Cell = Cell { x: 4095, y: 4095 };

#[test]
fn the_largest_bitmap(rt: HostRuntime) -> Result<(), Fail> {
    let mut bitmap = Bitmap::blank(rt.alloc(), 4096, 4096)?;
    assert!(rt; bitmap.holds(LAST));
    bitmap.set(LAST, true);
    same(&rt, bitmap.tiles(), 4096, "tiles");
    assert!(rt; 4095 < bitmap.tiles());
    same(&rt, bitmap.tile_row(4095, 63), 1 << 63, "tile row");
    let copy = bitmap.try_copy(rt.alloc())?;
    let all = Rect::new(0, 0, 4096, 4096).ok_or("a rectangle without cells")?;
    assert!(rt; bitmap.holds_rect(all));
    same(&rt, bitmap.fill(all, true), 16_777_215, "fill");
    assert!(rt; copy.width() == 4096 && copy.height() == 4096);
    assert!(rt; bitmap.width() == 4096 && bitmap.height() == 4096);
    same(
        &rt,
        bitmap.stamp(0, 0, &copy),
        16_777_215,
        "a stamp of the whole map",
    );
    same(&rt, bitmap.stamp(0, 0, &copy), 0, "the same stamp again");
    Ok(())
}

#[test]
fn a_stamp_wider_than_a_word(rt: HostRuntime) -> Result<(), Fail> {
    let mut bitmap = Bitmap::blank(rt.alloc(), 200, 100)?;
    let mut stamp = Bitmap::blank(rt.alloc(), 130, 70)?;
    let all = Rect::new(0, 0, 130, 70).ok_or("a rectangle without cells")?;
    assert!(rt; stamp.holds_rect(all));
    stamp.fill(all, true);
    for (x, y, changed) in [(3, 5, 9_100), (3, 5, 0), (70, 30, 9_100 - 63 * 45)] {
        assert!(rt; x <= 70 && bitmap.width() == 200 && stamp.width() == 130);
        assert!(rt; y <= 30 && bitmap.height() == 100 && stamp.height() == 70);
        same(&rt, bitmap.stamp(x, y, &stamp), changed, (x, y));
    }
    Ok(())
}
