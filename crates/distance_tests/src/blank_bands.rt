//! Which bands of 64 rows count as blank in a bitmap.

use crate::compare::same;
use bits::Bitmap;
use metric::Cell;
use std::test::Fail;

#[test]
fn bands_that_were_written(rt: HostRuntime) -> Result<(), Fail> {
    let mut bitmap = Bitmap::blank(rt.alloc(), 70, 300)?;
    same(&rt, bitmap.bands(), 0, "a blank bitmap");
    let mut words = [0; 64];
    bitmap.set_row(299, &words);
    bitmap.put_tile(9, &words);
    bitmap.set_word(299, 1, 0);
    bitmap.set(Cell { x: 69, y: 299 }, false);
    same(&rt, bitmap.bands(), 0, "blank words");
    words[1] = 1;
    bitmap.set_row(299, &words);
    same(&rt, bitmap.bands(), 16, "a row");
    bitmap.set_word(127, 0, 8);
    same(&rt, bitmap.bands(), 18, "and a word");
    bitmap.set(Cell { x: 69, y: 128 }, true);
    same(&rt, bitmap.bands(), 22, "and a cell");
    bitmap.put_tile(0, &words);
    same(&rt, bitmap.bands(), 23, "and a tile");
    let copy = bitmap.try_copy(rt.alloc())?;
    same(&rt, copy.bands(), 23, "a copy");
    bitmap.clear();
    same(&rt, bitmap.bands(), 0, "once it is cleared");
    assert!(rt; bitmap.width() == copy.width() && bitmap.height() == copy.height());
    bitmap.copy_from(&copy);
    same(&rt, bitmap.bands(), 23, "once it is the copy");
    Ok(())
}

#[test]
fn tiles_that_were_renewed(rt: HostRuntime) -> Result<(), Fail> {
    let mut renewed = Bitmap::blank(rt.alloc(), 130, 300)?;
    for y in 0..renewed.height() {
        if y < renewed.height() {
            renewed.set_row(y, &[u64::MAX; 64]);
        }
    }
    let mut put = Bitmap::blank(rt.alloc(), 130, 300)?;
    let mut words = [0; 64];
    for position in 0..put.tiles() {
        if position < renewed.tiles() && position < put.tiles() {
            words[9] = if position % 5 == 4 { 6 } else { 0 };
            renewed.renew_tile(position, &words);
            put.put_tile(position, &words);
        }
    }
    same(&rt, renewed.bands(), 0b11010, "the bands");
    same(
        &rt,
        put.bands(),
        0b11010,
        "the bands of tiles that were put",
    );
    for band in 0..64 {
        let (marked, want) = (renewed.marked_tiles(band), put.marked_tiles(band));
        same(&rt, marked, want, band);
    }
    for y in 0..renewed.height().min(put.height()) {
        same(&rt, renewed.row_words(y), put.row_words(y), y);
    }
    Ok(())
}
