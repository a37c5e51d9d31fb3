//! Parts of a tile, filled or laid on its words, and a tile written into a bitmap.

use crate::compare::{holds, same};
use bits::{Bitmap, TileBits};
use metric::{Cell, Rect};
use std::process::Abort;
use std::test::Fail;

/// Rectangles of a tile, and how many cells they have.
const PARTS: [([u16; 4], u32); 6] = [
    ([0, 0, 64, 64], 4096),
    ([0, 0, 1, 1], 1),
    ([63, 63, 64, 64], 1),
    ([0, 63, 64, 64], 64),
    ([63, 0, 64, 64], 64),
    ([31, 31, 33, 33], 4),
];

/// Fills a part of a tile, and returns whether it would change and how many cells did.
fn fill(rt: &impl Abort, words: &mut [u64; 64], corners: [u16; 4], black: bool) -> (bool, u32) {
    let [x0, y0, x1, y1] = corners;
    let part = Rect::new(x0, y0, x1, y1).expect(rt, "a rectangle");
    assert!(rt; part.x1 <= 64 && part.y1 <= 64);
    let would = TileBits::would_change(words, part, black);
    (would, TileBits::fill(words, part, black))
}

#[test]
fn parts_of_a_tile_are_filled(rt: HostRuntime) {
    for (corners, cells) in PARTS {
        let mut words = [0u64; 64];
        same(
            &rt,
            fill(&rt, &mut words, corners, false),
            (false, 0),
            "fill",
        );
        same(
            &rt,
            fill(&rt, &mut words, corners, true),
            (true, cells),
            "fill",
        );
        same(
            &rt,
            fill(&rt, &mut words, corners, true),
            (false, 0),
            "fill",
        );
        let whole = [0, 0, 64, 64];
        same(
            &rt,
            fill(&rt, &mut words, whole, false),
            (true, cells),
            "fill",
        );
    }
}

/// Parts of a tile, the cell of a bitmap of 130 by 70 obstacles that goes to their first cell, and
/// how many cells of a tile without obstacles change.
const LAID: [([u16; 4], (u16, u16), u32); 6] = [
    ([0, 0, 64, 64], (0, 0), 4096),
    ([3, 5, 64, 64], (0, 0), 61 * 59),
    ([0, 0, 64, 64], (100, 60), 300),
    ([10, 0, 64, 64], (120, 0), 640),
    ([63, 63, 64, 64], (63, 63), 1),
    ([0, 0, 64, 64], (130, 0), 0),
];

#[test]
fn parts_of_a_bitmap_are_laid(rt: HostRuntime) -> Result<(), Fail> {
    let mut stamp = Bitmap::blank(rt.alloc(), 130, 70)?;
    let all = Rect::new(0, 0, 130, 70).ok_or("a rectangle without cells")?;
    assert!(rt; stamp.holds_rect(all));
    stamp.fill(all, true);
    for ([x0, y0, x1, y1], (x, y), cells) in LAID {
        let part = Rect::new(x0, y0, x1, y1).ok_or("a rectangle without cells")?;
        assert!(rt; part.x1 <= 64 && part.y1 <= 64 && y <= 4096);
        let from = Cell { x, y };
        let mut words = [0u64; 64];
        same(
            &rt,
            TileBits::would_lay(&words, part, &stamp, from),
            0 < cells,
            "would lay",
        );
        same(
            &rt,
            TileBits::lay(&mut words, part, &stamp, from),
            cells,
            ("from", x, y),
        );
        same(
            &rt,
            TileBits::lay(&mut words, part, &stamp, from),
            0,
            "the same again",
        );
    }
    Ok(())
}

#[test]
fn the_last_tile_is_put(rt: HostRuntime) -> Result<(), Fail> {
    let mut bitmap = Bitmap::blank(rt.alloc(), 70, 66)?;
    assert!(rt; 3 < bitmap.tiles());
    bitmap.put_tile(3, &[u64::MAX; 64]);
    assert!(rt; 3 < bitmap.tiles());
    same(
        &rt,
        (bitmap.tile_row(3, 1), bitmap.tile_row(3, 2)),
        (63, 0),
        "tile row and tile row",
    );
    same(
        &rt,
        (bitmap.tile_row(1, 1), bitmap.tile_row(2, 1)),
        (0, 0),
        "tile row and tile row",
    );
    Ok(())
}
