//! Images at the limits: the largest, heights where an implementation might give up, and gaps at
//! each place of a row.

use crate::compare::{holds, same};
use bits::Bitmap;
use metric::{Cell, PbmFault};
use pbm::{read_image, write_plain, write_raw};
use std::alloc::Global;
use std::process::Abort;
use std::test::Fail;

/// The largest sides one by one and together, heights around 32, and widths at the edges of bytes,
/// words and lines.
const SIZES: [(u16, u16); 10] = [
    (7, 3),
    (9, 2),
    (64, 1),
    (141, 2),
    (4096, 4096),
    (4096, 1),
    (1, 4096),
    (2, 32),
    (2, 33),
    (65, 4096),
];

/// A bitmap of this size with obstacles in slanted lines, in its last column and in its last row.
fn slanted(rt: &impl Abort, alloc: Global, width: u16, height: u16) -> Result<Bitmap, Fail> {
    assert!(rt; 1 <= width && width <= 4096 && 1 <= height && height <= 4096);
    let mut bitmap = Bitmap::blank(alloc, width, height)?;
    for y in 0..height {
        for x in 0..width {
            let cell = Cell { x, y };
            let line = (u32::from(x) + 3 * u32::from(y)) % 11 == 0;
            if (line || x == width - 1 || y == height - 1) && bitmap.holds(cell) {
                bitmap.set(cell, true);
            }
        }
    }
    Ok(bitmap)
}

/// Whether the two have the same size and the same obstacles.
fn are_same(one: &Bitmap, other: &Bitmap) -> bool {
    if one.width() != other.width() || one.height() != other.height() {
        return false;
    }
    for y in 0..one.height() {
        if y >= other.height() || one.row_words(y) != other.row_words(y) {
            return false;
        }
    }
    true
}

#[test]
fn the_largest_images_are_read(rt: HostRuntime) -> Result<(), Fail> {
    for (width, height) in SIZES {
        let bitmap = slanted(&rt, rt.alloc(), width, height)?;
        let mut text = Vec::new(rt.alloc());
        write_plain(&bitmap, &mut text)?;
        let (again, taken) = read_image(rt.alloc(), &text)?;
        holds(&rt, are_same(&again, &bitmap), ("plain", width, height));
        same(&rt, taken.saturating_add(1), text.len(), "saturating add");
        text.clear();
        write_raw(&bitmap, &mut text)?;
        let (again, taken) = read_image(rt.alloc(), &text)?;
        holds(&rt, are_same(&again, &bitmap), ("raw", width, height));
        same(&rt, taken, text.len(), "taken");
        assert!(rt; 0 < text.len());
        let short = read_image(rt.alloc(), &text[..text.len() - 1]);
        same(&rt, short.err(), Some(PbmFault::Truncated), "err");
    }
    Ok(())
}

/// The digits of one row of 140 pixels, every third of them black, with these bytes after the first
/// `before`.
fn digits_with(alloc: Global, gap: &[u8], before: usize) -> Result<Vec<u8>, Fail> {
    let mut text = Vec::new(alloc);
    text.extend_from_slice(b"P1 140 1 ")?;
    for place in 0..140usize {
        if place == before {
            text.extend_from_slice(gap)?;
        }
        text.push(if place % 3 == 0 { b'1' } else { b'0' })?;
    }
    Ok(text)
}

#[test]
fn gaps_stand_after_each_pixel(rt: HostRuntime) -> Result<(), Fail> {
    let (plain, _) = read_image(rt.alloc(), &digits_with(rt.alloc(), b"", 0)?)?;
    for before in 0..140usize {
        let gap = if before % 2 == 0 {
            b"\n".as_slice()
        } else {
            b" #1\r\t".as_slice()
        };
        let text = digits_with(rt.alloc(), gap, before)?;
        let (again, taken) = read_image(rt.alloc(), &text)?;
        holds(&rt, are_same(&again, &plain), ("a gap after", before));
        same(&rt, taken, text.len(), "taken");
        let spoilt = digits_with(rt.alloc(), b"2", before)?;
        let fault = read_image(rt.alloc(), &spoilt).err();
        same(&rt, fault, Some(PbmFault::BadPixel), ("a 2 after", before));
    }
    Ok(())
}
