//! Images written row by row from words, compared with the same texts assembled pixel by pixel.

use crate::compare::same;
use crate::draws::Draws;
use bits::Bitmap;
use metric::Cell;
use pbm::{write_plain, write_raw};
use std::alloc::{AllocError, Global};
use std::test::Fail;

/// Widths at the edges of bytes, words and lines of 70 digits.
const WIDTHS: [u16; 12] = [1, 7, 8, 9, 63, 64, 65, 69, 70, 71, 140, 4096];

/// Whether this cell of the bitmap is an obstacle.
fn is_obstacle(bitmap: &Bitmap, x: u16, y: u16) -> bool {
    let cell = Cell { x, y };
    bitmap.holds(cell) && bitmap.get(cell)
}

/// The front of an image: its magic number and its size.
fn front(alloc: Global, magic: &[u8], bitmap: &Bitmap) -> Result<Vec<u8>, AllocError> {
    let (width, height) = (bitmap.width(), bitmap.height());
    let size = format!(in alloc; "{width} {height}\n")?;
    let mut text = Vec::new(alloc);
    text.extend_from_slice(magic)?;
    text.extend_from_slice(size.as_bytes())?;
    Ok(text)
}

/// The bitmap in the plain form, pixel by pixel.
fn plain(alloc: Global, bitmap: &Bitmap) -> Result<Vec<u8>, AllocError> {
    let mut text = front(alloc, b"P1\n", bitmap)?;
    let width = bitmap.width();
    for y in 0..bitmap.height() {
        for x in 0..width {
            text.push(if is_obstacle(bitmap, x, y) {
                b'1'
            } else {
                b'0'
            })?;
            if x % 70 == 69 || x == width - 1 {
                text.push(b'\n')?;
            }
        }
    }
    Ok(text)
}

/// The bitmap in the raw form, pixel by pixel.
fn raw(alloc: Global, bitmap: &Bitmap) -> Result<Vec<u8>, AllocError> {
    let mut text = front(alloc, b"P4\n", bitmap)?;
    let width = bitmap.width();
    for y in 0..bitmap.height() {
        let mut byte = 0u8;
        for x in 0..width {
            if is_obstacle(bitmap, x, y) {
                byte |= 0x80 >> (x % 8);
            }
            if x % 8 == 7 || x == width - 1 {
                text.push(byte)?;
                byte = 0;
            }
        }
    }
    Ok(text)
}

#[test]
fn words_are_written_as_pixels(rt: HostRuntime) -> Result<(), Fail> {
    let mut draws = Draws::new(20261126);
    for width in WIDTHS {
        assert!(rt; 1 <= width && width <= 4096);
        for rare in [1, 2, 3, 1000] {
            let bitmap = draws.map(rt.alloc(), width, 3, rare)?;
            let mut text = Vec::new(rt.alloc());
            write_plain(&bitmap, &mut text)?;
            let want = plain(rt.alloc(), &bitmap)?;
            same(
                &rt,
                text.as_slice(),
                want.as_slice(),
                ("plain", width, rare),
            );
            let mut bytes = Vec::new(rt.alloc());
            write_raw(&bitmap, &mut bytes)?;
            let want = raw(rt.alloc(), &bitmap)?;
            same(&rt, bytes.as_slice(), want.as_slice(), ("raw", width, rare));
        }
    }
    Ok(())
}
