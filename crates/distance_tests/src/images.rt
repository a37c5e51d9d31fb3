//! Images: that those from outside are read, and that the clauses name the right fault.

use crate::compare::{holds, same};
use bits::Bitmap;
use metric::{Cell, PbmFault};
use pbm::{read_image, write_plain, write_raw};
use std::test::Fail;

/// An image, its sides, its obstacles and how many bytes it takes.
const IMAGES: [(&[u8], u16, u16, &[(u16, u16)], usize); 15] = [
    (b"P1\n3 2\n100\n000\n", 3, 2, &[(0, 0)], 14),
    (b"P1\n3 2\n000\n000\n", 3, 2, &[], 14),
    (b"P1 002 2 1 0\n\t01 #", 2, 2, &[(0, 0), (1, 1)], 16),
    (b"P1\r2\t1 01", 2, 1, &[(1, 0)], 9),
    (b"P1 1 2 \n01\nP1 1 1 1", 1, 2, &[(0, 1)], 10),
    (b"P1 1 1 1", 1, 1, &[(0, 0)], 8),
    (
        b"P1\n# made by hand\n3 1\n101 anything",
        3,
        1,
        &[(0, 0), (2, 0)],
        25,
    ),
    (b"P1\n#a\n#b\n2 1\n01", 2, 1, &[(1, 0)], 15),
    (b"P1 #a\r2 1 10", 2, 1, &[(0, 0)], 12),
    (b"P1 2 1 1 #x\n0", 2, 1, &[(0, 0)], 13),
    (b"P4\n10 1\n\x80\x7f", 10, 1, &[(0, 0), (9, 0)], 10),
    (b"P4 8 1 #", 8, 1, &[(2, 0), (6, 0), (7, 0)], 8),
    (b"P4 8 1 \n", 8, 1, &[(4, 0), (6, 0)], 8),
    (b"P4 #c\n8 1\n\x01", 8, 1, &[(7, 0)], 11),
    (b"P4 3 2 \x9f\x20junk", 3, 2, &[(0, 0), (2, 1)], 9),
];

/// Bytes, and the first fault in them.
const FAULTS: [(&[u8], PbmFault); 43] = [
    (b"", PbmFault::Truncated),
    (b"P", PbmFault::Truncated),
    (b"P1", PbmFault::Truncated),
    (b"X", PbmFault::BadMagic),
    (b"P3 1 1 1", PbmFault::BadMagic),
    (b"P2 ", PbmFault::BadMagic),
    (b"P1x", PbmFault::MissingSpace),
    (b"P1\x0b1 1 1", PbmFault::MissingSpace),
    (b"P1#c\n1 1 1", PbmFault::BadComment),
    (b"P1\nx", PbmFault::BadNumber),
    (b"P1\n0", PbmFault::ZeroSize),
    (b"P1\n0 1\n", PbmFault::ZeroSize),
    (b"P1\n4096", PbmFault::Truncated),
    (b"P1\n4097", PbmFault::TooLarge),
    (b"P1\n1 4097\n", PbmFault::TooLarge),
    (
        b"P1\n100000000000000000000000000000 0\n",
        PbmFault::TooLarge,
    ),
    (b"P1\n3#c\n1\n000", PbmFault::BadComment),
    (b"P1 2 1 1#0", PbmFault::BadComment),
    (b"P1 2 1 1\n#0", PbmFault::Truncated),
    (b"P1 2 1 1x", PbmFault::BadPixel),
    (b"P1 2 1 1", PbmFault::Truncated),
    (b"P1 2 1 1 ", PbmFault::Truncated),
    (b"P1\n1 1\n11", PbmFault::JunkNotSpaced),
    (b"P1 1 1 1#", PbmFault::JunkNotSpaced),
    (b"P1 1 1x1", PbmFault::MissingSpace),
    (b"P1 1 1", PbmFault::Truncated),
    (b"P1\n#", PbmFault::Truncated),
    (b"P1\n#c", PbmFault::Truncated),
    (b"P1\n#c\n", PbmFault::Truncated),
    (b"P1\n1 1\n#c\nx", PbmFault::BadPixel),
    (b"P1\n1 1#c\n1", PbmFault::BadComment),
    (b"P4", PbmFault::Truncated),
    (b"P4#c\n1 1\n\x80", PbmFault::BadComment),
    (b"P4x", PbmFault::MissingSpace),
    (b"P4\n\x0b8 1\n\x80", PbmFault::BadNumber),
    (b"P4\n0 1\n\x80", PbmFault::ZeroSize),
    (b"P4\n4097 1\n\x80", PbmFault::TooLarge),
    (b"P4\n8 1", PbmFault::Truncated),
    (b"P4\n8 1#\x80", PbmFault::BadComment),
    (b"P4\n8 1x\x80", PbmFault::MissingSpace),
    (b"P4\n8 1\n", PbmFault::Truncated),
    (b"P4\n8 2\n\x80", PbmFault::Truncated),
    (b"P4\n9 1\n\x80", PbmFault::Truncated),
];

/// Whether the bitmap has this size, and exactly these obstacles.
fn is_bitmap(bitmap: &Bitmap, width: u16, height: u16, obstacles: &[(u16, u16)]) -> bool {
    let mut is_same = bitmap.width() == width && bitmap.height() == height;
    for y in 0..height {
        for x in 0..width {
            let cell = Cell { x, y };
            let is_obstacle = bitmap.holds(cell) && bitmap.get(cell);
            is_same = is_same && is_obstacle == obstacles.contains(&(x, y));
        }
    }
    is_same
}

#[test]
fn images_are_read(rt: HostRuntime) {
    for (number, (bytes, width, height, obstacles, taken)) in IMAGES.iter().enumerate() {
        match read_image(rt.alloc(), bytes) {
            Ok((bitmap, count)) => {
                same(&rt, count, *taken, ("bytes taken of image", number));
                holds(
                    &rt,
                    is_bitmap(&bitmap, *width, *height, obstacles),
                    ("bitmap of image", number),
                );
            }
            Err(fault) => holds(&rt, false, ("image", number, fault)),
        }
    }
}

/// Images of 10 and of 25 bytes, no prefix of which is an image.
const WHOLE: [&[u8]; 2] = [b"P4\n10 1\n\x80\x7f", b"P1\n# made by hand\n3 1\n101"];

#[test]
fn fronts_are_truncated(rt: HostRuntime) {
    for image in WHOLE {
        for count in 0..image.len() {
            let fault = read_image(rt.alloc(), &image[..count]).err();
            same(&rt, fault, Some(PbmFault::Truncated), (image, count));
        }
        let read = read_image(rt.alloc(), image);
        holds(&rt, read.is_ok(), (image, "the whole image"));
    }
}

#[test]
fn faults_are_told(rt: HostRuntime) {
    for (number, (bytes, want)) in FAULTS.iter().enumerate() {
        let fault = read_image(rt.alloc(), bytes).err();
        same(&rt, fault, Some(*want), ("fault", number));
    }
}

/// An image, and its bitmap written in the plain and in the raw form.
const TEXTS: [(&[u8], &[u8], &[u8]); 5] = [
    (
        b"P4\n10 1\n\x80\x7f",
        b"P1\n10 1\n1000000001\n",
        b"P4\n10 1\n\x80\x40",
    ),
    (
        b"P1 3 2 100000",
        b"P1\n3 2\n100\n000\n",
        b"P4\n3 2\n\x80\x00",
    ),
    (b"P1 1 1 1", b"P1\n1 1\n1\n", b"P4\n1 1\n\x80"),
    (
        b"P4 71 1 \0\0\0\0\0\0\0\0\0",
        b"P1\n71 1\n0000000000000000000000000000000000000000000000000000000000000000000000\n0\n",
        b"P4\n71 1\n\0\0\0\0\0\0\0\0\0",
    ),
    (
        b"P4 70 1 \0\0\0\0\0\0\0\0\x07",
        b"P1\n70 1\n0000000000000000000000000000000000000000000000000000000000000000000001\n",
        b"P4\n70 1\n\0\0\0\0\0\0\0\0\x04",
    ),
];

#[test]
fn bitmaps_are_written(rt: HostRuntime) -> Result<(), Fail> {
    for (number, (bytes, plain, raw)) in TEXTS.iter().enumerate() {
        let (bitmap, _) = read_image(rt.alloc(), bytes)?;
        let mut out = Vec::new(rt.alloc());
        write_plain(&bitmap, &mut out)?;
        same(&rt, out.as_slice(), *plain, ("plain text", number));
        let length = out.len();
        write_raw(&bitmap, &mut out)?;
        assert!(rt; length <= out.len());
        same(&rt, &out[length..], *raw, ("raw text", number));
    }
    Ok(())
}
