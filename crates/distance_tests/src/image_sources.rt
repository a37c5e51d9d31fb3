//! Images read from sources: more bytes than a window takes at once, gaps across its end, failed
//! reads, and what is left.

use crate::compare::{holds, same};
use bits::Bitmap;
use memory_streams::MemorySource;
use metric::{Cell, PbmFault, Source};
use pbm::{ImageStop, read_image, read_source};
use std::alloc::Global;
use std::test::Fail;

/// The side of a plain image whose bytes don't fit a window.
const SIDE: usize = 300;

/// How many pixels fit before the end of the first window, with nothing between them.
const BEFORE: usize = 65_525;

/// A plain image of 300 by 300, every third pixel black, with these bytes before one of its pixels,
/// repeated `times` times.
fn image_with(alloc: Global, gap: &[u8], times: usize, before: usize) -> Result<Vec<u8>, Fail> {
    let mut text = Vec::new(alloc);
    text.extend_from_slice(b"P1 300 300 ")?;
    for place in 0..SIDE * SIDE {
        if place == before {
            for _ in 0..times {
                text.extend_from_slice(gap)?;
            }
        }
        text.push(if place % 3 == 0 { b'1' } else { b'0' })?;
    }
    Ok(text)
}

/// Whether the bitmap is that of such an image.
fn is_striped(bitmap: &Bitmap) -> bool {
    if usize::from(bitmap.width()) != SIDE || usize::from(bitmap.height()) != SIDE {
        return false;
    }
    for y in 0..bitmap.height() {
        for x in 0..bitmap.width() {
            let cell = Cell { x, y };
            let place = u32::from(y) * 300 + u32::from(x);
            if !bitmap.holds(cell) || bitmap.get(cell) != (place % 3 == 0) {
                return false;
            }
        }
    }
    true
}

/// What may stand between two pixels, and how often.
const GAPS: [(&[u8], usize); 5] = [
    (b"", 0),
    (b"\n", 1),
    (b" #1\r\t", 1),
    (b" ", 70_000),
    (b" #0101\n", 20_000),
];

#[test]
fn gaps_stand_across_a_window(rt: HostRuntime) -> Result<(), Fail> {
    for (gap, times) in GAPS {
        for before in BEFORE - 2..BEFORE + 2 {
            let text = image_with(rt.alloc(), gap, times, before)?;
            let mut source = MemorySource::new(&text);
            match read_source(rt.alloc(), &mut source) {
                Ok(bitmap) => holds(&rt, is_striped(&bitmap), ("pixels", times, before)),
                Err(stop) => same(&rt, Some(stop), None, ("a fault", times, before)),
            }
            same(&rt, source.left().len(), 0, ("left", times, before));
        }
    }
    Ok(())
}

/// What may not stand between two pixels, and its fault.
const SPOILT: [(&[u8], PbmFault); 3] = [
    (b"2", PbmFault::BadPixel),
    (b"#\n", PbmFault::BadComment),
    (b" #", PbmFault::Truncated),
];

#[test]
fn faults_are_met_across_a_window(rt: HostRuntime) -> Result<(), Fail> {
    for (bytes, fault) in SPOILT {
        for before in BEFORE - 2..BEFORE + 2 {
            let text = image_with(rt.alloc(), bytes, 1, before)?;
            let mut source = MemorySource::new(&text);
            let stop = read_source(rt.alloc(), &mut source).err();
            same(
                &rt,
                stop,
                Some(ImageStop::Fault(fault)),
                ("a fault", before),
            );
            same(&rt, source.left().len(), 0, ("left", before));
        }
    }
    Ok(())
}

/// Images with what follows them, and faults.
const SMALL: [&[u8]; 10] = [
    b"P1\n# made by hand\n3 1\n101 anything",
    b"P1 002 2 1 0\n\t01 #",
    b"P4\n10 1\n\x80\x7f",
    b"P4 3 2 \x9f\x20junk",
    b"P1\n1 1\n11",
    b"P1\n2 1\n1x 0",
    b"P4\n8 2\n\xff",
    b"P1\n0 1\n0",
    b"GIF89a",
    b"",
];

#[test]
fn a_source_is_read_as_bytes_in_memory(rt: HostRuntime) {
    for bytes in SMALL {
        let mut source = MemorySource::new(bytes);
        let found = read_source(rt.alloc(), &mut source);
        same(&rt, source.left().len(), 0, "left");
        match (found, read_image(rt.alloc(), bytes)) {
            (Ok(one), Ok((other, _))) => {
                same(&rt, one.height(), other.height(), "height");
                holds(&rt, one.row_words(0) == other.row_words(0), "row");
            }
            (one, other) => same(&rt, one.err(), other.err().map(ImageStop::Fault), "fault"),
        }
    }
}

#[test]
fn a_failed_read_stops_the_reading(rt: HostRuntime) {
    for bytes in SMALL {
        let reads = bytes.len() as u64 + 1;
        for k in 1..reads + 1 {
            let mut source = MemorySource::new(bytes).failing_at(k);
            let stop = read_source(rt.alloc(), &mut source).err();
            same(&rt, stop, Some(ImageStop::Failed), ("read", k));
            same(&rt, source.failed_reads(), 1, ("failed", k));
        }
    }
}

/// A raw image of ten columns, with this many bytes after it.
fn raw_image_before(alloc: Global, after: usize) -> Result<Vec<u8>, Fail> {
    let mut text = Vec::new(alloc);
    text.extend_from_slice(b"P4 10 1 \x80\x7f")?;
    for _ in 0..after {
        text.push(b'#')?;
    }
    Ok(text)
}

/// How many bytes stand after a raw image: up to a block, and more.
const AFTER: [usize; 4] = [0, 1, 65_536, 200_000];

#[test]
fn what_follows_a_raw_image_is_read(rt: HostRuntime) -> Result<(), Fail> {
    for after in AFTER {
        let text = raw_image_before(rt.alloc(), after)?;
        let mut source = MemorySource::new(&text);
        match read_source(rt.alloc(), &mut source) {
            Ok(bitmap) => holds(
                &rt,
                bitmap.row_words(0) == [0x201].as_slice(),
                ("row", after),
            ),
            Err(stop) => same(&rt, Some(stop), None, ("a fault", after)),
        }
        same(&rt, source.left().len(), 0, ("left", after));
    }
    Ok(())
}

/// How many bytes are read of such an image before a read fails: in its header, in its row, and
/// after it.
const READ: [usize; 6] = [0, 5, 9, 10, 100_000, 200_010];

#[test]
fn a_read_fails_after_a_raw_image(rt: HostRuntime) -> Result<(), Fail> {
    let text = raw_image_before(rt.alloc(), 200_000)?;
    for read in READ {
        let mut source = MemorySource::new(&text).failing_at(read as u64 + 1);
        let stop = read_source(rt.alloc(), &mut source).err();
        same(&rt, stop, Some(ImageStop::Failed), ("read", read));
        same(&rt, source.failed_reads(), 1, ("failed", read));
        let left = text.len().saturating_sub(read);
        same(&rt, source.left().len(), left, ("left", read));
    }
    Ok(())
}
