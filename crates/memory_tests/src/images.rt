//! Images that find no memory: nothing is read, nothing is appended, and the retried call answers
//! what it would have.

use crate::compare::{holds, same};
use crate::told::{Call, begin, end};
use bits::Bitmap;
use memory_streams::MemorySource;
use metric::{Cell, NoMemory, PbmFault};
use pbm::{ImageStop, read_image, read_source, write_plain, write_raw};
use std::alloc::Global;
use std::process::Abort;
use std::test::Fail;

/// A plain image and a raw one of ten columns with an obstacle at either end, and how many bytes
/// each takes.
const IMAGES: [(&[u8], usize); 2] = [
    (b"P1\n10 1\n1000000001\n ", 18),
    (b"P4\n10 1\n\x80\x7f ", 10),
];

/// The content of a text before an image is appended.
const BEFORE: &[u8] = b"before ";

/// A writer of images, its name, and the text after an image is appended to it.
const WRITERS: [(bool, &str, &[u8]); 2] = [
    (false, "write_plain", b"before P1\n10 1\n1000000001\n"),
    (true, "write_raw", b"before P4\n10 1\n\x80\x40"),
];

/// Reads an image, and checks its cells.
fn read<R: Abort + Print>(
    rt: &R,
    alloc: Global,
    image: &[u8],
    taken: usize,
) -> Result<Bitmap, PbmFault> {
    let call: Call = ("pbm", "read_image");
    begin(rt, call);
    let first = read_image(alloc, image);
    end(rt, call, first.is_err());
    let (map, count) = match first {
        Ok(found) => found,
        Err(fault) => {
            same(rt, fault, PbmFault::Memory, "an image");
            read_image(alloc, image)?
        }
    };
    same(rt, count, taken, "bytes taken");
    same(rt, (map.width(), map.height()), (10, 1), "the size");
    'cells: for x in 0..10 {
        let cell = Cell { x, y: 0 };
        holds(rt, map.holds(cell), cell);
        same(rt, map.get(cell), x == 0 || x == 9, cell);
    }
    Ok(map)
}

/// Whether there was no memory for the bytes read of an image, or for its bitmap.
fn wants_memory(stop: ImageStop) -> bool {
    matches!(
        stop,
        ImageStop::Memory(_) | ImageStop::Fault(PbmFault::Memory)
    )
}

/// Reads an image from a source, and checks its size.
fn read_from_source<R: Abort + Print>(rt: &R, alloc: Global, image: &[u8]) {
    let call: Call = ("pbm", "read_source");
    begin(rt, call);
    let first = read_source(alloc, &mut MemorySource::new(image));
    end(rt, call, first.is_err());
    let found = match first {
        Ok(map) => Ok(map),
        Err(stop) => {
            holds(rt, wants_memory(stop), "a source");
            read_source(alloc, &mut MemorySource::new(image))
        }
    };
    match found {
        Ok(map) => same(rt, (map.width(), map.height()), (10, 1), "the size"),
        Err(_) => holds(rt, false, "a source again"),
    }
}

/// Appends an image.
fn append(map: &Bitmap, is_raw: bool, text: &mut Vec<u8>) -> Result<(), NoMemory> {
    if is_raw {
        write_raw(map, text)
    } else {
        write_plain(map, text)
    }
}

/// Appends an image to a text, and checks the whole text.
fn write<R: Abort + Print>(
    rt: &R,
    alloc: Global,
    map: &Bitmap,
    writer: (bool, &'static str, &[u8]),
) -> Result<(), Fail> {
    let (is_raw, name, want) = writer;
    let mut text = match Vec::from_slice(alloc, BEFORE) {
        Ok(text) => text,
        Err(_) => Vec::from_slice(alloc, BEFORE)?,
    };
    begin(rt, ("pbm", name));
    let first = append(map, is_raw, &mut text);
    end(rt, ("pbm", name), first.is_err());
    if first.is_err() {
        same(rt, text.as_slice(), BEFORE, name);
        append(map, is_raw, &mut text)?;
    }
    same(rt, text.as_slice(), want, name);
    Ok(())
}

#[test]
fn images_are_read_and_written_again(rt: HostRuntime) -> Result<(), Fail> {
    for (image, taken) in IMAGES {
        let map = read(&rt, rt.alloc(), image, taken)?;
        read_from_source(&rt, rt.alloc(), image);
        for writer in WRITERS {
            write(&rt, rt.alloc(), &map, writer)?;
        }
    }
    Ok(())
}
