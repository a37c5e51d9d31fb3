//! Maps that come in and go out: images that are read for one query, and dumps.

use crate::digest::Digest;
use crate::image::{Image, rooms};
use crate::random::Random;
use crate::script::Script;
use crate::served::{Turn, take_turns};
use crate::size::Size;
use crate::tables::take_table;
use command_line::DistOptions;
use field::Workers;
use metric::{Edge, MetricKind};
use std::alloc::{AllocError, Global};
use std::io;
use std::sync::Wait;
use std::thread::Threads;

/// The query of each image.
const QUERY: DistOptions<'static> = DistOptions {
    metric: MetricKind::Euclid2,
    edge: Edge::Open,
    nearest: false,
    query: Some("AT euclid2 100 100"),
    workers: Workers { count: 1 },
};

/// The eight digits of a byte.
fn digits_of(byte: u8) -> [u8; 8] {
    let mut digits = [b'0'; 8];
    for (place, digit) in digits.iter_mut().enumerate() {
        if (byte >> (7 - place % 8)) & 1 == 1 {
            *digit = b'1';
        }
    }
    digits
}

/// The digits of each byte.
fn all_digits(alloc: Global) -> Result<Vec<[u8; 8]>, AllocError> {
    let mut all = Vec::new(alloc);
    for byte in 0..=255u8 {
        all.push(digits_of(byte))?;
    }
    Ok(all)
}

/// The same map as a plain image, in lines of 64 digits.
fn plain(alloc: Global, image: &Image) -> Result<Vec<u8>, AllocError> {
    let all = all_digits(alloc)?;
    let header = format!(in alloc; "P1\n{} {}", image.side, image.side)?;
    let rows = image.rows();
    let mut text = Vec::with_capacity(alloc, rows.len().saturating_mul(10))?;
    text.extend_from_slice(header.as_bytes())?;
    for (place, byte) in rows.iter().enumerate() {
        if place % 8 == 0 {
            text.push(b'\n')?;
        }
        if let Some(digits) = all.get(usize::from(*byte)) {
            text.extend_from_slice(digits)?;
        }
    }
    text.push(b'\n')?;
    Ok(text)
}

/// Changes some digits of a plain image.
fn change(text: &mut [u8], random: &mut Random) {
    for _ in 0..100 {
        let place = random.below(16_000_000) as usize;
        if let Some(digit) = text.get_mut(place.saturating_add(20))
            && *digit == b'0'
        {
            *digit = b'1';
        }
    }
}

/// The lines that paint a box, publish it, and dump the version, this many times.
fn dumps(alloc: Global, side: u16, count: u32, random: &mut Random) -> io::Result<Turn> {
    let mut script = Script::new(alloc, side);
    for _ in 0..count {
        let most = script.side.saturating_sub(8);
        let (x, y) = (random.below(most), random.below(most));
        script.put(b"PAINT")?;
        script.number(x)?;
        script.number(y)?;
        script.number(x.saturating_add(8))?;
        script.number(y.saturating_add(8))?;
        script.put(b"\nPUBLISH\nCOLLECT\nPIN\nDUMP\nUNPIN\n")?;
    }
    Ok(Turn {
        session: 0,
        lines: script.text,
    })
}

/// Raw images, plain ones, and dumps of a large floor plan.
pub fn run<R: Wait + Threads + Sync>(
    rt: &R,
    alloc: Global,
    size: Size,
    random: &mut Random,
) -> io::Result<u64> {
    let mut digest = Digest::new();
    let mut image = rooms(alloc, size.large, random)?;
    for _ in 0..size.count(100) {
        image.draw_some_box(random);
        take_table(rt, alloc, &QUERY, image.bytes.as_slice(), &mut digest);
    }
    let mut text = plain(alloc, &image)?;
    for _ in 0..size.count(20) {
        change(text.as_mut_slice(), random);
        take_table(rt, alloc, &QUERY, text.as_slice(), &mut digest);
    }
    let turn = dumps(alloc, size.large, size.count(50), random)?;
    take_turns(rt, alloc, &image, &[turn], &mut digest)?;
    Ok(digest.value())
}
