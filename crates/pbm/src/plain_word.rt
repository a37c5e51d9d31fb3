//! The pixels of a plain raster, up to 64 as a word.

ghost use Rattle.std.specs.Prelude.{◌≡◌, ℕ, ◌<◌, ◌≤◌, ◌==◌, cond, slice_index_or, Ok, Err};
ghost use Rattle.std.specs.Prelude.{MatchResult};
ghost use Rattle.std.specs.Int.{bit_at};
ghost use Rattle.pbm.specs.Faults.{next_pixel, pixel_at, pixels};
ghost use Rattle.pbm.specs.Plain.{AreBitsRead, AreDigits, AreSomeRead, behind_space};

use crate::gap::{after_filling, is_whitespace};
use metric::PbmFault;
use std::simd::prelude::*;

/// Bytes compared in one vector.
const LANES: usize = 64;

/// Whether the pixel at the front is black, and the bytes after it.
fn read_pixel(bytes: &[u8]) -> Result<(bool, &[u8]), PbmFault>
    ensures { MatchResult result (λ found. pixel_at bytes.now ≡ Ok (found.0, found.1.now))
        (λ fault. pixel_at bytes.now ≡ Err fault) }
{
    match bytes {
        [] => Err(PbmFault::Truncated),
        [b'0', rest @ ..] => Ok((false, rest)),
        [b'1', rest @ ..] => Ok((true, rest)),
        _ => Err(PbmFault::BadPixel),
    }
}

/// As `read_pixel`, of the next pixel, with or without a gap before it.
#[tactic(auto, unfolding(crate::specs::Faults::next_pixel))]
fn read_next(bytes: &[u8]) -> Result<(bool, &[u8]), PbmFault>
    ensures { MatchResult result (λ found. next_pixel bytes.now ≡ Ok (found.0, found.1.now))
        (λ fault. next_pixel bytes.now ≡ Err fault) }
{
    match bytes.split_first() {
        Some((byte, rest)) if is_whitespace(*byte) => read_pixel(after_filling(rest)?),
        Some((b'#', _)) => Err(PbmFault::BadComment),
        _ => read_pixel(bytes),
    }
}

/// One bit per byte of a block: 1 where the byte is `byte`.
#[inline(always)]
fn equal_to(block: u8x64, byte: u8) -> u64
    ensures { (k : ℕ) → k < 64 → bit_at result k ≡ cond (slice_index_or block k 0 == byte) 1 0 }
{
    block.simd_eq(u8x64::splat(byte)).to_bitmask()
}

/// The number of pixel digits at the front, up to 64, and their bits. Finds none where fewer than
/// 64 bytes remain.
#[inline(always)]
fn front_digits(bytes: &[u8]) -> (u16, u64)
    ensures few { result.0 ≤ 64 }
    ensures digits { AreDigits result.0 bytes.now result.1 }
{
    if bytes.len() < LANES {
        return (0, 0);
    }
    let block = u8x64::from_slice(&bytes[..LANES]);
    let ones = equal_to(block, b'1');
    let digits = ones | equal_to(block, b'0');
    (digits.trailing_ones() as u16, ones)
}

/// The bytes after the whitespace byte at the front, or all of them if there is none.
#[inline(always)]
fn behind_space(bytes: &[u8]) -> &[u8]
    ensures { result.now ≡ behind_space bytes.now }
{
    match bytes.split_first() {
        Some((byte, rest)) if is_whitespace(*byte) => rest,
        _ => bytes,
    }
}

/// The number of pixels read next, from 1 to `most`, and their bits: the first is the lowest. Takes
/// a whitespace byte before digits with them, as at the end of a line.
fn read_some(bytes: &[u8], most: u16) -> Result<(u16, u64, &[u8]), PbmFault>
    requires some { 0 < most }
    requires few { most ≤ 64 }
    ensures { MatchResult result (λ found. AreSomeRead most bytes.now found.0 found.1 found.2.now)
        (λ fault. next_pixel bytes.now ≡ Err fault) }
{
    let line = behind_space(bytes);
    let (run, digits) = front_digits(line);
    let count = run.min(most);
    if count == 0 {
        let (black, rest) = read_next(bytes)?;
        return Ok((1, u64::from(black), rest));
    }
    let digits = digits & (u64::MAX >> (64 - count));
    Ok((count, digits, &line[usize::from(count)..]))
}

/// The next pixels, up to 64, as the bits of a word: the first is the lowest, and bits past the
/// last are 0.
pub fn read_word(bytes: &[u8], count: u16) -> Result<(u64, &[u8]), PbmFault>
    requires { count ≤ 64 }
    ensures { MatchResult result (λ found. AreBitsRead count bytes.now found.0 found.1.now)
        (λ fault. pixels count bytes.now ≡ Err fault) }
{
    let (mut word, mut place, mut rest) = (0u64, 0u16, bytes);
    'turns: while place < count {
        let (more, digits, others) = read_some(rest, count - place)?;
        word += digits << place;
        place += more;
        rest = others;
    }
    Ok((word, rest))
}
