//! The digits of the numbers below 10,000.

ghost use Rattle.std.specs.Prelude.{◌≡◌, ◌+◌, ◌<◌, IfOk, vec_len};
ghost use Rattle.printing.specs.Putting.{AreQuads, AreSpaced, IsQuad, IsSpaced};

use metric::NoMemory;
use std::alloc::Global;

/// How many numbers have at most four digits.
const QUADS: u32 = 10_000;

/// The digits of a number below 10,000: without leading zeros, `count` of them, and with leading
/// zeros.
#[derive(Clone, Copy)]
pub struct Quad {
    pub short: [u8; 4],
    pub padded: [u8; 4],
    pub count: u8,
}

/// The digits of all numbers below 10,000, in order.
pub fn quads(alloc: Global) -> Result<Vec<Quad>, NoMemory>
    ensures all { IfOk result (λ quads. vec_len quads ≡ 10000) }
    ensures each { IfOk result (λ quads. AreQuads 10000 quads.items) }
{
    let mut quads = Vec::with_capacity(alloc, QUADS as usize)?;
    'numbers: for number in 0..QUADS {
        quads.push_reserved(quad_of(number));
    }
    Ok(quads)
}

/// All numbers below 10,000 after a blank, in order: the blank, the digits without leading zeros,
/// and in the last of the eight bytes how many bytes these are.
pub fn spaced(alloc: Global) -> Result<Vec<[u8; 8]>, NoMemory>
    ensures all { IfOk result (λ words. vec_len words ≡ 10000) }
    ensures each { IfOk result (λ words. AreSpaced 10000 words.items) }
{
    let mut words = Vec::with_capacity(alloc, QUADS as usize)?;
    'numbers: for number in 0..QUADS {
        words.push_reserved(spaced_of(number));
    }
    Ok(words)
}

/// A number below 10,000 after a blank.
fn spaced_of(number: u32) -> [u8; 8]
    requires { number < 10000 }
    ensures { IsSpaced number result }
{
    let quad = quad_of(number);
    let [first, second, third, fourth] = quad.short;
    [b' ', first, second, third, fourth, 0, 0, quad.count + 1]
}

/// The digits of a number below 10,000.
fn quad_of(number: u32) -> Quad
    requires { number < 10000 }
    ensures { IsQuad number result }
{
    let (high, low) = (number / 100, number % 100);
    let (thousands, hundreds) = (digit(high / 10), digit(high % 10));
    let (tens, ones) = (digit(low / 10), digit(low % 10));
    let padded = [thousands, hundreds, tens, ones];
    if number < 10 {
        return Quad {
            short: [ones, 0, 0, 0],
            padded,
            count: 1,
        };
    }
    if number < 100 {
        return Quad {
            short: [tens, ones, 0, 0],
            padded,
            count: 2,
        };
    }
    if number < 1_000 {
        return Quad {
            short: [hundreds, tens, ones, 0],
            padded,
            count: 3,
        };
    }
    Quad {
        short: padded,
        padded,
        count: 4,
    }
}

/// A digit as a byte.
fn digit(number: u32) -> u8
    requires { number < 10 }
    ensures { result ≡ 48 + number }
{
    b'0' + number as u8
}
