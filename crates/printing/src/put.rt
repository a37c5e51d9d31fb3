//! Writes bytes to a buffer that has room for them.

ghost use Rattle.std.specs.Prelude.{◌+◌, ◌<◌, ◌≤◌, ◌∷◌, [], length, take};
ghost use Rattle.printing.specs.Putting.{Puts};

use std::simd::Simd;

/// Writes a byte, and returns the index of the next one.
#[inline(always)]
pub fn put_byte(text: &mut [u8], at: usize, byte: u8) -> usize
    requires { at < length text.old }
    ensures { Puts text.old at (byte ∷ []) text.new result }
{
    text[at] = byte;
    at + 1
}

/// Writes the first `count` of some bytes, and returns the index of the next one. The buffer has
/// room for all of them.
#[inline(always)]
pub fn put_front<const N: usize>(text: &mut [u8], at: usize, bytes: [u8; N], count: usize) -> usize
    requires few { count ≤ N }
    requires room { at + N ≤ length text.old }
    ensures { Puts text.old at (take count bytes.entry) text.new result }
{
    Simd::<u8, N>::from_array(bytes).copy_to_slice(&mut text[at..]);
    at + count
}
