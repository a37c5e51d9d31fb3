//! The numbers of an image: the sides of its bitmap, in cells.

ghost use Rattle.std.specs.Prelude.{◌≡◌, Ok, Err, MatchResult};
ghost use Rattle.pbm.specs.Faults.{◌>>=◌ as ◌followed_by◌, digits, gap, number_and_rest, side};

use crate::gap::after_gap;
use metric::PbmFault;

/// The longest side of a bitmap.
const LONGEST: u16 = 4096;

/// A side of this many cells, with the bytes after it.
fn side_of(value: u16, rest: &[u8]) -> Result<(u16, &[u8]), PbmFault>
    ensures { MatchResult result (λ found. side value rest.now ≡ Ok (found.0, found.1.now))
        (λ fault. side value rest.now ≡ Err fault) }
{
    match value {
        0 => Err(PbmFault::ZeroSize),
        1..=LONGEST => Ok((value, rest)),
        _ => Err(PbmFault::TooLarge),
    }
}

/// The side whose first digits have this value.
///
/// Skips digits after a value over the longest side: no further digit makes it valid.
#[tactic(auto, unfolding(crate::specs::Faults::digits))]
fn read_digits(mut value: u16, bytes: &[u8]) -> Result<(u16, &[u8]), PbmFault>
    ensures { MatchResult result (λ found. digits value bytes.now ≡ Ok (found.0, found.1.now))
        (λ fault. digits value bytes.now ≡ Err fault) }
{
    let mut rest = bytes;
    while let Some((byte, others)) = rest.split_first() {
        if !byte.is_ascii_digit() {
            break;
        }
        if value <= LONGEST {
            value = 10 * value + u16::from(*byte - b'0');
        }
        rest = others;
    }
    side_of(value, rest)
}

/// The side that the digits after a gap spell.
#[tactic(auto, unfolding(crate::specs::Faults::number_and_rest))]
pub fn read_side(bytes: &[u8]) -> Result<(u16, &[u8]), PbmFault>
    ensures { MatchResult result
        (λ found. (gap bytes.now followed_by number_and_rest) ≡ Ok (found.0, found.1.now))
        (λ fault. (gap bytes.now followed_by number_and_rest) ≡ Err fault) }
{
    match after_gap(bytes)?.split_first() {
        None => Err(PbmFault::Truncated),
        Some((digit @ b'0'..=b'9', rest)) => read_digits(u16::from(*digit - b'0'), rest),
        Some(_) => Err(PbmFault::BadNumber),
    }
}
