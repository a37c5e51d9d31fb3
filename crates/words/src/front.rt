//! The number at the front of the rest of a line.

ghost use Rattle.std.specs.Prelude.{◌≡◌, ◌∷◌, ◌<◌, ◌≤◌, ◌^◌, length, take, true, Some, None};
ghost use Rattle.std.specs.Prelude.{IfSome, MatchOption, option_map};
ghost use Rattle.std.specs.List.{list_all};
ghost use Rattle.metric.specs.Digits.{is_digit, value_from};
ghost use Rattle.words.specs.Numbers.{HasNoNumber, first_of, number, numbers};
ghost use Rattle.words.specs.Words.{bytes_left, words, words_left};

use crate::number::read_number;
use crate::split::next_word;

/// The most digits that are read as they come. Any number of that many fits 32 bits.
const FEW_DIGITS: usize = 9;

/// The value of the digits at the front of the bytes, and how many they are, at most nine.
#[inline(always)]
fn front_digits(bytes: &[u8]) -> (u32, usize)
    ensures few { result.1 ≤ 9 }
    ensures within { result.1 ≤ length bytes.now }
    ensures digits { list_all is_digit (take result.1 bytes.now) ≡ true }
    ensures value { result.0 ≡ value_from 0 (take result.1 bytes.now) }
    ensures small { result.0 < 2 ^ 32 }
{
    let (mut value, mut count) = (0u32, 0);
    'digits: while count < FEW_DIGITS && count < bytes.len() {
        let digit = bytes[count];
        if !digit.is_ascii_digit() {
            return (value, count);
        }
        value = 10 * value + u32::from(digit - b'0');
        count += 1;
    }
    (value, count)
}

/// The number that up to nine digits at the front of a line spell, up to its first blank or its
/// end, and the rest after it.
#[inline(always)]
fn short_number(bytes: &[u8]) -> Option<(u32, Option<&[u8]>)>
    ensures first { IfSome result (λ found. first_of number (words bytes.now)
        ≡ Some (found.0, words_left found.1)) }
    ensures fewer { IfSome result (λ found. bytes_left found.1 ≤ length bytes.now) }
{
    let (value, count) = front_digits(bytes);
    if count == 0 {
        return None;
    }
    if count == bytes.len() {
        return Some((value, None));
    }
    if bytes[count] != b' ' {
        return None;
    }
    Some((value, Some(&bytes[count + 1..])))
}

/// The number that the next word spells, and the rest after it: in one pass over its digits if they
/// are few.
#[tactic(auto, unfolding(crate::specs::Numbers::numbers))]
pub fn next_number(rest: Option<&[u8]>) -> Option<(u32, Option<&[u8]>)>
    ensures first { MatchOption result (first_of number (words_left rest.entry) ≡ None)
        (λ found. first_of number (words_left rest.entry) ≡ Some (found.0, words_left found.1)) }
    ensures numbers { MatchOption result (HasNoNumber (words_left rest.entry))
        (λ found. numbers (words_left rest.entry) ≡ option_map (λ others. found.0 ∷ others)
        (numbers (words_left found.1))) }
    ensures fewer { IfSome result (λ found. bytes_left found.1 < bytes_left rest.entry) }
    ensures small { bytes_left rest.entry ≤ 2 ^ 64 }
{
    if let Some(found) = rest.and_then(short_number) {
        return Some(found);
    }
    let (word, rest) = next_word(rest)?;
    let number = read_number(word)?;
    Some((number, rest))
}
