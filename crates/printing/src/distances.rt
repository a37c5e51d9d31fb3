//! The lines of rows that have only distances.

ghost use Rattle.std.specs.Prelude.{◌+◌, ◌*◌, ◌<◌, ◌≤◌, ◌∷◌, length};
ghost use Rattle.std.specs.List.{flat_map};
ghost use Rattle.printing.specs.Measured.{distance_text, distances_line};
ghost use Rattle.printing.specs.Putting.{Puts};

use crate::decimals::Decimals;
use crate::put::put_byte;

/// The distance of a cell where there is no obstacle.
const NOWHERE: u32 = u32::MAX;

/// A power of two, so that numbers whose bits together are below it are each below it, and have at
/// most four digits.
const SHORT: u32 = 8192;

/// Writes the line of a row's distances, and returns the index after it.
pub fn put_distances(decimals: &Decimals, text: &mut [u8], at: usize, distances: &[u32]) -> usize
    requires { at + (25 * length distances.now + 3) ≤ length text.old }
    ensures line { Puts text.old at (distances_line distances.now) text.new result }
    ensures end { result ≤ at + (25 * length distances.now + 1) }
{
    match distances.split_first() {
        Some((first, others)) => {
            let next = put_first(decimals, text, at, *first);
            let end = put_others(decimals, text, next, others);
            put_byte(text, end, b'\n')
        }
        None => put_byte(text, at, b'\n'),
    }
}

/// Writes distances, each after a blank: four at a time, and then those that are left.
#[inline(always)]
fn put_others(decimals: &Decimals, text: &mut [u8], at: usize, distances: &[u32]) -> usize
    requires { at + (25 * length distances.now + 3) ≤ length text.old }
    ensures text { Puts text.old at
        (flat_map (λ distance. 32 ∷ distance_text distance) distances.now) text.new result }
    ensures end { result ≤ at + 25 * length distances.now }
{
    let mut end = at;
    let mut rest = distances;
    'fours: while let Some((four, others)) = rest.split_first_chunk::<4>() {
        end = put_four(decimals, text, end, four);
        rest = others;
    }
    put_each(decimals, text, end, rest)
}

/// Writes four distances, each after a blank. One test shows that all of them are short, as most
/// are.
#[inline(always)]
fn put_four(decimals: &Decimals, text: &mut [u8], at: usize, four: &[u32; 4]) -> usize
    requires { at + 103 ≤ length text.old }
    ensures text { Puts text.old at (flat_map (λ distance. 32 ∷ distance_text distance) four.now)
        text.new result }
    ensures end { result ≤ at + 100 }
{
    let [first, second, third, last] = *four;
    if (first | second | third | last) < SHORT {
        let next = put_short(decimals, text, at, first);
        let next = put_short(decimals, text, next, second);
        let next = put_short(decimals, text, next, third);
        return put_short(decimals, text, next, last);
    }
    put_each(decimals, text, at, four)
}

/// Writes distances one by one, each after a blank.
#[inline(always)]
fn put_each(decimals: &Decimals, text: &mut [u8], at: usize, distances: &[u32]) -> usize
    requires { at + (25 * length distances.now + 3) ≤ length text.old }
    ensures text { Puts text.old at
        (flat_map (λ distance. 32 ∷ distance_text distance) distances.now) text.new result }
    ensures end { result ≤ at + 25 * length distances.now }
{
    let mut end = at;
    'distances: for distance in distances {
        end = put_other(decimals, text, end, *distance);
    }
    end
}

/// Writes a blank and a distance.
#[inline(always)]
fn put_other(decimals: &Decimals, text: &mut [u8], at: usize, distance: u32) -> usize
    requires { at + 28 ≤ length text.old }
    ensures text { Puts text.old at (32 ∷ distance_text distance) text.new result }
    ensures end { result ≤ at + 25 }
{
    if distance < 10_000 {
        return put_short(decimals, text, at, distance);
    }
    if distance == NOWHERE {
        let next = put_byte(text, at, b' ');
        return put_byte(text, next, b'-');
    }
    decimals.put_behind_blank(text, at, distance)
}

/// Writes a blank and a distance of at most four digits.
#[inline(always)]
fn put_short(decimals: &Decimals, text: &mut [u8], at: usize, distance: u32) -> usize
    requires few { distance < 10000 }
    requires room { at + 28 ≤ length text.old }
    ensures text { Puts text.old at (32 ∷ distance_text distance) text.new result }
    ensures end { result ≤ at + 25 }
{
    decimals.put_spaced(text, at, distance)
}

/// Writes the first distance of a line.
fn put_first(decimals: &Decimals, text: &mut [u8], at: usize, distance: u32) -> usize
    requires { at + 28 ≤ length text.old }
    ensures text { Puts text.old at (distance_text distance) text.new result }
    ensures end { result ≤ at + 24 }
{
    if distance == NOWHERE {
        return put_byte(text, at, b'-');
    }
    decimals.put(text, at, distance)
}
