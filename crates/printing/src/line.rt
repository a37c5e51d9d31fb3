//! The lines of rows of nearest obstacles.

ghost use Rattle.std.specs.Prelude.{true, ◌+◌, ◌*◌, ◌≤◌, ◌∷◌, length};
ghost use Rattle.std.specs.Fmt.{signed_decimal};
ghost use Rattle.std.specs.List.{flat_map};
ghost use Rattle.printing.specs.Putting.{Puts};
ghost use Rattle.printing.specs.Table.{entry_text, place_text, row_line};

use crate::decimals::Decimals;
use crate::put::put_byte;
use metric::{Near, Spot};

/// The most bytes of an entry and what follows it: ten digits, two slashes, two coordinates of `-`
/// and five digits each, and a blank or LF.
pub const ENTRY_ROOM: usize = 25;

/// The bytes that must remain after a row's entries, so that digits can be copied four at a time.
pub const SPARE_ROOM: usize = 3;

/// Writes the line of a row, each distance with its nearest obstacle, and returns the index after
/// it.
pub fn put_row(decimals: &Decimals, text: &mut [u8], at: usize, nears: &[Option<Near>]) -> usize
    requires { at + (25 * length nears.now + 3) ≤ length text.old }
    ensures line { Puts text.old at (row_line true nears.now) text.new result }
    ensures end { result ≤ at + (25 * length nears.now + 1) }
{
    match nears.split_first() {
        Some((first, others)) => {
            let next = put_first(decimals, text, at, *first);
            let end = put_others(decimals, text, next, others);
            put_byte(text, end, b'\n')
        }
        None => put_byte(text, at, b'\n'),
    }
}

/// Writes entries, each after a blank.
#[inline(always)]
fn put_others(decimals: &Decimals, text: &mut [u8], at: usize, nears: &[Option<Near>]) -> usize
    requires { at + (25 * length nears.now + 3) ≤ length text.old }
    ensures text { Puts text.old at (flat_map (λ near. 32 ∷ entry_text true near) nears.now)
        text.new result }
    ensures end { result ≤ at + 25 * length nears.now }
{
    let mut end = at;
    'entries: for near in nears {
        end = put_other(decimals, text, end, near);
    }
    end
}

/// Writes a blank and the entry of a cell.
#[inline(always)]
fn put_other(decimals: &Decimals, text: &mut [u8], at: usize, near: &Option<Near>) -> usize
    requires { at + 28 ≤ length text.old }
    ensures text { Puts text.old at (32 ∷ entry_text true near.now) text.new result }
    ensures end { result ≤ at + 25 }
{
    let Some(near) = near else {
        let next = put_byte(text, at, b' ');
        return put_byte(text, next, b'-');
    };
    let next = decimals.put_behind_blank(text, at, near.dist);
    put_place(decimals, text, next, &near.cell)
}

/// Writes the first entry of a line.
fn put_first(decimals: &Decimals, text: &mut [u8], at: usize, near: Option<Near>) -> usize
    requires { at + 27 ≤ length text.old }
    ensures text { Puts text.old at (entry_text true near) text.new result }
    ensures end { result ≤ at + 24 }
{
    let Some(near) = near else {
        return put_byte(text, at, b'-');
    };
    let next = decimals.put(text, at, near.dist);
    put_place(decimals, text, next, &near.cell)
}

/// Writes the position of an obstacle.
#[inline(always)]
fn put_place(decimals: &Decimals, text: &mut [u8], at: usize, spot: &Spot) -> usize
    requires { at + 17 ≤ length text.old }
    ensures text { Puts text.old at (place_text spot.now) text.new result }
    ensures end { result ≤ at + 14 }
{
    let next = put_coordinate(decimals, text, at, spot.x);
    put_coordinate(decimals, text, next, spot.y)
}

/// Writes a slash and a coordinate.
#[inline(always)]
fn put_coordinate(decimals: &Decimals, text: &mut [u8], at: usize, coordinate: i16) -> usize
    requires { at + 10 ≤ length text.old }
    ensures text { Puts text.old at (47 ∷ signed_decimal coordinate) text.new result }
    ensures end { result ≤ at + 7 }
{
    if 0 <= coordinate && coordinate < 10_000 {
        return decimals.put_slashed(text, at, coordinate as u32);
    }
    let next = put_byte(text, at, b'/');
    put_signed(decimals, text, next, coordinate)
}

/// Writes a signed number.
#[inline(always)]
fn put_signed(decimals: &Decimals, text: &mut [u8], at: usize, number: i16) -> usize
    requires { at + 9 ≤ length text.old }
    ensures text { Puts text.old at (signed_decimal number) text.new result }
    ensures end { result ≤ at + 6 }
{
    let digits = u32::from(number.unsigned_abs());
    if number < 0 {
        let next = put_byte(text, at, b'-');
        return decimals.put_eight(text, next, digits);
    }
    decimals.put_eight(text, at, digits)
}
