//! Writing an image in the plain form.

ghost use Rattle.std.specs.Prelude.{◌≡◌, ℕ, ◌+◌, ◌-◌, ◌*◌, ◌<◌, ◌≤◌, ◌++◌, ◌∷◌, [], length};
ghost use Rattle.std.specs.Prelude.{slice_index, vec_len, vec_capacity, OnOk, OnErr};
ghost use Rattle.std.specs.List.{range_with_len, flat_map};
ghost use Rattle.bits.specs.Cells.{has};
ghost use Rattle.pbm.specs.Image.{pixel_byte};
ghost use Rattle.pbm.specs.Writing.{plain_digit, plain_text, row_length};

use crate::digit_row::{MOST_DIGITS, put_digits};
use crate::front::{FRONT_ROOM, push_front};
use crate::header::Form;
use bits::Bitmap;
use metric::NoMemory;

/// Digits per line.
const LINE_DIGITS: usize = 70;

/// The bytes that the lines of a row take.
pub fn row_length(width: u16) -> usize
    ensures { result ≡ row_length width }
{
    usize::from(width) + usize::from(width).div_ceil(LINE_DIGITS)
}

/// Appends a line. The buffer has capacity for it.
#[inline(always)]
fn push_line(out: &mut Vec<u8>, line: &[u8])
    requires room { vec_len out.old + length line.now + 1 ≤ vec_capacity out.old }
    ensures text { out.new.items ≡ (out.old.items ++ line.now) ++ 10 ∷ [] }
    ensures length { vec_len out.new ≡ vec_len out.old + length line.now + 1 }
    ensures room { vec_capacity out.old ≤ vec_capacity out.new }
{
    let _ = out.extend_from_slice(line);
    out.push_reserved(b'\n');
}

/// Appends the digits of row y in lines. The buffer has capacity for them.
///
/// The lines but the last have a constant length, so that the compiler copies them in vectors.
fn push_lines(out: &mut Vec<u8>, bitmap: &Bitmap, y: u16, digits: &[u8])
    requires room { vec_len out.old + row_length bitmap.now.width ≤ vec_capacity out.old }
    requires as_many { length digits.now ≡ bitmap.now.width }
    requires digits { (x : ℕ) → x < bitmap.now.width
        → slice_index digits.now x ≡ pixel_byte (has bitmap.now x y) }
    ensures text { out.new.items ≡ out.old.items
        ++ flat_map (plain_digit bitmap.now)
        (range_with_len (y * bitmap.now.width) bitmap.now.width) }
    ensures length { vec_len out.new ≡ vec_len out.old + row_length bitmap.now.width }
    ensures room { vec_capacity out.old ≤ vec_capacity out.new }
{
    let mut start = 0;
    'lines: while start + LINE_DIGITS <= digits.len() {
        push_line(out, &digits[start..start + LINE_DIGITS]);
        start += LINE_DIGITS;
    }
    if start < digits.len() {
        push_line(out, &digits[start..]);
    }
}

/// Appends the lines of rows `from` to `to - 1`. The buffer has capacity for them.
pub fn push_rows(out: &mut Vec<u8>, bitmap: &Bitmap, from: u16, to: u16)
    requires order { from ≤ to }
    requires inside { to ≤ bitmap.now.height }
    requires room { vec_len out.old + (to - from) * row_length bitmap.now.width
        ≤ vec_capacity out.old }
    ensures text { out.new.items ≡ out.old.items
        ++ flat_map (plain_digit bitmap.now)
        (range_with_len (from * bitmap.now.width) ((to - from) * bitmap.now.width)) }
    ensures length { vec_len out.new ≡ vec_len out.old + (to - from) * row_length bitmap.now.width }
    ensures room { vec_capacity out.old ≤ vec_capacity out.new }
{
    let width = usize::from(bitmap.width());
    let mut digits = [0u8; MOST_DIGITS];
    'rows: for y in from..to {
        put_digits(bitmap.row_words(y), &mut digits);
        push_lines(out, bitmap, y, &digits[..width]);
    }
}

/// Appends the bitmap as an image in the plain form.
///
/// `P1`, LF, the width, a blank, the height, LF, then each row in lines of 70 digits, the last line
/// of a row having the rest; LF ends each line. Reserves all capacity first: it fails only when out
/// of memory, and has then appended nothing.
pub fn write_plain(bitmap: &Bitmap, out: &mut Vec<u8>) -> Result<(), NoMemory>
    ensures text { OnOk result (out.new.items ≡ out.old.items ++ plain_text bitmap.now) }
    ensures as_before { OnErr result (out.new.items ≡ out.old.items) }
{
    let height = bitmap.height();
    let row = row_length(bitmap.width());
    out.reserve(FRONT_ROOM + usize::from(height) * row)?;
    push_front(out, Form::Plain, bitmap);
    push_rows(out, bitmap, 0, height);
    Ok(())
}
