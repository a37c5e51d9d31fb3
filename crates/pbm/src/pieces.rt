//! A plain image in pieces, for a stream that takes one piece after another.

ghost use Rattle.std.specs.Prelude.{◌≡◌, ◌-◌, ◌*◌, ◌<◌, ◌≤◌, length, vec_len, vec_capacity, IfOk};
ghost use Rattle.std.specs.List.{range_with_len, flat_map};
ghost use Rattle.pbm.specs.declared.header.Form.TheVariants.{Plain};
ghost use Rattle.pbm.specs.Writing.{front_text, plain_digit, plain_text};

use crate::front::push_front;
use crate::header::Form;
use crate::plain_writer::{push_rows, row_length};
use bits::Bitmap;
use metric::NoMemory;
use std::alloc::Global;

/// The most bytes of a piece.
pub const PIECE: usize = 65_536;

/// The first piece of a bitmap's plain image: everything before the raster, in a buffer with
/// capacity for any piece. Fails only when out of memory.
pub fn first_piece(alloc: Global, bitmap: &Bitmap) -> Result<Vec<u8>, NoMemory>
    ensures text { IfOk result (λ piece. piece.items ≡ front_text Plain bitmap.now) }
    ensures room { IfOk result (λ piece. 65536 ≤ vec_capacity piece) }
{
    let mut piece = Vec::new(alloc);
    piece.reserve(PIECE)?;
    push_front(&mut piece, Form::Plain, bitmap);
    Ok(piece)
}

/// The number of bytes of a bitmap's plain image that starts with this piece.
pub fn plain_length(bitmap: &Bitmap, first: &[u8]) -> usize
    requires { first.now ≡ front_text Plain bitmap.now }
    ensures { result ≡ length (plain_text bitmap.now) }
{
    first.len() + usize::from(bitmap.height()) * row_length(bitmap.width())
}

/// Replaces a piece by the next: the lines of as many rows from `from` on as fit 64 KB. Returns the
/// row after them.
pub fn next_piece(bitmap: &Bitmap, from: u16, piece: &mut Vec<u8>) -> u16
    requires inside { from < bitmap.now.height }
    requires room { 65536 ≤ vec_capacity piece.old }
    ensures more { from < result }
    ensures inside { result ≤ bitmap.now.height }
    ensures text { piece.new.items ≡ flat_map (plain_digit bitmap.now)
        (range_with_len (from * bitmap.now.width) ((result - from) * bitmap.now.width)) }
    ensures few { vec_len piece.new ≤ 65536 }
    ensures room { 65536 ≤ vec_capacity piece.new }
{
    let rows = PIECE / row_length(bitmap.width());
    let to = (usize::from(from) + rows).min(usize::from(bitmap.height())) as u16;
    piece.clear();
    push_rows(piece, bitmap, from, to);
    to
}
