//! The answer to DUMP: a reply line, then a plain image, written in pieces.

ghost use Rattle.std.specs.Prelude.{◌*◌, ◌≤◌, vec_capacity};
ghost use Rattle.std.specs.List.{range_with_len, flat_map};
ghost use Rattle.pbm.specs.Writing.{plain_digit};
ghost use Rattle.line_io.specs.Saying.{IsDumped};
ghost use Rattle.line_io.specs.Wire.{CanGoOn, HasPut};

use crate::saying::say;
use crate::wire::put;
use bits::Bitmap;
use lines::{Answer, Text};
use metric::{Refusal, Stream, WriteFault};
use pbm::{first_piece, next_piece, plain_length};
use std::alloc::Global;

/// Writes the answer to DUMP for a bitmap: the number of its image's bytes, and the image; or a
/// refusal when out of memory for a piece of it.
pub fn say_dump<S: Stream>(
    alloc: Global,
    bitmap: &Bitmap,
    stream: &mut S,
    text: &mut Text,
) -> Result<(), WriteFault>
    requires { CanGoOn (S.wire stream.old) }
    ensures { IsDumped bitmap.now result (S.wire stream.old) (S.wire stream.new) }
{
    let mut piece = match first_piece(alloc, bitmap) {
        Ok(piece) => piece,
        Err(refused) => return say(stream, text, &Answer::Refused(Refusal::from(refused))),
    };
    let answer = Answer::Dumped(plain_length(bitmap, piece.as_slice()) as u64);
    say(stream, text, &answer)?;
    put(stream, piece.as_slice())?;
    put_rows(stream, bitmap, &mut piece)
}

/// Writes the lines of all rows, piece by piece in the same buffer.
fn put_rows<S: Stream>(
    stream: &mut S,
    bitmap: &Bitmap,
    piece: &mut Vec<u8>,
) -> Result<(), WriteFault>
    requires wire { CanGoOn (S.wire stream.old) }
    requires room { 65536 ≤ vec_capacity piece.old }
    ensures { HasPut result (S.wire stream.old)
        (flat_map (plain_digit bitmap.now)
        (range_with_len 0 (bitmap.now.height * bitmap.now.width))) (S.wire stream.new) }
{
    let height = bitmap.height();
    let mut y = 0;
    'pieces: while y < height {
        let next = next_piece(bitmap, y, piece);
        put(stream, piece.as_slice())?;
        y = next;
    }
    Ok(())
}
