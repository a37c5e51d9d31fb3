//! Writing an image in the raw form.

ghost use Rattle.std.specs.Prelude.{◌≡◌, ◌+◌, ◌*◌, ◌<◌, ◌≤◌, ◌++◌, map, length, vec_len};
ghost use Rattle.std.specs.Prelude.{vec_capacity, OnOk, OnErr};
ghost use Rattle.std.specs.List.{range_with_len};
ghost use Rattle.pbm.specs.Image.{bytes_across};
ghost use Rattle.pbm.specs.Writing.{raw_byte, raw_text};

use crate::front::{FRONT_ROOM, push_front};
use crate::header::Form;
use crate::raw_raster::bytes_across;
use crate::raw_row::{MOST_ACROSS, put_row};
use bits::Bitmap;
use metric::NoMemory;

/// Appends the bytes of row y, and uses `row` as a scratch buffer. `out` has capacity for them.
fn push_row(out: &mut Vec<u8>, bitmap: &Bitmap, y: u16, row: &mut [u8])
    requires inside { y < bitmap.now.height }
    requires room { vec_len out.old + bytes_across bitmap.now.width ≤ vec_capacity out.old }
    requires row { length row.old ≡ 512 }
    ensures text { out.new.items ≡ out.old.items
        ++ map (raw_byte bitmap.now)
        (range_with_len (y * bytes_across bitmap.now.width) (bytes_across bitmap.now.width)) }
    ensures length { vec_len out.new ≡ vec_len out.old + bytes_across bitmap.now.width }
    ensures room { vec_capacity out.old ≤ vec_capacity out.new }
    ensures row { length row.new ≡ 512 }
{
    let across = usize::from(bytes_across(bitmap.width()));
    put_row(bitmap.row_words(y), row);
    let _ = out.extend_from_slice(&row[..across]);
}

/// Appends the bitmap as an image in the raw form.
///
/// `P4`, LF, the width, a blank, the height, LF, then the rows, each in whole bytes whose fill bits
/// are 0. Reserves all capacity first: it fails only when out of memory, and has then appended
/// nothing.
pub fn write_raw(bitmap: &Bitmap, out: &mut Vec<u8>) -> Result<(), NoMemory>
    ensures text { OnOk result (out.new.items ≡ out.old.items ++ raw_text bitmap.now) }
    ensures as_before { OnErr result (out.new.items ≡ out.old.items) }
{
    let height = bitmap.height();
    let across = usize::from(bytes_across(bitmap.width()));
    out.reserve(FRONT_ROOM + usize::from(height) * across)?;
    push_front(out, Form::Raw, bitmap);
    let mut row = [0u8; MOST_ACROSS];
    'rows: for y in 0..height {
        push_row(out, bitmap, y, &mut row);
    }
    Ok(())
}
