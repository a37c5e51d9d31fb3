//! The front of an image: everything written before its raster.

ghost use Rattle.std.specs.Prelude.{◌≡◌, ◌+◌, ◌≤◌, ◌++◌, vec_len, vec_capacity};
ghost use Rattle.pbm.specs.Writing.{front_text};

use crate::header::Form;
use bits::Bitmap;
use metric::push_decimal;

/// The most bytes before a raster: two numbers of four digits, and five other bytes.
pub const FRONT_ROOM: usize = 13;

/// Appends everything that comes before the raster of a bitmap's image. The buffer has capacity for
/// it.
#[tactic(auto, using(crate::proofs::Decimals::side_digits))]
pub fn push_front(out: &mut Vec<u8>, form: Form, bitmap: &Bitmap)
    requires { vec_len out.old + 13 ≤ vec_capacity out.old }
    ensures text { out.new.items ≡ out.old.items ++ front_text form bitmap.now }
    ensures length { vec_len out.new ≤ vec_len out.old + 13 }
    ensures room { vec_capacity out.new ≡ vec_capacity out.old }
{
    out.push_reserved(b'P');
    out.push_reserved(form.digit());
    out.push_reserved(b'\n');
    push_decimal(out, u32::from(bitmap.width()));
    out.push_reserved(b' ');
    push_decimal(out, u32::from(bitmap.height()));
    out.push_reserved(b'\n');
}
