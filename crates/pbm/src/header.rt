//! The header of an image: everything before its raster.

ghost use Rattle.std.specs.Prelude.{◌≡◌, false, Ok, Err, IfOk, MatchResult};
ghost use Rattle.bits.specs.Cells.{IsSide, cells_where};
ghost use Rattle.pbm.specs.Faults.{before_raster, header, magic};
ghost use Rattle.pbm.specs.Writing.{form_digit};

use crate::gap::{after_gap, after_space};
use crate::number::read_side;
use bits::Bitmap;
use metric::{NoMemory, PbmFault};
use std::alloc::Global;

/// The form of an image.
#[derive(Clone, Copy)]
pub enum Form {
    /// `P1`: a pixel is a digit.
    Plain,
    /// `P4`: a pixel is a bit.
    Raw,
}

impl Form {
    /// The digit in the form's magic number.
    pub fn digit(self) -> u8
        ensures { result ≡ form_digit self }
    {
        match self {
            Form::Plain => b'1',
            Form::Raw => b'4',
        }
    }
}

/// What stands before a raster: the form of the image, and the sides of its bitmap.
#[derive(Clone, Copy)]
pub struct Header {
    pub form: Form,
    pub width: u16,
    pub height: u16,
}

impl Header {
    /// A blank bitmap of these sides. Fails only when out of memory.
    pub fn blank(self, alloc: Global) -> Result<Bitmap, NoMemory>
        requires width { IsSide self.width }
        requires height { IsSide self.height }
        ensures { IfOk result
            (λ bitmap. bitmap ≡ cells_where self.width self.height (λ x y. false)) }
    {
        Bitmap::blank(alloc, self.width, self.height)
    }
}

/// The form that the magic number says, and the bytes after it.
fn after_magic(bytes: &[u8]) -> Result<(Form, &[u8]), PbmFault>
    ensures { MatchResult result (λ found. magic bytes.now ≡ Ok (found.0, found.1.now))
        (λ fault. magic bytes.now ≡ Err fault) }
{
    match bytes {
        [] | [b'P'] => Err(PbmFault::Truncated),
        [b'P', b'1', rest @ ..] => Ok((Form::Plain, rest)),
        [b'P', b'4', rest @ ..] => Ok((Form::Raw, rest)),
        _ => Err(PbmFault::BadMagic),
    }
}

/// The bytes from the raster on: a gap precedes a plain raster, one whitespace byte a raw one.
fn at_raster(form: Form, bytes: &[u8]) -> Result<&[u8], PbmFault>
    ensures { MatchResult result (λ rest. before_raster form bytes.now ≡ Ok rest.now)
        (λ fault. before_raster form bytes.now ≡ Err fault) }
{
    match form {
        Form::Plain => after_gap(bytes),
        Form::Raw => after_space(bytes),
    }
}

/// The header, and the bytes from the raster on.
#[tactic(auto, unfolding(crate::specs::Faults::header))]
pub fn read_header(bytes: &[u8]) -> Result<(Header, &[u8]), PbmFault>
    ensures { MatchResult result (λ found. header bytes.now
        ≡ Ok (found.0.form, found.0.width, found.0.height, found.1.now))
        (λ fault. header bytes.now ≡ Err fault) }
{
    let (form, rest) = after_magic(bytes)?;
    let (width, rest) = read_side(rest)?;
    let (height, rest) = read_side(rest)?;
    let rest = at_raster(form, rest)?;
    let header = Header {
        form,
        width,
        height,
    };
    Ok((header, rest))
}
