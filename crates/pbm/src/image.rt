//! Reading an image.

ghost use Rattle.std.specs.Prelude.{◌≡◌, ◌≢◌, ℕ, Ok, Err, IfOk, IfErr, IsOk, MatchResult};
ghost use Rattle.bits.specs.Cells.{Cells};
ghost use Rattle.pbm.specs.Faults.{header, image};
ghost use Rattle.pbm.specs.Image.{Reads};

use crate::header::{Form, read_header};
use crate::raster::read_plain;
use crate::raw_raster::read_raw;
use bits::Bitmap;
use metric::PbmFault;
use std::alloc::Global;

/// The image at the front, and the bytes after it.
#[tactic(auto, unfolding(crate::specs::Faults::image))]
fn read_front(alloc: Global, bytes: &[u8]) -> Result<(Bitmap, &[u8]), PbmFault>
    ensures found { MatchResult result (λ found. image bytes.now ≡ Ok (found.0, found.1.now))
        (λ fault. fault ≢ PbmFault.Memory → image bytes.now ≡ Err fault) }
    ensures memory { result ≡ Err PbmFault.Memory → IsOk (header bytes.now) }
{
    let (header, rest) = read_header(bytes)?;
    let mut bitmap = header.blank(alloc)?;
    let rest = match header.form {
        Form::Plain => read_plain(&mut bitmap, rest)?,
        Form::Raw => read_raw(&mut bitmap, rest)?,
    };
    Ok((bitmap, rest))
}

/// Reads the image at the front of the bytes, and returns how many bytes it takes.
///
/// Reads images in the plain form (`P1`) and in the raw form (`P4`), with sides from 1 to 4096. A
/// comment may follow whitespace or another comment, but not the height of a raw image: there, the
/// byte after the one whitespace byte belongs to the raster, whatever it is. The bytes taken end
/// with the last pixel, or with the last byte of a raw raster.
///
/// Of several faults, returns the first in the order of the bytes. Memory is requested immediately
/// before the raster, so `Memory` means that everything before it is valid.
pub fn read_image(alloc: Global, bytes: &[u8]) -> Result<(Bitmap, usize), PbmFault>
    ensures reads { IfOk result (λ found. Reads bytes.now found.1 found.0) }

    // A fault other than out of memory is the first from the front, and then there is no image.
    ensures fault { IfErr result (λ fault. fault ≢ PbmFault.Memory → image bytes.now ≡ Err fault) }
    ensures none { IfErr result (λ fault. fault ≢ PbmFault.Memory → (n : ℕ) (cells : Cells)
        → Reads bytes.now n cells → ⊥) }
    ensures memory { result ≡ Err PbmFault.Memory → IsOk (header bytes.now) }
{
    let (bitmap, rest) = read_front(alloc, bytes)?;
    Ok((bitmap, bytes.len() - rest.len()))
}
