//! The raster of a plain image: its pixels, row by row from the top.

ghost use Rattle.std.specs.Prelude.{◌≡◌, false, Ok, Err, IfOk, IfErr, MatchResult};
ghost use Rattle.bits.specs.Cells.{cells_where};
ghost use Rattle.pbm.specs.Faults.{ended, plain_raster};

use crate::gap::is_whitespace;
use crate::plain_word::read_word;
use crate::raw_raster::WORD_PIXELS;
use bits::Bitmap;
use metric::PbmFault;

/// The bytes after a plain image, if they may follow it.
pub fn after_image(bytes: &[u8]) -> Result<&[u8], PbmFault>
    ensures { MatchResult result (λ rest. ended bytes.now ≡ Ok rest.now)
        (λ fault. ended bytes.now ≡ Err fault) }
{
    match bytes.first() {
        Some(byte) if !is_whitespace(*byte) => Err(PbmFault::JunkNotSpaced),
        _ => Ok(bytes),
    }
}

/// Reads a plain raster into a blank bitmap, a word at a time, and returns the bytes after it. On a
/// fault, some of its pixels have been read.
#[tactic(auto, unfolding(crate::specs::Faults::plain_raster))]
pub fn read_plain<'a>(bitmap: &mut Bitmap, bytes: &'a [u8]) -> Result<&'a [u8], PbmFault>
    requires { bitmap.old ≡ cells_where bitmap.old.width bitmap.old.height (λ x y. false) }
    ensures raster { IfOk result (λ rest. plain_raster bitmap.old.width bitmap.old.height bytes.now
        ≡ Ok (bitmap.new, rest.now)) }
    ensures fault { IfErr result (λ fault. plain_raster bitmap.old.width bitmap.old.height bytes.now
        ≡ Err fault) }
{
    let width = bitmap.width();
    let height = bitmap.height();
    let mut rest = bytes;
    'rows: for y in 0..height {
        'words: for index in 0..width.div_ceil(WORD_PIXELS) {
            let count = (width - WORD_PIXELS * index).min(WORD_PIXELS);
            let (word, others) = read_word(rest, count)?;
            bitmap.set_word(y, index, word);
            rest = others;
        }
    }
    after_image(rest)
}
