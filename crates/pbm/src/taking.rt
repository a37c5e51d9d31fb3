//! The parts of an image that a window takes: the header, the words of pixels, and raw rows.

ghost use Rattle.std.specs.Prelude.{◌≡◌, ◌<◌, ◌≤◌, length, Ok, Err, IfOk, IfErr, OnOk};
ghost use Rattle.metric.specs.Stream.{CanFail};
ghost use Rattle.pbm.specs.Faults.{header, pixels};
ghost use Rattle.metric.specs.declared.fault.PbmFault.TheVariants.{Truncated};
ghost use Rattle.pbm.specs.Plain.{AreBitsRead};
ghost use Rattle.pbm.specs.Raw.{IsRowRead};
ghost use Rattle.pbm.specs.Windows.{CountsReads, Follows, IsFaultOf, IsOpen, Meets, MeetsFault};
ghost use Rattle.pbm.specs.Windows.{Stands, unread};

use crate::header::{Header, read_header};
use crate::plain_word::read_word;
use crate::raw_raster::read_row;
use crate::raw_row::MOST_ACROSS;
use crate::window::{ImageStop, Window};
use metric::{PbmFault, Source};

/// The header at the front of the bytes, and the number of bytes it takes.
fn header_in(bytes: &[u8]) -> Result<(Header, usize), PbmFault>
    ensures found { IfOk result
        (λ found. Stands found.1 bytes.now
        (λ all left. header all ≡ Ok (found.0.form, found.0.width, found.0.height, left))) }
    ensures fault { IfErr result (λ fault. header bytes.now ≡ Err fault) }
{
    let (header, rest) = read_header(bytes)?;
    Ok((header, bytes.len() - rest.len()))
}

/// The next pixels, up to 64, as a word, and the number of bytes they take.
fn word_in(bytes: &[u8], count: u16) -> Result<(u64, usize), PbmFault>
    requires { count ≤ 64 }
    ensures found { IfOk result
        (λ found. Stands found.1 bytes.now (λ all left. AreBitsRead count all found.0 left)) }
    ensures fault { IfErr result (λ fault. pixels count bytes.now ≡ Err fault) }
{
    let (word, rest) = read_word(bytes, count)?;
    Ok((word, bytes.len() - rest.len()))
}

/// The row of a raw raster that the first `across` bytes are, as words. Uses `reversed` as a
/// scratch buffer.
fn row_in(bytes: &[u8], across: usize, reversed: &mut [u8; MOST_ACROSS], words: &mut [u64; 64])
    requires few { across ≤ 512 }
    requires within { across ≤ length bytes.now }
    ensures { Stands across bytes.now (λ all left. IsRowRead across all words.new left) }
{
    read_row(bytes, 0, across, reversed, words);
}

impl Window {
    /// Takes the header.
    pub fn next_header<R: Source>(&mut self, reader: &mut R) -> Result<Header, ImageStop>
        requires can_fail { CanFail (R.failed_reads reader.old) }
        requires open { IsOpen self.old (R.rest reader.old) }
        ensures open { IsOpen self.new (R.rest reader.new) }
        ensures header { IfOk result
            (λ found. Follows (R.rest reader.old) (unread self.old) (R.rest reader.new)
            (unread self.new)
            (λ all left. header all ≡ Ok (found.form, found.width, found.height, left))) }
        ensures fault { IfErr result (MeetsFault header (R.rest reader.old) self.old) }
        ensures counts { CountsReads (R.failed_reads reader.old) result
            (R.failed_reads reader.new) }
    {
        'turns: loop {
            match header_in(self.unread()) {
                Ok((header, taken)) => {
                    self.take(taken);
                    return Ok(header);
                }
                Err(fault) => self.read_after(reader, fault)?,
            }
        }
    }

    /// Takes the next pixels, up to 64, as the bits of a word: the first is the lowest, and bits
    /// past the last are 0.
    pub fn next_word<R: Source>(&mut self, reader: &mut R, count: u16) -> Result<u64, ImageStop>
        requires can_fail { CanFail (R.failed_reads reader.old) }
        requires open { IsOpen self.old (R.rest reader.old) }
        requires few { count ≤ 64 }
        ensures open { IsOpen self.new (R.rest reader.new) }
        ensures word { IfOk result
            (λ word. Follows (R.rest reader.old) (unread self.old) (R.rest reader.new)
            (unread self.new) (λ all left. AreBitsRead count all word left)) }
        ensures fault { IfErr result (MeetsFault (pixels count) (R.rest reader.old) self.old) }
        ensures counts { CountsReads (R.failed_reads reader.old) result
            (R.failed_reads reader.new) }
    {
        'turns: loop {
            match word_in(self.unread(), count) {
                Ok((word, taken)) => {
                    self.take(taken);
                    return Ok(word);
                }
                Err(fault) => self.read_after(reader, fault)?,
            }
        }
    }

    /// Takes the next row of a raw raster, `across` bytes, as words: the leftmost pixel of each is
    /// the lowest bit. Uses `reversed` as a scratch buffer.
    pub fn next_row<R: Source>(
        &mut self,
        reader: &mut R,
        across: usize,
        reversed: &mut [u8; MOST_ACROSS],
        words: &mut [u64; 64],
    ) -> Result<(), ImageStop>
        requires can_fail { CanFail (R.failed_reads reader.old) }
        requires open { IsOpen self.old (R.rest reader.old) }
        requires few { across ≤ 512 }
        ensures open { IsOpen self.new (R.rest reader.new) }
        ensures row { OnOk result
            (Follows (R.rest reader.old) (unread self.old) (R.rest reader.new) (unread self.new)
            (λ all left. IsRowRead across all words.new left)) }
        ensures fault { IfErr result
            (λ stop. IsFaultOf stop (λ fault. Meets (R.rest reader.old) (unread self.old)
            (λ all. (fault ≡ Truncated) × (length all < across)))) }
        ensures counts { CountsReads (R.failed_reads reader.old) result
            (R.failed_reads reader.new) }
    {
        self.hold(reader, across)?;
        if self.unread().len() < across {
            return Err(ImageStop::Fault(PbmFault::Truncated));
        }
        row_in(self.unread(), across, reversed, words);
        self.take(across);
        Ok(())
    }
}
