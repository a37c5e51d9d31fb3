//! Reads an image from a source, and packs it as its bytes come.

ghost use Rattle.std.specs.Prelude.{◌≡◌, ◌*◌, List, [], Bool, false, true, Ok, IfOk, IfErr, OnOk};
ghost use Rattle.metric.specs.Stream.{AreAll, CanFail};
ghost use Rattle.bits.specs.Cells.{cells_where};
ghost use Rattle.pbm.specs.Faults.{cells_of_pixels, image, pixels, raster, raw_raster};
ghost use Rattle.pbm.specs.Windows.{CountsReads, Follows, HasFault, HasImage, IsFaultOf, IsOpen};
ghost use Rattle.pbm.specs.Windows.{IsPassed, IsStopped, Meets, MeetsCells, MeetsFault, unread};

use crate::header::Form;
use crate::raster::after_image;
use crate::raw_raster::{WORD_PIXELS, bytes_across};
use crate::raw_row::MOST_ACROSS;
use crate::window::{ImageStop, Window};
use bits::Bitmap;
use metric::{NoMemory, PbmFault, Source};
use std::alloc::Global;

/// Takes the pixels into a blank bitmap, a word at a time.
fn take_pixels<R: Source>(
    window: &mut Window,
    reader: &mut R,
    bitmap: &mut Bitmap,
) -> Result<(), ImageStop>
    requires can_fail { CanFail (R.failed_reads reader.old) }
    requires open { IsOpen window.old (R.rest reader.old) }
    requires blank { bitmap.old ≡ cells_where bitmap.old.width bitmap.old.height (λ x y. false) }
    ensures open { IsOpen window.new (R.rest reader.new) }
    ensures pixels { OnOk result
        (Follows (R.rest reader.old) (unread window.old) (R.rest reader.new) (unread window.new)
        (λ all left.
        (black : List Bool) × (pixels (bitmap.old.width * bitmap.old.height) all ≡ Ok (black, left))
        × (bitmap.new ≡ cells_of_pixels bitmap.old.width bitmap.old.height black))) }
    ensures fault { IfErr result (MeetsFault (pixels (bitmap.old.width * bitmap.old.height))
        (R.rest reader.old) window.old) }
    ensures counts { CountsReads (R.failed_reads reader.old) result (R.failed_reads reader.new) }
{
    let width = bitmap.width();
    let height = bitmap.height();
    'rows: for y in 0..height {
        'words: for index in 0..width.div_ceil(WORD_PIXELS) {
            let count = (width - WORD_PIXELS * index).min(WORD_PIXELS);
            let word = window.next_word(reader, count)?;
            bitmap.set_word(y, index, word);
        }
    }
    Ok(())
}

/// Takes a raw raster into a blank bitmap, row by row, and keeps what the source has after it.
fn take_raw<R: Source>(
    window: &mut Window,
    reader: &mut R,
    bitmap: &mut Bitmap,
) -> Result<(), ImageStop>
    requires can_fail { CanFail (R.failed_reads reader.old) }
    requires open { IsOpen window.old (R.rest reader.old) }
    requires blank { bitmap.old ≡ cells_where bitmap.old.width bitmap.old.height (λ x y. false) }
    ensures open { IsOpen window.new (R.rest reader.new) }
    ensures raster { OnOk result (MeetsCells (raw_raster bitmap.old.width bitmap.old.height)
        (R.rest reader.old) window.old bitmap.new) }
    ensures fault { IfErr result (MeetsFault (raw_raster bitmap.old.width bitmap.old.height)
        (R.rest reader.old) window.old) }
    ensures counts { CountsReads (R.failed_reads reader.old) result (R.failed_reads reader.new) }
{
    let height = bitmap.height();
    let across = usize::from(bytes_across(bitmap.width()));
    let mut reversed = [0; MOST_ACROSS];
    let mut words = [0; 64];
    'rows: for y in 0..height {
        window.next_row(reader, across, &mut reversed, &mut words)?;
        bitmap.set_row(y, &words);
    }
    window.fill(reader, usize::MAX)
}

/// Takes the raster of an image of this form into a blank bitmap, and checks that a plain image may
/// end where its pixels do.
fn take_raster<R: Source>(
    window: &mut Window,
    reader: &mut R,
    form: Form,
    bitmap: &mut Bitmap,
) -> Result<(), ImageStop>
    requires can_fail { CanFail (R.failed_reads reader.old) }
    requires open { IsOpen window.old (R.rest reader.old) }
    requires blank { bitmap.old ≡ cells_where bitmap.old.width bitmap.old.height (λ x y. false) }
    ensures open { IsOpen window.new (R.rest reader.new) }
    ensures raster { OnOk result (MeetsCells (raster form bitmap.old.width bitmap.old.height)
        (R.rest reader.old) window.old bitmap.new) }
    ensures fault { IfErr result (MeetsFault (raster form bitmap.old.width bitmap.old.height)
        (R.rest reader.old) window.old) }
    ensures counts { CountsReads (R.failed_reads reader.old) result (R.failed_reads reader.new) }
{
    match form {
        Form::Plain => {
            take_pixels(window, reader, bitmap)?;
            window.fill(reader, 0)?;
            after_image(window.unread())?;
            Ok(())
        }
        Form::Raw => take_raw(window, reader, bitmap),
    }
}

/// Takes the next image.
fn take_image<R: Source>(
    alloc: Global,
    window: &mut Window,
    reader: &mut R,
) -> Result<Bitmap, ImageStop>
    requires can_fail { CanFail (R.failed_reads reader.old) }
    requires open { IsOpen window.old (R.rest reader.old) }
    ensures open { IsOpen window.new (R.rest reader.new) }
    ensures image { IfOk result (MeetsCells image (R.rest reader.old) window.old) }
    ensures fault { IfErr result
        (λ stop. IsFaultOf stop (λ fault. Meets (R.rest reader.old) (unread window.old)
        (λ all. IsStopped all fault))) }
    ensures counts { CountsReads (R.failed_reads reader.old) result (R.failed_reads reader.new) }
{
    let header = window.next_header(reader)?;
    let mut bitmap = match header.blank(alloc) {
        Ok(bitmap) => bitmap,
        Err(refused) => return Err(ImageStop::Fault(PbmFault::from(refused))),
    };
    take_raster(window, reader, header.form, &mut bitmap)?;
    Ok(bitmap)
}

/// Reads and drops up to 2^32 - 1 blocks. Returns whether the source has ended.
fn pass_some<R: Source>(window: &mut Window, reader: &mut R) -> Result<bool, ImageStop>
    requires { CanFail (R.failed_reads reader.old) }
    ensures ended { result ≡ Ok true → AreAll (R.rest reader.new) [] }
    ensures no_fault { IfErr result (λ stop. IsFaultOf stop (λ met. ⊥)) }
    ensures counts { CountsReads (R.failed_reads reader.old) result (R.failed_reads reader.new) }
    ensures bytes { window.new.bytes ≡ window.old.bytes }
{
    'turns: for _ in 0..u32::MAX {
        if reader.next_block(window.block.as_mut_slice())? == 0 {
            return Ok(true);
        }
    }
    Ok(false)
}

/// Reads and drops what a source has left, unless the window has met its end. The window's buffer,
/// whose bytes are done with, counts: it has a byte for every 2^32 - 1 blocks.
fn pass_rest<R: Source>(window: &mut Window, reader: &mut R) -> Result<(), ImageStop>
    requires can_fail { CanFail (R.failed_reads reader.old) }
    requires open { IsOpen window.old (R.rest reader.old) }
    ensures ended { OnOk result (AreAll (R.rest reader.new) []) }
    ensures no_fault { IfErr result (λ stop. IsFaultOf stop (λ met. ⊥)) }
    ensures counts { CountsReads (R.failed_reads reader.old) result (R.failed_reads reader.new) }
{
    if window.ended {
        return Ok(());
    }
    window.bytes.clear();
    'turns: for _ in 0..u64::MAX {
        if pass_some(window, reader)? {
            return Ok(());
        }
        window.bytes.push(0).map_err(NoMemory::from)?;
    }
    unreachable!()
}

/// Reads the image at the front of a source, and the source to its end.
///
/// Reads images as `read_image` does. Packs an image as its bytes come, through a window of about
/// 128 KB; the window grows only where as many bytes stand between two pixels or before the raster,
/// from a fault of the image on, and after a raw image: what follows that is kept to the end, and
/// what follows a plain image is read and dropped. When out of memory for bytes that were read, it
/// reads no further; when out of memory for the bitmap, it reads and drops the rest. After a failed
/// read it doesn't call the source again.
pub fn read_source<R: Source>(alloc: Global, reader: &mut R) -> Result<Bitmap, ImageStop>
    requires { CanFail (R.failed_reads reader.old) }
    ensures image { IfOk result (HasImage (R.rest reader.old)) }

    // A fault is the first from the front, and then there is no image; or everything before the
    // raster is valid, and there was no memory for the bitmap.
    ensures fault { IfErr result (λ stop. IsFaultOf stop (HasFault (R.rest reader.old))) }

    // If no read failed and there was memory for what was read, nothing is left.
    ensures ended { IsPassed result (R.rest reader.new) }
    ensures counts { CountsReads (R.failed_reads reader.old) result (R.failed_reads reader.new) }
{
    let mut window = Window::new(alloc);
    let found = take_image(alloc, &mut window, reader);
    if let Ok(_) | Err(ImageStop::Fault(_)) = &found {
        pass_rest(&mut window, reader)?;
    }
    found
}
