//! Reads words, rows and bands of a pin's version into its copy, as a query asks for them.

ghost use Rattle.std.specs.Prelude.{◌≡◌, ℕ, ◌<◌, true, Some, slice_index};
ghost use Rattle.std.specs.Int.{bit_at};
ghost use Rattle.bits.specs.Tiles.{tiles_down};
ghost use Rattle.bits.specs.Words.{words_across};
ghost use Rattle.clearance.specs.Rows.{words_of_row};
ghost use Rattle.events.specs.Tidy.{IsOfMap};
ghost use Rattle.copies.specs.Copies.{bitmap_seen, HasSlot, IsCopying};

use crate::copy::VersionCopy;
use bits::{has_bit, without_bit};
use metric::BAND_ROWS;
use shelf::{ReaderSeat, StoreName};

impl VersionCopy {
    /// Reads a word of row `y` of the held version: from its band's rows, if the band has been
    /// read, or by a look at this word alone. After many blank words one after another, in
    /// whichever bands, the word's band is read.
    #[inline(always)]
    pub fn word<Id: StoreName>(
        &mut self,
        seat: &mut ReaderSeat<Id>,
        version: u32,
        slot: u32,
        y: u16,
        index: usize,
    ) -> u64
        requires copying { IsCopying Id.store seat.old version slot self.old.bitmap
            self.old.unread }
        requires row { y < (bitmap_seen Id.store seat.old version).height }
        requires index { index < words_across (bitmap_seen Id.store seat.old version).width }
        ensures seat { seat.new ≡ seat.old }
        ensures copying { IsCopying Id.store seat.old version slot self.new.bitmap
            self.new.unread }
        ensures word { result ≡ slice_index
            (words_of_row (bitmap_seen Id.store seat.old version) y) index }
    {
        let band = y / BAND_ROWS;
        if self.is_looked_at(band) {
            let across = u32::from(self.bitmap.width()).div_ceil(64);
            let word = look_word(seat, version, slot, across, y, index as u32);
            self.looks.count_word(word);
            return word;
        }
        self.word_read(seat, version, slot, y, index)
    }

    /// As `word`, from the band's rows. A call of its own, so that searches have less code.
    #[inline(never)]
    fn word_read<Id: StoreName>(
        &mut self,
        seat: &mut ReaderSeat<Id>,
        version: u32,
        slot: u32,
        y: u16,
        index: usize,
    ) -> u64
        requires copying { IsCopying Id.store seat.old version slot self.old.bitmap
            self.old.unread }
        requires row { y < (bitmap_seen Id.store seat.old version).height }
        requires index { index < words_across (bitmap_seen Id.store seat.old version).width }
        ensures seat { seat.new ≡ seat.old }
        ensures copying { IsCopying Id.store seat.old version slot self.new.bitmap
            self.new.unread }
        ensures word { result ≡ slice_index
            (words_of_row (bitmap_seen Id.store seat.old version) y) index }
    {
        self.looks.count_read();
        self.ready(seat, version, slot, y / BAND_ROWS);
        self.bitmap.row_words(y)[index]
    }

    /// Reads a band of the held version, unless it has been read.
    #[inline(always)]
    fn ready<Id: StoreName>(
        &mut self,
        seat: &mut ReaderSeat<Id>,
        version: u32,
        slot: u32,
        band: u16,
    )
        requires copying { IsCopying Id.store seat.old version slot self.old.bitmap
            self.old.unread }
        requires band { band < tiles_down self.old.bitmap.height }
        requires few { band < 64 }
        ensures seat { seat.new ≡ seat.old }
        ensures copying { IsCopying Id.store seat.old version slot self.new.bitmap
            self.new.unread }
        ensures ready { bit_at self.new.unread band ≡ 0 }
        ensures kept { (k : ℕ) → k < 64 → bit_at self.old.unread k ≡ 0
            → bit_at self.new.unread k ≡ 0 }
    {
        if has_bit(self.unread, band) {
            self.read(seat, version, slot, band);
        }
    }

    /// Reads the rows of a band of the held version, tile by tile. No mark of the bitmap's earlier
    /// contents counts there, since each tile is written anew.
    #[inline(never)]
    fn read<Id: StoreName>(&mut self, seat: &mut ReaderSeat<Id>, version: u32, slot: u32, band: u16)
        requires copying { IsCopying Id.store seat.old version slot self.old.bitmap
            self.old.unread }
        requires band { band < tiles_down self.old.bitmap.height }
        requires few { band < 64 }
        ensures seat { seat.new ≡ seat.old }
        ensures copying { IsCopying Id.store seat.old version slot self.new.bitmap
            self.new.unread }
        ensures ready { bit_at self.new.unread band ≡ 0 }
        ensures kept { (k : ℕ) → k < 64 → bit_at self.old.unread k ≡ 0
            → bit_at self.new.unread k ≡ 0 }
    {
        let across = self.bitmap.width().div_ceil(64);
        let mut words = [0; 64];
        'tiles: for index in 0..across {
            let position = band * across + index;
            seat.look_rows(version, slot, position, &mut words);
            self.bitmap.renew_tile(position, &words);
        }
        self.unread = without_bit(self.unread, band);
        self.looks.count_band();
    }

    /// Reads all bands of the held version that haven't been read.
    pub fn read_rest<Id: StoreName>(&mut self, seat: &mut ReaderSeat<Id>, version: u32, slot: u32)
        requires copying { IsCopying Id.store seat.old version slot self.old.bitmap
            self.old.unread }
        ensures seat { seat.new ≡ seat.old }
        ensures copying { IsCopying Id.store seat.old version slot self.new.bitmap
            self.new.unread }
        ensures bitmap { self.new.bitmap ≡ bitmap_seen Id.store seat.old version }
        ensures whole { self.new.unread ≡ 0 }
    {
        if self.unread == 0 {
            return;
        }
        let down = self.bitmap.height().div_ceil(BAND_ROWS);
        'bands: for band in 0..down {
            self.ready(seat, version, slot, band);
        }
        self.unread = 0;
    }
}

/// Reads one word of a row of the held version, whose rows take `across` words: the row of its
/// tile.
#[inline(always)]
fn look_word<Id: StoreName>(
    seat: &mut ReaderSeat<Id>,
    version: u32,
    slot: u32,
    across: u32,
    y: u16,
    index: u32,
) -> u64
    requires held { seat.old.holds ≡ Some version }
    requires slot { HasSlot Id.store seat.old version slot }
    requires of_map { IsOfMap Id.store.base (bitmap_seen Id.store seat.old version) }
    requires across { across ≡ words_across (bitmap_seen Id.store seat.old version).width }
    requires row { y < (bitmap_seen Id.store seat.old version).height }
    requires index { index < across }
    ensures seat { seat.new ≡ seat.old }
    ensures word { result ≡ slice_index (words_of_row (bitmap_seen Id.store seat.old version) y)
        index }
{
    let position = y as u32 / 64 * across + index;
    seat.look_row(version, slot, position, y % 64)
}
