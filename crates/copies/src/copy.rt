//! A pin's copy of the version that it holds, read band by band as queries need it.

ghost use Rattle.std.specs.Prelude.{◌≡◌, ◌≢◌, ℕ, ◌-◌, ◌^◌, ◌<◌, IfSome, None};
ghost use Rattle.std.specs.Int.{bit_at};
ghost use Rattle.bits.specs.Bands.{IsBanded, IsTiled};
ghost use Rattle.bits.specs.Cells.{IsBitmap};
ghost use Rattle.bits.specs.Tiles.{tiles_down};

use crate::looks::Looks;
use bits::{Bitmap, has_bit};
use metric::BAND_ROWS;

/// A bitmap of the version's size with the bands of 64 rows that have been read, and how many words
/// queries may still look at. Where bit k of `unread` is 1, the bitmap's rows 64 k to 64 k + 63
/// haven't been read: their cells and marks mean nothing.
#[derive(Drop)]
pub struct VersionCopy {
    pub bitmap: Bitmap,
    pub unread: u64,
    pub(crate) looks: Looks,
}

impl VersionCopy {
    /// A copy of which no band has been read, in a bitmap with any cells.
    pub(crate) fn fresh(bitmap: Bitmap) -> VersionCopy
        ensures bitmap { (result.bitmap ≡ bitmap) × IsBitmap bitmap }
        ensures unread { (k : ℕ) → k < tiles_down bitmap.height → bit_at result.unread k ≡ 1 }
    {
        VersionCopy {
            unread: unread_bands(&bitmap),
            looks: Looks::fresh(bitmap.width(), bitmap.tiles()),
            bitmap,
        }
    }

    /// Forgets which bands have been read and what queries have looked at.
    pub(crate) fn renew(&mut self)
        ensures bitmap { (self.new.bitmap ≡ self.old.bitmap) × IsBitmap self.old.bitmap }
        ensures unread { (k : ℕ) → k < tiles_down self.old.bitmap.height
            → bit_at self.new.unread k ≡ 1 }
    {
        self.looks.renew();
        self.unread = unread_bands(&self.bitmap);
    }

    /// The whole version, if it has been read.
    pub fn whole(&self) -> Option<&Bitmap>
        ensures some { IfSome result (λ bitmap. (bitmap.now ≡ self.now.bitmap)
            × (self.now.unread ≡ 0)) }
        ensures none { result ≡ None → self.now.unread ≢ 0 }
    {
        (self.unread == 0).then_some(&self.bitmap)
    }

    /// Whether the next query reads all other bands first: half of the bands have been read, or
    /// queries have read all words that they may. No clause speaks of it: it changes no answer.
    pub fn is_enough(&self) -> bool {
        let down = u32::from(self.bitmap.height()).div_ceil(64);
        self.unread.count_ones() <= down / 2 || self.looks.are_used_up()
    }

    /// Which bands of 64 rows may have an obstacle: those of the bitmap that may, and all that
    /// haven't been read.
    #[inline(always)]
    pub fn bands(&self) -> u64
        ensures banded { IsBanded self.now.bitmap result }
        ensures unread { (k : ℕ) → bit_at self.now.unread k ≡ 1 → bit_at result k ≡ 1 }
    {
        self.bitmap.bands() | self.unread
    }

    /// As `bands`, of a band's tiles.
    #[inline(always)]
    pub fn tiles(&self, band: u16) -> u64
        requires { band < 64 }
        ensures tiled { bit_at self.now.unread band ≡ 0 → IsTiled self.now.bitmap band result }
        ensures unread { bit_at self.now.unread band ≡ 1 → result ≡ 2 ^ 64 - 1 }
    {
        if has_bit(self.unread, band) {
            u64::MAX
        } else {
            self.bitmap.marked_tiles(band)
        }
    }

    /// Whether this many words of a band are looked at one by one, even if they are blank.
    #[inline(always)]
    pub(crate) fn is_looked_at(&self, band: u16) -> bool
        requires { band < 64 }
    {
        has_bit(self.unread, band) && self.looks.allow()
    }
}

/// The bands of a bitmap of which none has been read.
fn unread_bands(bitmap: &Bitmap) -> u64
    ensures bitmap { IsBitmap bitmap.now }
    ensures unread { (k : ℕ) → k < tiles_down bitmap.now.height → bit_at result k ≡ 1 }
{
    u64::MAX >> (64 - bitmap.height().div_ceil(BAND_ROWS))
}
