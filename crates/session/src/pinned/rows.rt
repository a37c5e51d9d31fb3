//! The words of the pinned version: a fresh pin reads only those that a query asks for, or their
//! bands.

use crate::pinned::Pinned;
use clearance::Rows;
use shelf::StoreName;

impl<Id: StoreName> Rows for Pinned<Id> {
    ghost use Rattle.session.specs.Sessions.{bitmap_pinned};

    ghost cells = { λ p. bitmap_pinned Id.store p };

    fn width(&self) -> u16 {
        self.copy.bitmap.width()
    }

    fn height(&self) -> u16 {
        self.copy.bitmap.height()
    }

    fn across(&self) -> usize {
        usize::from(self.copy.bitmap.width()).div_ceil(64)
    }

    #[inline(always)]
    fn word(&mut self, y: u16, index: usize) -> u64 {
        let (version, slot) = (self.version, self.slot);
        self.copy.word(&mut self.seat, version, slot, y, index)
    }

    #[inline(always)]
    fn bands(&self) -> u64 {
        self.copy.bands()
    }

    #[inline(always)]
    fn tiles(&self, band: u16) -> u64 {
        self.copy.tiles(band)
    }
}
