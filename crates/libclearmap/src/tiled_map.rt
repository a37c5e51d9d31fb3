//! A map in the caller's bits with marks of its tiles, read in place.

ghost use Rattle.std.specs.Prelude.{◌≡◌, ◌≢◌, ◌+◌, ◌≤◌, ◌<◌, length, slice_index};
ghost use Rattle.libclearmap.specs.Layouts.{bands_down};

use crate::bit_map::{BitMap, counted};
use clearance::Rows;
use metric::BAND_ROWS;

/// A map in bits, of whose tiles those are known to be blank that have a mark.
#[derive(Drop)]
pub struct TiledMap<'a> {
    pub plain: BitMap<'a>,
    pub ghost marked: { plain.map.tiles ≢ 0 },
    pub ghost marks: { plain.map.tiles + bands_down plain.map ≤ length plain.words.now },
}

impl<'a> TiledMap<'a> {
    /// The marks of a band's tiles.
    #[inline(always)]
    fn marks(&self, band: u16) -> u64
        requires { band < bands_down self.now.plain.map }
        ensures { result ≡ slice_index self.now.plain.words.now (self.now.plain.map.tiles + band) }
    {
        self.plain.words[self.plain.map.tiles + usize::from(band)]
    }
}

#[tactic(auto, using(crate::proofs::TileLemmas::tiled))]
impl<'a> Rows for TiledMap<'a> {
    ghost use Rattle.libclearmap.specs.Layouts.{cells_of_bits};

    ghost cells = { λ rows. cells_of_bits rows.plain.map rows.plain.words.now };

    fn width(&self) -> u16 {
        self.plain.width()
    }

    fn height(&self) -> u16 {
        self.plain.height()
    }

    fn across(&self) -> usize {
        self.plain.across()
    }

    #[inline(always)]
    fn word(&mut self, y: u16, index: usize) -> u64 {
        let marks = self.marks(y / BAND_ROWS);
        counted(marks, index, self.plain.word_at(y, index))
    }

    #[inline(always)]
    fn bands(&self) -> u64 {
        self.plain.bands()
    }

    #[inline(always)]
    fn tiles(&self, band: u16) -> u64 {
        if band < self.height().div_ceil(BAND_ROWS) {
            !self.marks(band)
        } else {
            0
        }
    }
}
