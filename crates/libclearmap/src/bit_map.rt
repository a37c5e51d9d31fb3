//! A map in the caller's bits without marks of its tiles, read in place.

ghost use Rattle.std.specs.Prelude.{◌≡◌, ◌<◌, ◌==◌, length, slice_index, true, if◌then◌else◌};
ghost use Rattle.std.specs.Int.{bit_at};
ghost use Rattle.bits.specs.Words.{words_across};
ghost use Rattle.clearance.specs.Rows.{words_of_row};
ghost use Rattle.libclearmap.specs.Layouts.{IsShape};

use crate::layout::ClearmapBits;
use bits::low_bits;
use clearance::Rows;
use metric::BAND_ROWS;

/// A map laid out as `map` in these words. Bits past the edge may be anything, and so may what is
/// known of its tiles.
#[derive(Drop)]
pub struct BitMap<'a> {
    pub words: &'a [u64],
    pub map: ClearmapBits,
    pub ghost shape: { IsShape map.width map.height (words_across map.width) map.stride
        (length words.now) },
}

impl<'a> BitMap<'a> {
    ghost use Rattle.libclearmap.specs.Layouts.{cells_of_rows};

    /// A word of row `y`, 0 past the edge and where the row's band is known to be blank.
    #[inline(always)]
    #[tactic(auto, using(crate::proofs::LayoutLemmas::word_in_bits))]
    pub fn word_at(&self, y: u16, index: usize) -> u64
        requires row { y < self.now.map.height }
        requires index { index < words_across self.now.map.width }
        ensures { result
            ≡ slice_index (words_of_row (cells_of_rows self.now.map self.now.words.now) y) index }
    {
        let word = self.words[usize::from(y) * self.map.stride + index];
        let own = low_bits(word, self.map.width as u16 - 64 * index as u16);
        counted(self.map.blank_bands, usize::from(y / BAND_ROWS), own)
    }
}

#[tactic(auto, using(crate::proofs::LayoutLemmas::maps))]
impl<'a> Rows for BitMap<'a> {
    ghost use Rattle.libclearmap.specs.Layouts.{cells_of_rows};

    ghost cells = { λ rows. cells_of_rows rows.map rows.words.now };

    fn width(&self) -> u16 {
        self.map.width as u16
    }

    fn height(&self) -> u16 {
        self.map.height as u16
    }

    fn across(&self) -> usize {
        (self.map.width as usize).div_ceil(64)
    }

    #[inline(always)]
    fn word(&mut self, y: u16, index: usize) -> u64 {
        self.word_at(y, index)
    }

    #[inline(always)]
    fn bands(&self) -> u64 {
        !self.map.blank_bands
    }
}

/// A word of the band or the tile of this index, or 0 where its mark says that it is blank.
#[inline(always)]
pub fn counted(marks: u64, index: usize, word: u64) -> u64
    requires { index < 64 }
    ensures { result ≡ (if bit_at marks index == 0 then word else 0) }
{
    if (marks >> index) & 1 == 0 { word } else { 0 }
}
