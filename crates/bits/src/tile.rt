//! The tiles of a bitmap, and their rows as words.

ghost use Rattle.std.specs.Prelude.{◌≡◌, ◌≤◌, ◌<◌};
ghost use Rattle.bits.specs.Tiles.{tile_count, row_word};
ghost use Rattle.bits.specs.Cells.{IsBitmap};
ghost use Rattle.bits.specs.Words.{words_across};
ghost use Rattle.bits.specs.Writes.{with_tile};

use crate::band::{all_bits, marked_by, renewed};
use crate::bitmap::Bitmap;
use crate::word::has_bit;
use crate::write::write_tile;
use metric::{MOST_TILES, TILE_SIDE};

impl Bitmap {
    /// The number of tiles of 64 by 64 cells of the bitmap, including those at its edge: 1 to 4096.
    pub fn tiles(&self) -> u16
        ensures tiles { result ≡ tile_count self.now }
        ensures few { result ≤ MOST_TILES }
        ensures bitmap { IsBitmap self.now }
    {
        self.tiles_across() * self.height().div_ceil(TILE_SIDE)
    }

    /// The number of tiles in a row of tiles.
    fn tiles_across(&self) -> u16
        ensures across { result ≡ words_across self.now.width }
        ensures some { 1 ≤ result }
        ensures few { result ≤ TILE_SIDE }
    {
        self.width().div_ceil(TILE_SIDE)
    }

    /// The row of the tile at this position, from 0 to 63, as a word: bit j is column j, and 0 past
    /// the bitmap's edge.
    #[tactic(auto, using(crate::proofs::TileLemmas::tile_row_past))]
    pub fn tile_row(&self, position: u16, row: u16) -> u64
        requires position { position < tile_count self.now }
        requires row { row < TILE_SIDE }
        ensures { result ≡ row_word self.now position row }
    {
        let height = self.height();
        let across = self.tiles_across();
        let y = TILE_SIDE * (position / across) + row;
        if y < height {
            self.row_words(y)[usize::from(position % across)]
        } else {
            0
        }
    }

    /// Writes the cells of the tile at this position: word i is its row i, and bit j of it is
    /// column j. Ignores bits past the edge.
    #[tactic(auto, using(crate::proofs::StoredLemmas::bitmaps))]
    pub fn put_tile(&mut self, position: u16, words: &[u64; 64])
        requires { position < tile_count self.old }
        ensures written { self.new ≡ with_tile self.old position words.now }
        ensures bitmap { IsBitmap self.new }
    {
        let across = self.tiles_across();
        let top = TILE_SIDE * (position / across);
        let cells = self.words.as_mut_slice();
        write_tile(cells, self.width, self.height, position, words);
        self.bands = marked_by(self.bands, top, words);
        self.marks.mark(top, position % across, all_bits(words));
    }

    /// Writes the cells of the tile as `put_tile` does, and takes the tile's bit if all words are
    /// 0, and its band's if none of its tiles has a bit. A bitmap of which each tile is written so
    /// needs no `clear` before; a bit past the edge, which is no cell, keeps a blank tile's.
    #[tactic(auto, using(crate::proofs::StoredLemmas::bitmaps))]
    pub fn renew_tile(&mut self, position: u16, words: &[u64; 64])
        requires { position < tile_count self.old }
        ensures written { self.new ≡ with_tile self.old position words.now }
        ensures bitmap { IsBitmap self.new }
    {
        let across = self.tiles_across();
        let (band, index) = (position / across, position % across);
        let all = all_bits(words);
        if all == 0 && !has_bit(self.marks.of(band), index) {
            return;
        }
        let cells = self.words.as_mut_slice();
        write_tile(cells, self.width, self.height, position, words);
        self.marks.renew(band, index, all);
        self.bands = renewed(self.bands, band, self.marks.of(band));
    }
}
