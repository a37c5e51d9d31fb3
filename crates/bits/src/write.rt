//! Writes the words of a bitmap: a word of a row, a whole row, and the rows of a tile.

ghost use Rattle.std.specs.Prelude.{◌≡◌, ◌<◌};
ghost use Rattle.bits.specs.Stored.{cells_stored, IsStored};
ghost use Rattle.bits.specs.Tiles.{tile_count};
ghost use Rattle.bits.specs.Words.{words_across};
ghost use Rattle.bits.specs.Writes.{with_row, with_tile, with_word};

use crate::word::low_bits;
use metric::WORD_BITS;

/// Writes a word of row `y` of a bitmap of this size. Ignores bits past the edge.
#[inline(always)]
pub fn write_word(words: &mut [u64], width: u16, height: u16, y: u16, index: u16, word: u64)
    requires stored { IsStored width height words.old }
    requires row { y < height }
    requires index { index < words_across width }
    ensures stored { IsStored width height words.new }
    ensures written { cells_stored width height words.new
        ≡ with_word (cells_stored width height words.old) y index word }
{
    let place = usize::from(y) * usize::from(width).div_ceil(WORD_BITS) + usize::from(index);
    words[place] = low_bits(word, width - 64 * index);
}

/// Writes row `y`, the last word as `write_word` does.
pub fn write_row(words: &mut [u64], width: u16, height: u16, y: u16, row: &[u64; 64])
    requires stored { IsStored width height words.old }
    requires row { y < height }
    ensures stored { IsStored width height words.new }
    ensures written { cells_stored width height words.new
        ≡ with_row (cells_stored width height words.old) y row.now }
{
    let last = (width - 1) / 64;
    let start = usize::from(y) * (usize::from(last) + 1);
    'words: for index in 0..usize::from(last) {
        words[start + index] = row[index];
    }
    write_word(words, width, height, y, last, row[usize::from(last)]);
}

/// Writes the rows of the tile at this position, each word as `write_word` does.
pub fn write_tile(words: &mut [u64], width: u16, height: u16, position: u16, tile: &[u64; 64])
    requires stored { IsStored width height words.old }
    requires position { position < tile_count (cells_stored width height words.old) }
    ensures stored { IsStored width height words.new }
    ensures written { cells_stored width height words.new
        ≡ with_tile (cells_stored width height words.old) position tile.now }
{
    let across = width.div_ceil(64);
    let top = 64 * (position / across);
    'rows: for y in top..(top + 64).min(height) {
        let word = tile[usize::from(y - top)];
        write_word(words, width, height, y, position % across, word);
    }
}
