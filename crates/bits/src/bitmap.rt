//! A bitmap of 1 to 4096 cells a side.

ghost use Rattle.std.specs.Prelude.{◌≡◌, ◌+◌, ◌*◌, ◌/◌, ◌%◌, ◌<◌, ◌≤◌, ◌↔◌, IsTrue, IfOk};
ghost use Rattle.std.specs.Prelude.{false};
ghost use Rattle.bits.specs.Cells.{has, cells_where, with_cell, IsSide, IsBitmap, IsInside};
ghost use Rattle.bits.specs.Bands.{IsBanded, IsTiled};
ghost use Rattle.bits.specs.Words.{words_across, IsRowOf};
ghost use Rattle.bits.specs.Writes.{with_row, with_word};

use crate::band::{marked, marked_by};
use crate::tile_marks::TileMarks;
use crate::word::{has_bit, with_bit};
use crate::write::{write_row, write_word};
use metric::{Cell, NoMemory, Rect, WORD_BITS, WORD_CELLS};
use std::alloc::Global;
use std::marker::Model;

/// A bitmap. Contracts see its size and its set of obstacles.
///
/// Its rows lie one after another, each in as many words as it needs; bit i of a row's word k is
/// the cell of column 64 k + i. Bit k of the bands is 1 if rows 64 k to 64 k + 63 may have an
/// obstacle, and bit k of a band's marks if its tile in columns 64 k to 64 k + 63 may have one.
#[derive(Debug)]
pub struct Bitmap {
    pub(crate) width: u16,
    pub(crate) height: u16,
    pub(crate) words: Vec<u64>,
    pub(crate) bands: u64,
    pub(crate) marks: TileMarks,
}

// Written by hand: a derived drop is proved field by field at each exit of each caller.
impl Drop for Bitmap {
    /// Frees the words and the marks.
    fn drop(self) {
        let Bitmap {
            width: _,
            height: _,
            words: _,
            bands: _,
            marks: _,
        } = self;
    }
}

impl Model for Bitmap {
    ghost use Rattle.bits.specs.Cells.{Cells};

    ghost Value = { Cells };

    ghost use Rattle.bits.specs.Stored.{cells_stored};
    ghost use Rattle.bits.specs.Bands.{AreBandsKept};

    ghost view = { λ b. cells_stored b.width b.height b.words.items };

    ghost invariant = { λ b. AreBandsKept b.width b.height b.words.items b.bands b.marks };
}

impl Bitmap {
    /// A bitmap of this size without obstacles. Fails only when out of memory.
    pub fn blank(alloc: Global, width: u16, height: u16) -> Result<Self, NoMemory>
        requires width { IsSide width }
        requires height { IsSide height }
        ensures { IfOk result (λ bitmap. bitmap ≡ cells_where width height (λ x y. false)) }
    {
        let across = usize::from(width).div_ceil(WORD_BITS);
        let words = vec![in alloc; 0u64; across * usize::from(height)]?;
        let marks = TileMarks::blank(alloc)?;
        Ok(Bitmap {
            width,
            height,
            words,
            bands: 0,
            marks,
        })
    }

    /// The number of columns.
    #[tactic(auto, using(crate::proofs::StoredLemmas::kept_bitmap))]
    pub fn width(&self) -> u16
        ensures width { result ≡ self.now.width }
        ensures bitmap { IsBitmap self.now }
    {
        self.width
    }

    /// The number of rows.
    #[tactic(auto, using(crate::proofs::StoredLemmas::kept_bitmap))]
    pub fn height(&self) -> u16
        ensures height { result ≡ self.now.height }
        ensures bitmap { IsBitmap self.now }
    {
        self.height
    }

    /// Whether the cell is in the bitmap.
    #[tactic(auto, using(crate::proofs::StoredLemmas::kept_bitmap))]
    pub fn holds(&self, cell: Cell) -> bool
        ensures holds { IsTrue result ↔ IsInside self.now cell.x cell.y }
        ensures bitmap { IsBitmap self.now }
    {
        cell.x < self.width && cell.y < self.height
    }

    /// Whether the rectangle is wholly within the bitmap.
    #[tactic(auto, using(crate::proofs::StoredLemmas::kept_bitmap))]
    pub fn holds_rect(&self, rect: Rect) -> bool
        ensures holds { IsTrue result ↔ ((rect.x1 ≤ self.now.width) × (rect.y1 ≤ self.now.height)) }
        ensures bitmap { IsBitmap self.now }
    {
        rect.x1 <= self.width && rect.y1 <= self.height
    }

    /// The word that has the cell, and its bit there.
    fn place_of(&self, cell: Cell) -> (usize, u16)
        requires { IsInside self.now cell.x cell.y }
        ensures index { result.0 ≡ cell.y * words_across self.now.width + cell.x / 64 }
        ensures place { result.1 ≡ cell.x % 64 }
    {
        let index = usize::from(cell.y) * self.words_across() + usize::from(cell.x) / WORD_BITS;
        (index, cell.x % WORD_CELLS)
    }

    /// The number of words of a row.
    fn words_across(&self) -> usize
        ensures words { result ≡ words_across self.now.width }
        ensures few { result ≤ 64 }
    {
        usize::from(self.width).div_ceil(WORD_BITS)
    }

    /// Whether the cell is an obstacle.
    pub fn get(&self, cell: Cell) -> bool
        requires { IsInside self.now cell.x cell.y }
        ensures { result ≡ has self.now cell.x cell.y }
    {
        let (index, place) = self.place_of(cell);
        has_bit(self.words[index], place)
    }

    /// Makes the cell an obstacle, or free.
    #[tactic(auto, using(crate::proofs::StoredLemmas::bitmaps))]
    pub fn set(&mut self, cell: Cell, black: bool)
        requires { IsInside self.old cell.x cell.y }
        ensures written { self.new ≡ with_cell self.old cell.x cell.y black }
        ensures bitmap { IsBitmap self.new }
    {
        let (index, place) = self.place_of(cell);
        self.words[index] = with_bit(self.words[index], place, black);
        self.bands = marked(self.bands, cell.y, u64::from(black));
        self.marks
            .mark(cell.y, cell.x / WORD_CELLS, u64::from(black));
    }

    /// Writes the cells of row `y` in word `index`: bit i is the cell of column 64 `index` + i.
    /// Ignores bits past the edge.
    #[tactic(auto, using(crate::proofs::StoredLemmas::bitmaps))]
    pub fn set_word(&mut self, y: u16, index: u16, word: u64)
        requires row { y < self.old.height }
        requires index { index < words_across self.old.width }
        ensures written { self.new ≡ with_word self.old y index word }
        ensures bitmap { IsBitmap self.new }
    {
        let words = self.words.as_mut_slice();
        write_word(words, self.width, self.height, y, index, word);
        self.bands = marked(self.bands, y, word);
        self.marks.mark(y, index, word);
    }

    /// Writes row `y`, each word of it as `set_word` does, as many as it needs.
    #[tactic(auto, using(crate::proofs::StoredLemmas::bitmaps))]
    pub fn set_row(&mut self, y: u16, row: &[u64; 64])
        requires { y < self.old.height }
        ensures written { self.new ≡ with_row self.old y row.now }
        ensures bitmap { IsBitmap self.new }
    {
        let words = self.words.as_mut_slice();
        write_row(words, self.width, self.height, y, row);
        self.bands = marked_by(self.bands, y, row);
        let across = self.width.div_ceil(WORD_CELLS);
        self.marks.mark_row(y, row, across);
    }

    /// The words of row `y`, as many as it needs. Bits past the edge are 0.
    pub fn row_words(&self, y: u16) -> &[u64]
        requires { y < self.now.height }
        ensures { IsRowOf self.now y result.now }
    {
        let across = self.words_across();
        let start = usize::from(y) * across;
        &self.words[start..start + across]
    }

    /// Which bands of 64 rows may have an obstacle: where bit k is 0, rows 64 k to 64 k + 63 are
    /// blank.
    ///
    /// A band in which an obstacle was written keeps its bit, also where its cells are free again,
    /// until the bitmap is cleared or becomes a copy of another, or `renew_tile` takes its last
    /// tile's.
    #[inline(always)]
    pub fn bands(&self) -> u64
        ensures { IsBanded self.now result }
    {
        self.bands
    }

    /// Which tiles of the band may have an obstacle: where bit k is 0, columns 64 k to 64 k + 63 of
    /// rows 64 `band` to 64 `band` + 63 are blank.
    ///
    /// A tile in which an obstacle was written keeps its bit as its band does, until `renew_tile`
    /// writes it without any.
    #[inline(always)]
    pub fn marked_tiles(&self, band: u16) -> u64
        requires { band < 64 }
        ensures { IsTiled self.now band result }
    {
        self.marks.of(band)
    }

    /// Copies the bitmap. Fails only when out of memory.
    pub fn try_copy(&self, alloc: Global) -> Result<Self, NoMemory>
        ensures { IfOk result (λ copy. copy ≡ self.now) }
    {
        let words = Vec::from_slice(alloc, self.words.as_slice())?;
        let marks = self.marks.try_copy(alloc)?;
        Ok(Bitmap {
            width: self.width,
            height: self.height,
            words,
            bands: self.bands,
            marks,
        })
    }

    /// Makes this bitmap equal to another of the same size. It allocates no memory.
    pub fn copy_from(&mut self, other: &Bitmap)
        requires width { self.old.width ≡ other.now.width }
        requires height { self.old.height ≡ other.now.height }
        ensures { self.new ≡ other.now }
    {
        self.words
            .as_mut_slice()
            .copy_from_slice(other.words.as_slice());
        self.bands = other.bands;
        self.marks.copy_from(&other.marks);
    }

    /// Frees every cell, and clears the bands' bits. It allocates no memory.
    pub fn clear(&mut self)
        ensures { self.new ≡ cells_where self.old.width self.old.height (λ x y. false) }
    {
        self.words.fill(0);
        self.bands = 0;
        self.marks.clear();
    }
}
