//! Which tiles of a bitmap may have an obstacle: one word per band of 64 rows, with one bit per 64
//! columns.

ghost use Rattle.std.specs.Prelude.{◌≡◌, ◌≢◌, ℕ, ◌<◌, ◌≤◌, ◌/◌, slice_index, IfOk};
ghost use Rattle.std.specs.Int.{bit_at};

use crate::band::{renewed, with_mark, with_marks};
use metric::{BAND_ROWS, MOST_SIDE, NoMemory};
use std::alloc::Global;
use std::marker::Model;

/// The most bands of a bitmap.
const MOST_BANDS: usize = 64;

/// The marks of the tiles of 64 bands. Contracts see the words.
#[derive(Debug, Drop)]
pub struct TileMarks {
    bands: Vec<u64>,
}

impl Model for TileMarks {
    ghost use Rattle.std.specs.Prelude.{◌≡◌, ℕ, List, length};

    ghost Value = { List ℕ };

    ghost view = { λ m. m.bands.items };

    ghost invariant = { λ m. length m.bands.items ≡ 64 };
}

impl TileMarks {
    /// Marks without any tile.
    pub fn blank(alloc: Global) -> Result<Self, NoMemory> {
        let bands = vec![in alloc; 0u64; MOST_BANDS]?;
        Ok(TileMarks { bands })
    }

    /// Copies the marks.
    pub fn try_copy(&self, alloc: Global) -> Result<Self, NoMemory>
        ensures { IfOk result (λ copy. copy ≡ self.now) }
    {
        let bands = Vec::from_slice(alloc, self.bands.as_slice())?;
        Ok(TileMarks { bands })
    }

    /// Makes these marks equal to others.
    pub fn copy_from(&mut self, other: &TileMarks)
        ensures { self.new ≡ other.now }
    {
        self.bands
            .as_mut_slice()
            .copy_from_slice(other.bands.as_slice());
    }

    /// Clears all marks.
    pub fn clear(&mut self) {
        self.bands.fill(0);
    }

    /// The marks of a band.
    #[inline(always)]
    pub fn of(&self, band: u16) -> u64
        requires { band < 64 }
        ensures { result ≡ slice_index self.now band }
    {
        self.bands[usize::from(band)]
    }

    /// Marks the tile of row `y` in the columns of word `index`, if this word has an obstacle. Each
    /// tile keeps its mark.
    #[inline(always)]
    pub fn mark(&mut self, y: u16, index: u16, word: u64)
        requires row { y < MOST_SIDE }
        requires index { index < 64 }
        ensures here { (i : ℕ) → bit_at word i ≡ 1
            → bit_at (slice_index self.new (y / BAND_ROWS)) index ≡ 1 }
        ensures kept { (band k : ℕ) → k < 64 → bit_at (slice_index self.old band) k ≡ 1
            → bit_at (slice_index self.new band) k ≡ 1 }
    {
        let band = usize::from(y / BAND_ROWS);
        self.bands[band] = with_mark(self.bands[band], index, word);
    }

    /// Marks the tile of a band if this word, of all its rows, has an obstacle, and takes its mark
    /// if it has none. Each other tile keeps its mark.
    #[inline(always)]
    pub fn renew(&mut self, band: u16, index: u16, word: u64)
        requires band { band < 64 }
        requires index { index < 64 }
        ensures here { (i : ℕ) → bit_at word i ≡ 1
            → bit_at (slice_index self.new band) index ≡ 1 }
        ensures kept { (other k : ℕ) → k < 64 → (other ≡ band → k ≢ index)
            → bit_at (slice_index self.old other) k ≡ 1
            → bit_at (slice_index self.new other) k ≡ 1 }
    {
        let place = usize::from(band);
        self.bands[place] = renewed(self.bands[place], index, word);
    }

    /// Marks the tiles of row `y` in which one of the first `across` words has an obstacle. Each
    /// tile keeps its mark.
    pub fn mark_row(&mut self, y: u16, row: &[u64; 64], across: u16)
        requires row { y < MOST_SIDE }
        requires across { across ≤ 64 }
        ensures here { (k i : ℕ) → k < across → bit_at (slice_index row.now k) i ≡ 1
            → bit_at (slice_index self.new (y / BAND_ROWS)) k ≡ 1 }
        ensures kept { (band k : ℕ) → k < 64 → bit_at (slice_index self.old band) k ≡ 1
            → bit_at (slice_index self.new band) k ≡ 1 }
    {
        let band = usize::from(y / BAND_ROWS);
        self.bands[band] = with_marks(self.bands[band], row, across);
    }
}
