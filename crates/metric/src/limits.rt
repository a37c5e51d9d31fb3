//! How large a map can be, and how many cells a word holds.

/// The most columns of a map, and the most rows.
pub const MOST_SIDE: u16 = 4096;

/// The most columns of a map with its frame, and the most rows.
pub const FRAMED_SIDE: u16 = MOST_SIDE + 2;

/// The last column of a map with its frame, and the last row.
pub const LAST_FRAMED: u16 = MOST_SIDE + 1;

/// Cells per word.
pub const WORD_CELLS: u16 = 64;

/// `WORD_CELLS` as a `usize`.
pub const WORD_BITS: usize = WORD_CELLS as usize;

/// Columns and rows of a tile: one word per row.
pub const TILE_SIDE: u16 = WORD_CELLS;

/// The most tiles of a map.
pub const MOST_TILES: u16 = 4096;

/// Rows per band. One bit says whether a band may have an obstacle.
pub const BAND_ROWS: u16 = WORD_CELLS;
