//! The layout of a map in the caller's memory.

/// A map in bytes, one per cell: cell (x, y) is the byte at y * `stride` + x.
///
/// A cell is an obstacle where its byte is at least `low` and at most `high`.
#[repr(C)]
#[derive(Clone, Copy, Debug)]
pub struct ClearmapBytes {
    /// Columns, 1 to 4096.
    pub width: u32,
    /// Rows, 1 to 4096.
    pub height: u32,
    /// Bytes from one row's first byte to the next row's: `width` or more, below 2^32.
    pub stride: usize,
    /// The least byte that marks an obstacle.
    pub low: u8,
    /// The greatest byte that marks an obstacle: `low` or more.
    pub high: u8,
}

/// A map in bits, 64 cells per word: cell (x, y) is bit x % 64 of the word at y * `stride` + x /
/// 64.
///
/// A cell is an obstacle where its bit is 1, bit y / 64 of `blank_bands` is 0, and so is the mark
/// of its tile, if tiles have marks: bit x / 64 of the word at `tiles` + y / 64.
#[repr(C)]
#[derive(Clone, Copy, Debug)]
pub struct ClearmapBits {
    /// Columns, 1 to 4096.
    pub width: u32,
    /// Rows, 1 to 4096.
    pub height: u32,
    /// Words from one row's first word to the next row's: (`width` + 63) / 64 or more, below 2^32.
    pub stride: usize,
    /// Which bands of 64 rows are known to be blank. Where bit k is 1, rows 64 k to 64 k + 63 count
    /// as blank, whatever their words say. 0 where nothing is known.
    pub blank_bands: u64,
    /// Where among the words, after the last row, the marks of tiles begin, one word per band.
    /// Where bit i of the word of band k is 1, columns 64 i to 64 i + 63 of its rows count as
    /// blank, whatever their words say. 0 where there are no marks.
    pub tiles: usize,
}
