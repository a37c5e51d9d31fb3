//! One cell of a map.

/// The cell of column `x`, from the left, and row `y`, from the top, both counted from 0.
#[repr(C)]
#[derive(Clone, Copy, Debug, PartialEq, Eq, PartialOrd, Ord, Hash)]
pub struct Cell {
    pub x: u16,
    pub y: u16,
}
