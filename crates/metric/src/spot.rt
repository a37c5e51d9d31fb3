//! The position of an obstacle, in a map or in the frame around it.

/// The cell of column `x` and row `y`, counted from 0 as in a map. In the frame around a map,
/// either may be -1, or the number of columns or rows of the map.
#[derive(Clone, Copy, Debug, PartialEq, Eq, PartialOrd, Ord, Hash)]
pub struct Spot {
    pub x: i16,
    pub y: i16,
}
