//! A corner of a polygon.

/// A corner, in steps of 1/65536 of a cell. The square of cell (x, y) has the corners (65536 x,
/// 65536 y) and (65536 (x + 1), 65536 (y + 1)).
#[repr(C)]
#[derive(Clone, Copy, Debug, PartialEq, Eq)]
pub struct Corner {
    pub x: i32,
    pub y: i32,
}

/// Steps of a cell.
pub const STEPS: i64 = 65536;

/// The most steps of a corner's x or y, either way.
pub const MOST_STEPS: i32 = 1_073_741_823;
