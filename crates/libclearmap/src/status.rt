//! The statuses of calls, in the order in which they are checked: the first that applies is
//! returned.

ghost use Rattle.std.specs.Prelude.{◌≡◌, ◌≤◌, IfOk};
ghost use Rattle.libclearmap.specs.Layouts.{IsShape};
ghost use Rattle.libclearmap.specs.Statuses.{IsChecked, first_wrong, range_status, refusal_status};
ghost use Rattle.libclearmap.specs.Statuses.{room_status, setting_status, shape_status};

use crate::layout::ClearmapBytes;
use metric::{MOST_SIDE, NoMemory, Refusal};

/// The call is done.
pub const DONE: u32 = 0;

/// A side of the map is 0 or over 4096.
pub const SIZE: u32 = 1;

/// The stride is less than a row, or 2^32 or more.
pub const STRIDE: u32 = 2;

/// The map's memory ends before its last row does.
pub const LENGTH: u32 = 3;

/// The marks of tiles lie among the rows, or the map's memory ends before they do.
pub const TILES: u32 = 12;

/// No metric has this number.
pub const METRIC: u32 = 4;

/// No edge has this number.
pub const EDGE: u32 = 5;

/// A table of costs has no entry.
pub const COSTS: u32 = 13;

/// A path has no points, or over 1000.
pub const POINTS: u32 = 6;

/// A cell, a row, a rectangle or a point isn't in the map; or a range of rows ends before it
/// starts; or a rectangle has no cell.
pub const OUTSIDE: u32 = 7;

/// A point of a path is in neither the row nor the column of the point before it.
pub const CROOKED: u32 = 8;

/// A polygon has under 3 corners, or over 128; or the corners aren't those of whole polygons.
pub const CORNERS: u32 = 14;

/// A corner of a polygon is 16,384 columns or rows away, or more.
pub const FAR: u32 = 15;

/// A polygon isn't convex: at some corner it doesn't turn from x to y, or it goes round more than
/// once.
pub const BENT: u32 = 16;

/// The output has too little capacity.
pub const ROOM: u32 = 9;

/// No byte marks an obstacle: the least that does is above the greatest.
pub const RANGE: u32 = 11;

/// The C library had no memory for the call.
pub const MEMORY: u32 = 10;

/// The largest stride.
const MOST_STRIDE: usize = 0xffff_ffff;

/// Checks a map whose rows have `across` items each, `stride` apart, in `count` items.
pub fn check_shape(
    width: u32,
    height: u32,
    across: usize,
    stride: usize,
    count: usize,
) -> Result<(), u32>
    ensures status { IsChecked result (shape_status width height across stride count) }
    ensures shape { IfOk result (λ _. IsShape width height across stride count) }
{
    let most = u32::from(MOST_SIDE);
    if width < 1 || most < width || height < 1 || most < height {
        return Err(SIZE);
    }
    if stride < across || MOST_STRIDE < stride {
        return Err(STRIDE);
    }
    if count < (height as usize - 1) * stride + across {
        return Err(LENGTH);
    }
    Ok(())
}

/// Checks the numbers of a metric and an edge.
pub fn check_setting(metric: u32, edge: u32) -> Result<(), u32>
    ensures { IsChecked result (setting_status metric edge) }
{
    if metric > 2 {
        Err(METRIC)
    } else if edge > 1 {
        Err(EDGE)
    } else {
        Ok(())
    }
}

/// The status of an output with capacity for `count` answers where `needed` are needed.
pub fn room_status(needed: usize, count: usize) -> u32
    ensures status { result ≡ room_status needed count }
    ensures room { result ≡ DONE → needed ≤ count }
{
    if count < needed { ROOM } else { DONE }
}

/// The status of the bytes that mark an obstacle.
pub fn range_status(map: &ClearmapBytes) -> u32
    ensures { result ≡ range_status map.now }
{
    if map.high < map.low { RANGE } else { DONE }
}

/// The first of two statuses that isn't `DONE`.
pub fn first_wrong(first: u32, next: u32) -> u32
    ensures { result ≡ first_wrong first next }
{
    if first != DONE { first } else { next }
}

/// The status of a call that was refused memory.
pub fn no_memory(refused: NoMemory) -> u32
    ensures { result ≡ 10 }
{
    let _ = refused;
    MEMORY
}

/// The status of a path that is refused for this reason.
pub fn refusal_status(refusal: Refusal) -> u32
    ensures { result ≡ refusal_status refusal }
{
    match refusal {
        Refusal::BadPath => POINTS,
        Refusal::OutOfRange => OUTSIDE,
        _ => CROOKED,
    }
}
