//! The nearest obstacle of one cell by a search of all obstacles, with which the tests compare.

ghost use Rattle.std.specs.Prelude.{◌+◌, ◌≤◌};
ghost use Rattle.bits.specs.Cells.{IsInside};

use bits::Bitmap;
use metric::{Cell, Edge, Metric, Near};

/// The nearest obstacle of the cell, with a wall those of the frame included; `None` if there is
/// none.
pub fn nearest_obstacle<M: Metric>(bitmap: &Bitmap, edge: Edge, from: Cell) -> Option<Near>
    requires { IsInside bitmap.now from.x from.y }
{
    let mut best: Option<Near> = None;
    for y in 0..bitmap.height() + 2 {
        for x in 0..bitmap.width() + 2 {
            if is_obstacle(bitmap, edge, x, y) && bitmap.holds(from) {
                let dist = M::of((from.x + 1).abs_diff(x), (from.y + 1).abs_diff(y));
                let cell = Edge::Wall.spot(x, y);
                best = Some(nearer(from, best, Near { dist, cell }));
            }
        }
    }
    best
}

/// Whether the cell of this column and row, both counted with the frame, is an obstacle.
fn is_obstacle(bitmap: &Bitmap, edge: Edge, x: u16, y: u16) -> bool {
    let (right, bottom) = (bitmap.width() + 1, bitmap.height() + 1);
    if x == 0 || y == 0 || x == right || y == bottom {
        return edge == Edge::Wall;
    }
    let cell = Cell { x: x - 1, y: y - 1 };
    bitmap.holds(cell) && bitmap.get(cell)
}

/// The one with the lesser key: the distance, then the column, then how many rows it is away, then
/// its row.
fn nearer(from: Cell, best: Option<Near>, next: Near) -> Near {
    let key = |near: Near| {
        (
            near.dist,
            near.cell.x,
            i32::from(near.cell.y).abs_diff(i32::from(from.y)),
            near.cell.y,
        )
    };
    match best {
        Some(best) if key(best) <= key(next) => best,
        _ => next,
    }
}
