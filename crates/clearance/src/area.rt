//! The first cell of a rectangle with the least distance: least row first, then least column.

ghost use Rattle.std.specs.Prelude.{◌≡◌, ◌<◌};
ghost use Rattle.bits.specs.Cells.{IsInside};
ghost use Rattle.bits.specs.Edges.{IsBlocked};
ghost use Rattle.clearance.specs.Answers.{IsLeastOf, cells_of_rect};
ghost use Rattle.clearance.specs.Firsts.{IsCellNear, IsCellWithNear, IsFirstColumn};
ghost use Rattle.clearance.specs.Firsts.{IsFirstRow, IsRectNear};
ghost use Rattle.clearance.specs.Search.{IsRectIn};

use crate::border::{least_below, nearest_spot};
use crate::gaps::NO_LIMIT;
use crate::inside::first_obstacle;
use crate::lines::Lines;
use crate::rows::Rows;
use crate::strip::Strip;
use metric::{Cell, Edge, Metric, Near, Rect};

/// The first cell with the least distance in a rectangle of the bitmap, with its nearest obstacle;
/// `None` where there is no obstacle.
pub fn least_of_rect<M: Metric, R: Rows>(
    rows: &mut R,
    edge: Edge,
    rect: Rect,
) -> Option<(Cell, Near)>
    requires { IsRectIn (R.cells rows.old) rect }
    ensures found { IsLeastOf M.distance (IsBlocked (R.cells rows.old) edge)
        (cells_of_rect rect.x0 rect.y0 rect.x1 rect.y1) result }
    ensures rows { rows.new ≡ rows.old }
{
    let least = least_below::<M, R>(rows, edge, rect, NO_LIMIT);
    if least >= NO_LIMIT {
        return None;
    }
    let limit = least + 1;
    // Cells this near to an obstacle are obstacles: those beside one are farther.
    if least < u64::from(M::of(1, 0).min(M::of(0, 1))) {
        let cell = first_obstacle(rows, rect);
        return with_nearest::<M, R>(rows, edge, cell, limit);
    }
    let y = first_row::<M, R>(rows, edge, rect, limit);
    let x = first_column::<M, R>(rows, edge, rect, y, limit);
    with_nearest::<M, R>(rows, edge, Cell { x, y }, limit)
}

/// The first row of the rectangle in which a cell has an obstacle at a distance below the limit.
/// Requires that there is one.
fn first_row<M: Metric, R: Rows>(rows: &mut R, edge: Edge, rect: Rect, limit: u64) -> u16
    requires rect { IsRectIn (R.cells rows.old) rect }
    requires some { IsRectNear M.distance (IsBlocked (R.cells rows.old) edge) rect limit }
    ensures found { IsFirstRow M.distance (IsBlocked (R.cells rows.old) edge) rect limit result }
    ensures rows { rows.new ≡ rows.old }
{
    let (x, top, bottom) = (rect.x0, rect.y0, rect.y1 - 1);
    let strip = Strip {
        from: Cell { x, y: top },
        to: Cell { x, y: bottom },
        across: rect.x1 - x,
    };
    let lines = Lines {
        strip,
        first: 0,
        limit,
    };
    // If no line before the last is near, the last is, whose number this end is.
    top + lines.first_near::<M, R>(rows, edge, bottom - top)
}

/// The first column of the rectangle in which the cell of row `y` has an obstacle at a distance
/// below the limit. Requires that there is one.
fn first_column<M: Metric, R: Rows>(rows: &mut R, edge: Edge, rect: Rect, y: u16, limit: u64) -> u16
    requires rect { IsRectIn (R.cells rows.old) rect }
    requires some { IsFirstRow M.distance (IsBlocked (R.cells rows.old) edge) rect limit y }
    ensures found { IsFirstColumn M.distance (IsBlocked (R.cells rows.old) edge) rect limit y
        result }
    ensures rows { rows.new ≡ rows.old }
{
    let (left, right) = (rect.x0, rect.x1 - 1);
    let strip = Strip {
        from: Cell { x: left, y },
        to: Cell { x: right, y },
        across: 1,
    };
    let lines = Lines {
        strip,
        first: 0,
        limit,
    };
    left + lines.first_near::<M, R>(rows, edge, right - left)
}

/// The cell, which has an obstacle below the limit, with its nearest.
pub fn with_nearest<M: Metric, R: Rows>(
    rows: &mut R,
    edge: Edge,
    cell: Cell,
    limit: u64,
) -> Option<(Cell, Near)>
    requires inside { IsInside (R.cells rows.old) cell.x cell.y }
    requires near { IsCellNear M.distance (IsBlocked (R.cells rows.old) edge) limit cell.x cell.y }
    ensures found { IsCellWithNear M.distance (IsBlocked (R.cells rows.old) edge) cell result }
    ensures rows { rows.new ≡ rows.old }
{
    let near = nearest_spot::<M, R>(rows, edge, cell, limit)?;
    Some((cell, near))
}
