//! The same answers from those of all cells of the bitmap, cell after cell: the plain program with
//! which the search is compared.

use bits::Bitmap;
use field::{Batch, rows};
use metric::{Cell, Edge, Metric, Near, NoMemory, Rect};
use std::alloc::{AllocError, Global};

/// The nearest obstacles of all cells of a bitmap.
#[derive(Drop)]
pub struct Answers {
    width: usize,
    nears: Vec<Option<Near>>,
}

impl Answers {
    /// Those of this bitmap.
    pub fn of<M: Metric>(alloc: Global, bitmap: &Bitmap) -> Result<Self, NoMemory> {
        let nears = rows::<M>(alloc, &Batch::new(bitmap, Edge::Open, 0, bitmap.height()))?;
        Ok(Answers {
            width: usize::from(bitmap.width()),
            nears,
        })
    }

    /// The nearest obstacle of a cell.
    pub fn at(&self, cell: Cell) -> Option<Near> {
        let place = usize::from(cell.y)
            .wrapping_mul(self.width)
            .wrapping_add(usize::from(cell.x));
        *self.nears.get(place)?
    }

    /// The first cell of the list with the least distance.
    pub fn least(&self, cells: &[Cell]) -> Option<(Cell, Near)> {
        let mut best: Option<(Cell, Near)> = None;
        for cell in cells {
            best = first_least(best, *cell, self.at(*cell));
        }
        best
    }

    /// The first cell of the list whose distance is below `d`.
    pub fn first_below(&self, cells: &[Cell], d: u32) -> Option<(Cell, Near)> {
        for cell in cells {
            if let Some(near) = self.at(*cell)
                && near.dist < d
            {
                return Some((*cell, near));
            }
        }
        None
    }
}

/// The cell, if its distance is less than that of the best so far; otherwise the best so far.
fn first_least(best: Option<(Cell, Near)>, cell: Cell, near: Option<Near>) -> Option<(Cell, Near)> {
    let Some(near) = near else {
        return best;
    };
    match best {
        Some(least) if least.1.dist <= near.dist => Some(least),
        _ => Some((cell, near)),
    }
}

/// The cells of a rectangle, in row-major order.
pub fn cells_of_rect(alloc: Global, rect: Rect) -> Result<Vec<Cell>, AllocError> {
    let mut cells = Vec::new(alloc);
    for y in rect.y0..rect.y1 {
        for x in rect.x0..rect.x1 {
            cells.push(Cell { x, y })?;
        }
    }
    Ok(cells)
}

/// The cells of a path: its first point, then for each next point the cells after the point before
/// it, up to it.
pub fn cells_of_path(alloc: Global, points: &[Cell]) -> Result<Vec<Cell>, AllocError> {
    let mut cells = Vec::new(alloc);
    let mut before = None;
    for point in points {
        push_piece(&mut cells, before.unwrap_or(*point), *point)?;
        before = Some(*point);
    }
    Ok(cells)
}

/// Appends the cells after a point, up to another: only that one if the point is repeated.
fn push_piece(cells: &mut Vec<Cell>, from: Cell, to: Cell) -> Result<(), AllocError> {
    let steps = from.x.abs_diff(to.x).max(from.y.abs_diff(to.y)).max(1);
    let mut cell = from;
    for _ in 0..steps {
        cell = Cell {
            x: towards(cell.x, to.x),
            y: towards(cell.y, to.y),
        };
        cells.push(cell)?;
    }
    Ok(())
}

/// One step from a coordinate towards another.
fn towards(from: u16, to: u16) -> u16 {
    if from < to {
        from + 1
    } else if from > to {
        from - 1
    } else {
        from
    }
}
