//! A table of the nearest obstacles in all columns.

ghost use Rattle.std.specs.Prelude.{◌≡◌, ◌≢◌, pos, ◌+◌, ◌*◌, ◌<◌, ◌≤◌, ◌<ℤ◌, ◌≤ℤ◌, ◌+ℤ◌, IfOk};
ghost use Rattle.std.specs.Option.{option_map};
ghost use Rattle.metric.specs.Edge.{shift, spot_of};
ghost use Rattle.bits.specs.Cells.{IsBitmap};
ghost use Rattle.bits.specs.Edges.{framed};
ghost use Rattle.column.specs.Columns.{IsRowOfTable, row_of};
ghost use Rattle.column.specs.Spots.{IsNearestSpotRow};

use crate::batch::Batch;
use crate::columns::Columns;
use crate::lines::put_line;
use bits::Bitmap;
use metric::{Edge, LAST_FRAMED, MOST_SIDE, NoMemory};
use std::alloc::Global;
use std::marker::Model;

/// The entry of a column without an obstacle.
pub const NONE: u16 = u16::MAX;

/// The nearest obstacle in the column of each cell of a bitmap. Contracts see the bitmap that it
/// was made from, and its edge.
///
/// With a wall, the frame's cells are obstacles, and its columns have entries too. The entry of a
/// cell is the row of its column's nearest obstacle, counted with the frame, or `NONE`. The rows of
/// entries lie one after another.
#[derive(Debug, Drop)]
pub struct ColumnTable {
    width: u16,
    height: u16,
    edge: Edge,
    entries: Vec<u16>,
}

impl Model for ColumnTable {
    ghost use Rattle.column.specs.Tabled.{Bordered, cells_tabled, IsTabled};

    ghost Value = { Bordered };

    ghost view = { λ t. record {
      cells = cells_tabled t.width t.height t.edge t.entries.items;
      edge = t.edge;
    } };

    ghost invariant = { λ t. IsTabled t.width t.height t.edge t.entries.items };
}

impl ColumnTable {
    /// The table of a bitmap with this edge. Fails only when out of memory.
    pub fn of(alloc: Global, bitmap: &Bitmap, edge: Edge) -> Result<Self, NoMemory>
        ensures { IfOk result (λ table. table ≡ record { cells = bitmap.now; edge = edge }) }
    {
        let (width, height) = (bitmap.width(), bitmap.height());
        let batch = Batch::new(bitmap, edge, 0, height);
        let across = usize::from(batch.columns());
        let mut columns = Columns::of(alloc, &batch)?;
        let mut entries = vec![in alloc; NONE; usize::from(height) * across]?;
        let lines = entries.as_mut_slice();
        'rows: for y in 0..height {
            columns.look(&batch, y);
            put_line(&columns.entries, usize::from(y) * across, lines);
        }
        Ok(ColumnTable {
            width,
            height,
            edge,
            entries,
        })
    }

    /// The number of columns of the bitmap.
    pub fn width(&self) -> u16
        ensures width { result ≡ self.now.cells.width }
        ensures bitmap { IsBitmap self.now.cells }
    {
        self.width
    }

    /// The number of rows of the bitmap.
    pub fn height(&self) -> u16
        ensures height { result ≡ self.now.cells.height }
        ensures bitmap { IsBitmap self.now.cells }
    {
        self.height
    }

    /// The edge of the bitmap.
    pub fn edge(&self) -> Edge
        ensures { result ≡ self.now.edge }
    {
        self.edge
    }

    /// The row of the obstacle in column `x` that is nearest to row `y` of the bitmap; `None` if
    /// the column has none.
    ///
    /// With a wall, `x` may be -1 or the bitmap's width, and the row returned -1 or the bitmap's
    /// height. Of two obstacles equally far from row `y` it is the upper one.
    pub fn nearest_row(&self, x: i16, y: u16) -> Option<i16>
        requires left { pos 0 ≤ℤ (x +ℤ pos (shift self.now.edge)) }
        requires right { (x +ℤ pos (shift self.now.edge)) <ℤ pos
            (self.now.cells.width + 2 * shift self.now.edge) }
        requires row { y < self.now.cells.height }
        ensures { IsNearestSpotRow self.now.cells self.now.edge x y result }
    {
        let column = column_of(self.edge, x);
        let entry = self.row(y)[usize::from(column)];
        spot_row(self.edge, column, entry)
    }

    /// The entries of row `y` of the bitmap, from the left, including those of the frame's columns:
    /// the nearest rows of all columns, counted with the frame, or `NONE`.
    pub fn row(&self, y: u16) -> &[u16]
        requires { y < self.now.cells.height }
        ensures row { IsRowOfTable (framed self.now.edge self.now.cells)
            (y + shift self.now.edge) result.now }
        ensures bitmap { IsBitmap self.now.cells }
    {
        let width = usize::from(self.width + 2 * self.edge.shift());
        let start = usize::from(y) * width;
        &self.entries[start..start + width]
    }
}

/// The column of a map with its frame, counted with the frame.
fn column_of(edge: Edge, x: i16) -> u16
    requires left { pos 0 ≤ℤ (x +ℤ pos (shift edge)) }
    requires right { x ≤ℤ pos MOST_SIDE }
    ensures { pos result ≡ (x +ℤ pos (shift edge)) }
{
    (x + edge.shift() as i16) as u16
}

/// The row of an entry in a column, converted from counting with the frame to counting without it.
fn spot_row(edge: Edge, column: u16, entry: u16) -> Option<i16>
    requires column { column ≤ LAST_FRAMED }
    requires entry { entry ≢ 65535 → entry ≤ LAST_FRAMED }
    ensures { result ≡ option_map (λ r. (spot_of edge column r).y) (row_of entry) }
{
    if entry == NONE {
        return None;
    }
    let spot = edge.spot(column, entry);
    Some(spot.y)
}
