//! The columns of a row of the table, seen from the row's cells.
//!
//! A column with an obstacle has an entry: the row of its obstacle nearest to the current row, `y`.
//! Its gap is how many rows away that is.

ghost use Rattle.std.specs.Prelude.{◌≡◌, negsuc, pos, ◌<◌, ◌≤◌, ◌≤ℤ◌, length, slice_index};
ghost use Rattle.metric.specs.Crossing.{AreColumns, at_column};
ghost use Rattle.metric.specs.Edge.{spot_of};
ghost use Rattle.envelope.specs.Columns.{AreEntries, IsAmong, IsCrossing, gap_of};

use metric::{Edge, FRAMED_SIDE, LAST_FRAMED, Metric, Near};

/// The column's gap: how many rows away its obstacle lies.
pub fn gap(entries: &[u16], y: u16, column: u16) -> u16
    requires entries { AreEntries entries.now y }
    requires column { IsAmong entries.now (length entries.now) column }
    ensures gap { result ≡ gap_of entries.now y column }
    ensures small { result ≤ LAST_FRAMED }
{
    y.abs_diff(entries[usize::from(column)])
}

/// The distance from the cell in column `x` to the obstacle of a column with this gap.
pub fn distance<M: Metric>(column: u16, gap: u16, x: u16) -> u32
    requires column { column ≤ LAST_FRAMED }
    requires gap { gap ≤ LAST_FRAMED }
    requires cell { x ≤ LAST_FRAMED }
    ensures { result ≡ at_column M.distance column gap x }
{
    M::of(x.abs_diff(column), gap)
}

/// The first cell from which on the right one of two columns is strictly nearer, at most 4098.
pub fn crossing<M: Metric>(left: u16, left_gap: u16, right: u16, right_gap: u16) -> u16
    requires { AreColumns left left_gap right right_gap }
    ensures { IsCrossing M.distance left left_gap right right_gap result }
{
    (M::last_not_worse(left, left_gap, right, right_gap) + 1) as u16
}

/// The obstacle of a column, at this distance.
#[inline(always)]
pub fn near_at(entries: &[u16], edge: Edge, column: usize, dist: u32) -> Near
    requires few { length entries.now ≤ FRAMED_SIDE }
    requires inside { column < length entries.now }
    requires row { slice_index entries.now column ≤ LAST_FRAMED }
    ensures near { result ≡ record {
      dist = dist;
      cell = spot_of edge column (slice_index entries.now column);
    } }
    ensures left { negsuc 0 ≤ℤ result.cell.x }
    ensures column { result.cell.x ≤ℤ pos LAST_FRAMED }
    ensures top { negsuc 0 ≤ℤ result.cell.y }
    ensures below { result.cell.y ≤ℤ pos LAST_FRAMED }
{
    Near {
        dist,
        cell: edge.spot(column as u16, entries[column]),
    }
}
