//! The metric and the edge that a call's numbers stand for, and the function that they select.

ghost use Rattle.std.specs.Prelude.{◌≡◌, ◌<◌, IfErr, IfOk};
ghost use Rattle.metric.specs.Kind.{distance_of};
ghost use Rattle.metric.specs.Nearest.{IsNear};
ghost use Rattle.bits.specs.Cells.{IsInside};
ghost use Rattle.bits.specs.Edges.{IsBlocked};
ghost use Rattle.clearance.specs.Answers.{IsClearOf, IsRefusalFor};
ghost use Rattle.clearance.specs.Paths.{IsPathRefusal, cells_of_path};
ghost use Rattle.libclearmap.specs.Settings.{edge_numbered, kind_numbered};

use clearance::{Rows, at, clear_of};
use metric::{Cell, Chess, City, Edge, Euclid2, MetricKind, Near, Refusal};

/// The numbers by which a call chooses its metric and edge.
#[derive(Clone, Copy)]
pub struct Setting {
    pub metric: u32,
    pub edge: u32,
    /// The status of the bytes that mark an obstacle, which is told after any other fault; `DONE`
    /// for a map in bits.
    pub range: u32,
}

impl Setting {
    /// The setting of a call with these numbers.
    pub fn new(metric: u32, edge: u32, range: u32) -> Self
        ensures { result ≡ record {
          metric = metric;
          edge = edge;
          range = range;
        } }
    {
        Setting {
            metric,
            edge,
            range,
        }
    }
}

/// The metric of this number, 0 to 2.
pub fn kind_of(metric: u32) -> MetricKind
    ensures { result ≡ kind_numbered metric }
{
    match metric {
        0 => MetricKind::Euclid2,
        1 => MetricKind::City,
        _ => MetricKind::Chess,
    }
}

/// The edge of this number, 0 or 1.
pub fn edge_of(edge: u32) -> Edge
    ensures { result ≡ edge_numbered edge }
{
    match edge {
        0 => Edge::Open,
        _ => Edge::Wall,
    }
}

/// The nearest obstacle of the cell, by `at` of `clearance`.
pub fn at_by<R: Rows>(
    kind: MetricKind,
    rows: &mut R,
    edge: Edge,
    cell: Cell,
) -> Result<Option<Near>, Refusal>
    ensures inside { IfOk result (λ _. IsInside (R.cells rows.old) cell.x cell.y) }
    ensures near { IfOk result (λ near. IsNear (distance_of kind)
        (IsBlocked (R.cells rows.old) edge) cell.x cell.y near) }
    ensures refused { IfErr result (IsRefusalFor (IsInside (R.cells rows.old) cell.x cell.y)) }
    ensures rows { rows.new ≡ rows.old }
{
    match kind {
        MetricKind::Euclid2 => at::<Euclid2, R>(rows, edge, cell),
        MetricKind::City => at::<City, R>(rows, edge, cell),
        MetricKind::Chess => at::<Chess, R>(rows, edge, cell),
    }
}

/// What `clear_of` of `clearance` finds on the path of these points.
pub fn clear_by<R: Rows>(
    kind: MetricKind,
    rows: &mut R,
    edge: Edge,
    points: &[Cell],
    d: u32,
) -> Result<Option<(Cell, Near)>, Refusal>
    ensures clear { IfOk result (IsClearOf (distance_of kind) (IsBlocked (R.cells rows.old) edge)
        (cells_of_path points.now) d) }
    ensures refused { IfErr result (IsPathRefusal (R.cells rows.old) points.now) }
    ensures rows { rows.new ≡ rows.old }
{
    match kind {
        MetricKind::Euclid2 => clear_of::<Euclid2, R>(rows, edge, points, d),
        MetricKind::City => clear_of::<City, R>(rows, edge, points, d),
        MetricKind::Chess => clear_of::<Chess, R>(rows, edge, points, d),
    }
}
