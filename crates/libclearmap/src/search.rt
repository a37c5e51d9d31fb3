//! What a call searches a map for, and the search of a map that is read word by word.

ghost use Rattle.std.specs.Prelude.{◌≡◌, ◌<◌, IfErr, IfOk};
ghost use Rattle.metric.specs.Kind.{distance_of};
ghost use Rattle.bits.specs.Edges.{IsBlocked};
ghost use Rattle.libclearmap.specs.Searches.{IsFound, search_status};
ghost use Rattle.libclearmap.specs.Statuses.{refusal_status};

use clearance::{Rows, along, clear_of, least_in};
use metric::{Cell, Chess, City, Edge, Euclid2, Metric, MetricKind, Near, Rect, Refusal};

/// The columns `x0` to `x1 - 1` and the rows `y0` to `y1 - 1`, as a call names them.
#[derive(Clone, Copy)]
pub struct Corners {
    pub x0: u32,
    pub y0: u32,
    pub x1: u32,
    pub y1: u32,
}

/// What a call searches a map for.
#[derive(Clone, Copy)]
pub enum Search<'a> {
    /// The first cell with the least distance in a rectangle.
    Least(Corners),
    /// The first cell with the least distance along a path.
    Path(&'a [Cell]),
    /// The first cell along a path that is nearer than this distance to an obstacle.
    ClearOf(&'a [Cell], u32),
}

/// What a search finds by this metric, or why it is refused.
pub fn find_by<R: Rows>(
    kind: MetricKind,
    rows: &mut R,
    edge: Edge,
    search: Search<'_>,
) -> Result<Option<(Cell, Near)>, Refusal>
    ensures accepted { IfOk result (λ _. search_status (R.cells rows.old) search.entry ≡ 0) }
    ensures found { IfOk result (IsFound (distance_of kind) (IsBlocked (R.cells rows.old) edge)
        search.entry) }
    ensures refused { IfErr result (λ refusal. search_status (R.cells rows.old) search.entry
        ≡ refusal_status refusal) }
{
    match kind {
        MetricKind::Euclid2 => find::<Euclid2, R>(rows, edge, search),
        MetricKind::City => find::<City, R>(rows, edge, search),
        MetricKind::Chess => find::<Chess, R>(rows, edge, search),
    }
}

/// What a search finds by one metric, or why it is refused.
fn find<M: Metric, R: Rows>(
    rows: &mut R,
    edge: Edge,
    search: Search<'_>,
) -> Result<Option<(Cell, Near)>, Refusal>
    ensures accepted { IfOk result (λ _. search_status (R.cells rows.old) search.entry ≡ 0) }
    ensures found { IfOk result (IsFound M.distance (IsBlocked (R.cells rows.old) edge)
        search.entry) }
    ensures refused { IfErr result (λ refusal. search_status (R.cells rows.old) search.entry
        ≡ refusal_status refusal) }
{
    match search {
        Search::Least(Corners { x0, y0, x1, y1 }) => {
            let (width, height) = (u32::from(rows.width()), u32::from(rows.height()));
            if x1 <= x0 || width < x1 || y1 <= y0 || height < y1 {
                return Err(Refusal::OutOfRange);
            }
            let rect = Rect {
                x0: x0 as u16,
                y0: y0 as u16,
                x1: x1 as u16,
                y1: y1 as u16,
            };
            least_in::<M, R>(rows, edge, rect)
        }
        Search::Path(points) => along::<M, R>(rows, edge, points),
        Search::ClearOf(points, d) => clear_of::<M, R>(rows, edge, points, d),
    }
}
