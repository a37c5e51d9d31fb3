//! Answers to queries, by the metric of each.

ghost use Rattle.std.specs.Prelude.{◌≡◌};
ghost use Rattle.metric.specs.Kind.{distance_of};
ghost use Rattle.lines.specs.Asked.{asked_by, metric_asked};
ghost use Rattle.answering.specs.Queries.{IsAnswerBy};

use crate::bordered::Bordered;
use bits::Bitmap;
use clearance::Queried;
use lines::{Answer, Query};
use metric::{Chess, City, Edge, Euclid2, Metric, MetricKind};
use std::alloc::Global;

/// Answers a query on a bitmap with this edge, by the query's metric: a distance in cells (squared
/// for `euclid2`) with the nearest obstacle, or none where there is no obstacle. With a wall there
/// always is one.
///
/// Refuses, in this order: a path of no points or over 1000; a cell, rectangle or point outside the
/// bitmap; the first point of a path that is in neither the row nor the column of the point before
/// it.
pub fn answer_query(alloc: Global, bitmap: &Bitmap, edge: Edge, query: &Query) -> Answer
    ensures { IsAnswerBy (distance_of (metric_asked (asked_by query.now))) bitmap.now edge
        (asked_by query.now) result }
{
    let mut map = Bordered { bitmap, edge };
    answer_of(alloc, &mut map, query)
}

/// As `answer_query`, of a bitmap or of the version that a pin holds. A fresh pin reads only the
/// words that the query touches.
pub fn answer_of<Q: Queried>(alloc: Global, map: &mut Q, query: &Query) -> Answer
    ensures answer { IsAnswerBy (distance_of (metric_asked (asked_by query.now))) (Q.cells map.old)
        (Q.edge map.old)
        (asked_by query.now) result }
    ensures map { map.new ≡ map.old }
{
    match query.metric() {
        MetricKind::Euclid2 => answer_by::<Euclid2, Q>(alloc, map, query),
        MetricKind::City => answer_by::<City, Q>(alloc, map, query),
        MetricKind::Chess => answer_by::<Chess, Q>(alloc, map, query),
    }
}

/// Answers a query by this metric.
fn answer_by<M: Metric, Q: Queried>(alloc: Global, map: &mut Q, query: &Query) -> Answer
    ensures answer { IsAnswerBy M.distance (Q.cells map.old) (Q.edge map.old)
        (asked_by query.now) result }
    ensures map { map.new ≡ map.old }
{
    match query {
        Query::At { cell, .. } => match map.at::<M>(alloc, *cell) {
            Ok(near) => Answer::Near(near),
            Err(refusal) => Answer::Refused(refusal),
        },
        Query::Rect { rect, .. } => match map.least_in::<M>(alloc, *rect) {
            Ok(found) => Answer::Found(found),
            Err(refusal) => Answer::Refused(refusal),
        },
        Query::Path { points, .. } => match map.along::<M>(alloc, points.as_slice()) {
            Ok(found) => Answer::Found(found),
            Err(refusal) => Answer::Refused(refusal),
        },
        Query::ClearOf { d, points, .. } => {
            match map.clear_of::<M>(alloc, points.as_slice(), *d) {
                Ok(found) => Answer::Clear(found),
                Err(refusal) => Answer::Refused(refusal),
            }
        }
    }
}
