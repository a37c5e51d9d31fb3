//! Queries, and what they ask.

ghost use Rattle.std.specs.Prelude.{◌≡◌, ◌≢◌, IfOk, IfErr, IsOkAnd, Ok, Err};
ghost use Rattle.metric.specs.declared.refusal.Refusal.{Refusal};
ghost use Rattle.lines.specs.Asked.{arguments_asked, asked_by, HasPoints};
ghost use Rattle.words.specs.Words.{words_left};

use crate::arguments::{read_metric, read_rect};
use crate::verb::QueryKind;
use metric::{Cell, MetricKind, Rect, Refusal};
use std::alloc::Global;
use words::{next_number, read_path, read_point};

/// A query on a bitmap. A coordinate over 16 bits reads as 65535, which is outside every map too.
#[derive(Debug, Drop)]
pub enum Query {
    /// The distance of a cell.
    At {
        metric: MetricKind,
        cell: Cell,
    },
    /// The least distance in a rectangle.
    Rect {
        metric: MetricKind,
        rect: Rect,
    },
    /// The least distance along a path.
    Path {
        metric: MetricKind,
        points: Vec<Cell>,
    },
    /// Whether each cell of a path has a distance of at least `d`.
    ClearOf {
        metric: MetricKind,
        d: u32,
        points: Vec<Cell>,
    },
}

impl Query {
    ghost use Rattle.lines.specs.Asked.{metric_asked};

    /// The metric that the query asks for.
    pub fn metric(&self) -> MetricKind
        ensures { result ≡ metric_asked (asked_by self.now) }
    {
        match self {
            Query::At { metric, .. }
            | Query::Rect { metric, .. }
            | Query::Path { metric, .. }
            | Query::ClearOf { metric, .. } => *metric,
        }
    }
}

/// The query of this name, with the rest of the line as its arguments, a metric first.
///
/// Refuses, in this order: arguments of the wrong number or form; a path of no points or over 1000;
/// and out of memory, which only the points of a path can meet.
pub fn read_query(alloc: Global, kind: QueryKind, rest: Option<&[u8]>) -> Result<Query, Refusal>
    ensures query { IfOk result (λ query. arguments_asked kind (words_left rest.entry)
        ≡ Ok (asked_by query)) }
    ensures refusal { IfErr result (λ refusal. refusal ≢ Refusal.Memory
        → arguments_asked kind (words_left rest.entry) ≡ Err refusal) }
    ensures memory { result ≡ Err Refusal.Memory
        → IsOkAnd (arguments_asked kind (words_left rest.entry)) HasPoints }
{
    let (metric, rest) = read_metric(rest).ok_or(Refusal::BadArguments)?;
    match kind {
        QueryKind::At => {
            let cell = read_point(rest).ok_or(Refusal::BadArguments)?;
            Ok(Query::At { metric, cell })
        }
        QueryKind::Rect => {
            let rect = read_rect(rest).ok_or(Refusal::BadArguments)?;
            Ok(Query::Rect { metric, rect })
        }
        QueryKind::Path => {
            let points = read_path(alloc, rest)?;
            Ok(Query::Path { metric, points })
        }
        QueryKind::ClearOf => {
            let (d, rest) = next_number(rest).ok_or(Refusal::BadArguments)?;
            let points = read_path(alloc, rest)?;
            Ok(Query::ClearOf { metric, d, points })
        }
    }
}
