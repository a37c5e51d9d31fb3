//! Fresh pins: each query is answered as by the version's bitmap, whether a pin reads single words,
//! has read the version, or reads it during the query.

ghost use Rattle.std.specs.Prelude.{◌≡◌};

use crate::compare::{holds, same};
use crate::opened::{Spotted, blank, close, hand_back, next, open, pin, rect, spotted};
use map_core::Setting;
use metric::{Cell, Edge, MetricKind};
use proto::{Bordered, Query, Text, answer_of, reply_text};
use session::{Blank, Pinned};
use shelf::StoreName;
use std::alloc::Global;
use std::marker::Brand;
use std::process::Abort;
use std::test::Fail;

/// A store of two sessions.
pub const SETTING: Setting = Setting {
    blocks: 32,
    versions: 4,
    sessions: 2,
    log: 100,
    edge: Edge::Open,
};

/// A map of six tiles, whose pins read 48 words: fewer than some cells' queries take, and more than
/// others' do.
const FAR: Spotted = ([130, 70], 300);

/// Maps of which each cell is queried, and their edges: maps of six tiles, of four and of one.
const ALL_CELLS: [(Spotted, Edge); 10] = [
    (FAR, Edge::Open),
    (([64, 1], 40), Edge::Open),
    (([5, 3], 8), Edge::Open),
    (([5, 3], 0), Edge::Open),
    (([70, 66], 300), Edge::Wall),
    (([130, 70], 0), Edge::Wall),
    (([64, 1], 40), Edge::Wall),
    (([1, 1], 0), Edge::Wall),
    (([5, 3], 8), Edge::Wall),
    (([5, 3], 0), Edge::Wall),
];

/// Maps of six tiles and of one, with near and far obstacles, on which rectangles and paths are
/// queried.
const AREAS: [Spotted; 8] = [
    FAR,
    ([130, 70], 9),
    ([130, 70], 4_000),
    ([130, 70], 0),
    ([64, 64], 700),
    ([64, 1], 40),
    ([5, 3], 8),
    ([5, 3], 0),
];

/// Corners of rectangles, and of the paths around them. Some are outside some maps.
const CORNERS: [[u16; 4]; 20] = [
    [0, 0, 1, 1],
    [0, 0, 5, 3],
    [4, 2, 5, 3],
    [1, 0, 2, 1],
    [0, 0, 64, 1],
    [63, 0, 64, 1],
    [20, 0, 50, 1],
    [0, 0, 64, 64],
    [10, 10, 20, 20],
    [60, 60, 64, 64],
    [0, 0, 130, 70],
    [129, 69, 130, 70],
    [0, 69, 130, 70],
    [128, 0, 130, 70],
    [60, 60, 70, 70],
    [63, 63, 65, 65],
    [64, 64, 128, 70],
    [100, 5, 101, 65],
    [0, 0, 131, 70],
    [7, 1, 121, 2],
];

const METRICS: [MetricKind; 3] = [MetricKind::Euclid2, MetricKind::City, MetricKind::Chess];

/// Queries of each cell of a map of this size.
pub fn cells(
    alloc: Global,
    metric: MetricKind,
    [width, height]: [u16; 2],
) -> Result<Vec<Query>, Fail> {
    let mut queries = Vec::new(alloc);
    for y in 0..height {
        for x in 0..width {
            let cell = Cell { x, y };
            queries.push(Query::At { metric, cell })?;
        }
    }
    Ok(queries)
}

/// Queries of each rectangle and of the path around it.
fn areas(rt: &impl Abort, alloc: Global, metric: MetricKind) -> Result<Vec<Query>, Fail> {
    let mut queries = Vec::new(alloc);
    for corners in CORNERS {
        let rect = rect(rt, corners);
        queries.push(Query::Rect { metric, rect })?;
        let [left, above, x1, y1] = corners;
        let (right, below) = (x1.saturating_sub(1), y1.saturating_sub(1));
        let path = [
            (left, above),
            (right, above),
            (right, below),
            (left, below),
            (left, above),
        ]
        .map(|(x, y)| Cell { x, y });
        let points = Vec::from_slice(alloc, &path)?;
        queries.push(Query::Path { metric, points })?;
        for d in [1, 6, 1_000] {
            let points = Vec::from_slice(alloc, &path)?;
            queries.push(Query::ClearOf { metric, d, points })?;
        }
    }
    Ok(queries)
}

/// Asks a pin, and compares the reply's text.
pub fn ask<Id: StoreName>(
    rt: &impl Abort,
    alloc: Global,
    pinned: &mut Pinned<Id>,
    query: &Query,
    want: &[u8],
) {
    let Ok(mut text) = Text::new(alloc) else {
        panic!(rt; "no memory for a text");
    };
    reply_text(&answer_of(alloc, pinned, query), &mut text);
    same(rt, text.as_bytes(), want, query);
}

/// Puts each query to a fresh pin, to the same pin again, and to one that was read.
fn compare<Id: StoreName>(
    rt: &impl Abort,
    alloc: Global,
    blank: Blank,
    map: Bordered<'_>,
    queries: &[Query],
    text: &mut Text,
) -> Result<(), Fail>
    requires { blank ≡ Id.store }
{
    let mut map = map;
    let (store, mut sessions) = open::<Id>(alloc, blank)?;
    let mut read = pin(rt, alloc, next(rt, &mut sessions));
    let _ = read.bitmap();
    let mut session = next(rt, &mut sessions);
    for query in queries {
        reply_text(&answer_of(alloc, &mut map, query), text);
        let mut fresh = pin(rt, alloc, session);
        holds(rt, fresh.bitmap_read().is_none(), "a fresh pin");
        ask(rt, alloc, &mut fresh, query, text.as_bytes());
        ask(rt, alloc, &mut fresh, query, text.as_bytes());
        ask(rt, alloc, &mut read, query, text.as_bytes());
        session = fresh.unpin();
    }
    hand_back(rt, &mut sessions, session);
    hand_back(rt, &mut sessions, read.unpin());
    same(rt, close(store, sessions), 0, "entries");
    Ok(())
}

/// Queries pins of a store on this map with this edge.
fn compare_on(
    rt: &impl Abort,
    alloc: Global,
    map: Spotted,
    edge: Edge,
    queries: &[Query],
) -> Result<(), Fail> {
    let bitmap = spotted(rt, alloc, map)?;
    let bordered = Bordered {
        bitmap: &bitmap,
        edge,
    };
    let mut text = Text::new(alloc)?;
    let blank = blank(rt, alloc, Setting { edge, ..SETTING }, map)?;
    compare::<Brand>(rt, alloc, blank, bordered, queries, &mut text)
}

#[test]
fn fresh_pins_answer(rt: HostRuntime) -> Result<(), Fail> {
    for metric in METRICS {
        for (map, edge) in ALL_CELLS {
            let queries = cells(rt.alloc(), metric, map.0)?;
            compare_on(&rt, rt.alloc(), map, edge, &queries)?;
        }
        let queries = areas(&rt, rt.alloc(), metric)?;
        for map in AREAS {
            compare_on(&rt, rt.alloc(), map, Edge::Open, &queries)?;
            compare_on(&rt, rt.alloc(), map, Edge::Wall, &queries)?;
        }
    }
    Ok(())
}
