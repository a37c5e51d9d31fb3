//! Pins that read bands by need: after others have painted, and with what an earlier pin has left
//! in the buffer, each query is answered as by the version's bitmap.

ghost use Rattle.std.specs.Prelude.{◌≡◌};

use crate::compare::{holds, same};
use crate::opened::{Spotted, blank, close, hand_back, next, open, pin, rect, spotted};
use crate::sessions::fresh::ask;
use bits::Bitmap;
use map_core::Setting;
use metric::{Cell, Edge, MetricKind};
use proto::{Bordered, Query, Text, answer_of, reply_text};
use session::{Blank, Pinned, Session, Store};
use shelf::StoreName;
use std::alloc::Global;
use std::marker::Brand;
use std::process::Abort;
use std::sync::Wait;
use std::test::Fail;

/// A map of six bands, each of three tiles, whose pins look at 12 blank words a band.
const MAP: Spotted = ([130, 330], 0);

const SETTING: Setting = Setting {
    blocks: 90,
    versions: 4,
    sessions: 2,
    log: 100,
    edge: Edge::Open,
};

/// A rectangle that is painted or cleared before a publish, and how many cells a pin of the new
/// version is asked then.
const TURNS: [([u16; 4], bool, usize); 10] = [
    ([0, 0, 1, 1], true, 12),
    ([129, 329, 130, 330], true, 1),
    ([0, 0, 130, 64], false, 3),
    ([60, 100, 70, 110], true, 12),
    ([0, 64, 130, 128], false, 2),
    ([0, 0, 130, 330], false, 12),
    ([5, 200, 6, 201], true, 1),
    ([0, 128, 130, 256], true, 12),
    ([1, 129, 129, 255], false, 12),
    ([0, 0, 130, 330], false, 1),
];

/// Cells of each band, near to what is painted and far from it.
const CELLS: [[u16; 2]; 12] = [
    [129, 165],
    [0, 3],
    [64, 0],
    [65, 329],
    [0, 64],
    [1, 63],
    [70, 128],
    [0, 329],
    [129, 0],
    [30, 255],
    [100, 256],
    [64, 200],
];

const METRICS: [MetricKind; 3] = [MetricKind::Chess, MetricKind::City, MetricKind::Euclid2];

/// Compares a pin's bitmap with another, row by row.
fn compare_rows<Id: StoreName>(rt: &impl Abort, pinned: &mut Pinned<Id>, want: &Bitmap) {
    let shown = pinned.bitmap();
    same(rt, shown.width(), want.width(), "width");
    same(rt, shown.height(), want.height(), "height");
    for y in 0..330 {
        holds(rt, y < shown.height(), y);
        holds(rt, y < want.height(), y);
        same(rt, shown.row_words(y), want.row_words(y), y);
    }
}

/// Asks a pin of the newest version some cells, and then looks at its bitmap.
fn ask_cells<Id: StoreName>(
    rt: &impl Abort,
    alloc: Global,
    session: Session<Id>,
    map: Bordered<'_>,
    count: usize,
    text: &mut Text,
) -> Session<Id> {
    let (bitmap, mut map) = (map.bitmap, map);
    let mut pinned = pin(rt, alloc, session);
    for [x, y] in CELLS.iter().take(count) {
        for metric in METRICS {
            let cell = Cell { x: *x, y: *y };
            let query = Query::At { metric, cell };
            reply_text(&answer_of(alloc, &mut map, &query), text);
            ask(rt, alloc, &mut pinned, &query, text.as_bytes());
        }
    }
    if count == 3 {
        compare_rows(rt, &mut pinned, bitmap);
    }
    pinned.unpin()
}

/// Draws in a store and in a bitmap, and publishes.
fn draw<Id: StoreName, R: Wait + Abort>(
    rt: &R,
    store: &Store<Id>,
    painter: &mut Session<Id>,
    bitmap: &mut Bitmap,
    (corners, black): ([u16; 4], bool),
) {
    let area = rect(rt, corners);
    holds(rt, bitmap.holds_rect(area), corners);
    bitmap.fill(area, black);
    let drawn = painter.paint(&mut store.lock(rt), area, black);
    holds(rt, drawn.is_ok(), "a paint");
    let published = painter.publish(&mut store.lock(rt));
    holds(rt, published.is_ok(), "a publish");
    let collected = painter.collect(&mut store.lock(rt));
    holds(rt, collected.is_ok(), "a collect");
}

/// A painter's turns, each with a pin of the same session.
fn take_turns<Id: StoreName, R: Wait + Abort>(
    rt: &R,
    alloc: Global,
    blank: Blank,
    bitmap: &mut Bitmap,
    edge: Edge,
    text: &mut Text,
) -> Result<(), Fail>
    requires { blank ≡ Id.store }
{
    let (store, mut sessions) = open::<Id>(alloc, blank)?;
    let mut painter = next(rt, &mut sessions);
    let mut planner = next(rt, &mut sessions);
    for (corners, black, count) in TURNS {
        draw(rt, &store, &mut painter, bitmap, (corners, black));
        let map = Bordered { bitmap, edge };
        planner = ask_cells(rt, alloc, planner, map, count, text);
    }
    hand_back(rt, &mut sessions, painter);
    hand_back(rt, &mut sessions, planner);
    same(rt, close(store, sessions), 30, "entries");
    Ok(())
}

#[test]
fn bands_are_read_by_need(rt: HostRuntime) -> Result<(), Fail> {
    for edge in [Edge::Open, Edge::Wall] {
        let mut bitmap = spotted(&rt, rt.alloc(), MAP)?;
        let mut text = Text::new(rt.alloc())?;
        let setting = Setting { edge, ..SETTING };
        let blank = blank(&rt, rt.alloc(), setting, MAP)?;
        take_turns::<Brand, _>(&rt, rt.alloc(), blank, &mut bitmap, edge, &mut text)?;
    }
    Ok(())
}
