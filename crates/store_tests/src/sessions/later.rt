//! Pins while others go on: what a fresh pin hasn't read yet is still its own version's, and what
//! an earlier pin has read isn't taken for a later one's.

ghost use Rattle.std.specs.Prelude.{◌≡◌};

use crate::compare::{holds, same};
use crate::opened::{Spotted, blank, close, hand_back, next, open, pin, rect, spotted};
use crate::sessions::fresh::{ask, cells};
use clearance::Queried;
use map_core::Setting;
use metric::{Cell, City, Edge, Euclid2, MetricKind, Near, Spot};
use proto::{Bordered, Text, answer_of, reply_text};
use session::{Blank, Pinned, Session, Store};
use shelf::StoreName;
use std::alloc::Global;
use std::marker::Brand;
use std::process::Abort;
use std::sync::Wait;
use std::test::Fail;

/// A map of six tiles, with an obstacle at `(97, 0)`.
const SPOTTED: Spotted = ([130, 70], 300);

/// Four slots, and blocks for the held version, the newest one and the draft.
const SETTING: Setting = Setting {
    blocks: 18,
    versions: 4,
    sessions: 2,
    log: 100,
    edge: Edge::Open,
};

/// An obstacle in the very cell.
const fn here(x: i16, y: i16) -> Near {
    Near {
        dist: 0,
        cell: Spot { x, y },
    }
}

/// Fills the map or clears it, publishes, and collects.
fn publish_all<Id: StoreName, R: Wait + Abort>(
    rt: &R,
    store: &Store<Id>,
    painter: &mut Session<Id>,
    black: bool,
) {
    let all = rect(rt, [0, 0, 130, 70]);
    let drawn = painter.paint(&mut store.lock(rt), all, black);
    holds(rt, drawn.is_ok(), "a paint");
    let published = painter.publish(&mut store.lock(rt));
    holds(rt, published.is_ok(), "a publish");
    let collected = painter.collect(&mut store.lock(rt));
    holds(rt, collected.is_ok(), "a collect");
}

/// Queries a pin before and after eight versions, which go around the slots twice: for one cell,
/// and then for each.
fn ask_while_others_publish<Id: StoreName, R: Wait + Abort>(
    rt: &R,
    alloc: Global,
    store: &Store<Id>,
    painter: &mut Session<Id>,
    pinned: &mut Pinned<Id>,
    map: Bordered<'_>,
) -> Result<(), Fail> {
    let mut map = map;
    let mut text = Text::new(alloc)?;
    let filled = pinned.at::<City>(alloc, Cell { x: 97, y: 0 });
    same(rt, filled, Ok(Some(here(97, 0))), "before");
    holds(rt, pinned.bitmap_read().is_none(), "one query");
    for number in 0..8 {
        publish_all(rt, store, painter, number % 2 == 0);
    }
    for query in &cells(alloc, MetricKind::Euclid2, SPOTTED.0)? {
        reply_text(&answer_of(alloc, &mut map, query), &mut text);
        ask(rt, alloc, pinned, query, text.as_bytes());
    }
    same(rt, pinned.version(), 0, "the version");
    holds(rt, pinned.bitmap_read().is_some(), "each query");
    Ok(())
}

/// A session's first pin reads its version. Its later pins are of the full map published meanwhile,
/// and each is queried once.
fn pin_again<Id: StoreName, R: Wait + Abort>(
    rt: &R,
    alloc: Global,
    blank: Blank,
    map: Bordered<'_>,
) -> Result<(), Fail>
    requires { blank ≡ Id.store }
{
    let (store, mut sessions) = open::<Id>(alloc, blank)?;
    let mut painter = next(rt, &mut sessions);
    let mut pinned = pin(rt, alloc, next(rt, &mut sessions));
    let asked = ask_while_others_publish(rt, alloc, &store, &mut painter, &mut pinned, map);
    publish_all(rt, &store, &mut painter, true);
    let mut session = pinned.unpin();
    for y in 0..70u16 {
        let mut later = pin(rt, alloc, session);
        let near = later.at::<Euclid2>(alloc, Cell { x: 70, y });
        same(rt, near, Ok(Some(here(70, y as i16))), y);
        session = later.unpin();
    }
    hand_back(rt, &mut sessions, painter);
    hand_back(rt, &mut sessions, session);
    same(rt, close(store, sessions), 27, "entries");
    asked
}

#[test]
fn pins_outlive_later_versions(rt: HostRuntime) -> Result<(), Fail> {
    let bitmap = spotted(&rt, rt.alloc(), SPOTTED)?;
    let edge = SETTING.edge;
    let blank = blank(&rt, rt.alloc(), SETTING, SPOTTED)?;
    let map = Bordered {
        bitmap: &bitmap,
        edge,
    };
    pin_again::<Brand, _>(&rt, rt.alloc(), blank, map)
}
