//! How many words pins read: queries of a fresh pin leave its version unread until they have read
//! eight words per tile. No clause says so.

ghost use Rattle.std.specs.Prelude.{◌≡◌};

use crate::compare::{holds, same};
use crate::opened::{Spotted, blank, close, hand_back, next, open, pin};
use crate::sessions::fresh::{SETTING, ask};
use clearance::Queried;
use metric::{Cell, City};
use proto::{Line, parse_line};
use session::{Blank, Session};
use shelf::StoreName;
use std::alloc::Global;
use std::marker::Brand;
use std::process::Abort;
use std::test::Fail;

/// A query of each kind that has to read at least one word and finds the obstacle in it, on a map
/// whose pins read 48 words.
const ASKS: [(&[u8], &[u8]); 4] = [
    (b"AT city 7 0", b"OK 0 7 0\n"),
    (b"RECT city 7 0 8 1", b"OK 0 7 0 7 0\n"),
    (b"PATH city 7 0", b"OK 0 7 0 7 0\n"),
    (b"CLEAROF city 1 7 0", b"OK 0 7 0 7 0\n"),
];

/// A pin is unread after four queries of a cell, and read after 49.
fn ask_often<Id: StoreName>(
    rt: &impl Abort,
    alloc: Global,
    session: Session<Id>,
    (line, want): (&[u8], &[u8]),
) -> Session<Id> {
    let mut pinned = pin(rt, alloc, session);
    match parse_line(alloc, line) {
        Ok(Line::Query(query)) => {
            for times in 1..51 {
                ask(rt, alloc, &mut pinned, &query, want);
                let is_read = pinned.bitmap_read().is_some();
                holds(rt, !is_read || 4 < times, ("after four", line));
                holds(rt, is_read || times < 49, ("after forty-nine", line));
            }
        }
        _ => panic!(rt; "no query"),
    }
    pinned.unpin()
}

/// Maps, and how many of their cells, at least and at most, have a query that reads the version if
/// it is the first of a pin: few cells if some obstacles are far, and each cell if there is none,
/// since the query has to read each word. On the first map a few queries are asked often instead.
const MAPS: [(Spotted, Option<(u32, u32)>); 3] = [
    (([130, 70], 9), None),
    (([130, 70], 300), Some((1, 4_549))),
    (([130, 70], 0), Some((9_100, 9_100))),
];

/// Counts the cells of a map whose query, as the first of a pin, reads the version.
fn count_far<Id: StoreName>(
    rt: &impl Abort,
    alloc: Global,
    session: Session<Id>,
) -> (Session<Id>, u32) {
    let (mut session, mut far) = (session, 0u32);
    for y in 0..70 {
        for x in 0..130 {
            let mut pinned = pin(rt, alloc, session);
            holds(rt, pinned.at::<City>(alloc, Cell { x, y }).is_ok(), (x, y));
            far = far.saturating_add(u32::from(pinned.bitmap_read().is_some()));
            session = pinned.unpin();
        }
    }
    (session, far)
}

/// Queries pins of a store often, or once for each cell, of which this many are to be far.
fn ask_pins<Id: StoreName>(
    rt: &impl Abort,
    alloc: Global,
    blank: Blank,
    limits: Option<(u32, u32)>,
) -> Result<(), Fail>
    requires { blank ≡ Id.store }
{
    let (store, mut sessions) = open::<Id>(alloc, blank)?;
    let mut session = next(rt, &mut sessions);
    match limits {
        Some((least, most)) => {
            let (back, far) = count_far(rt, alloc, session);
            holds(rt, least <= far && far <= most, ("cells that are far", far));
            session = back;
        }
        None => {
            for asked in ASKS {
                session = ask_often(rt, alloc, session, asked);
            }
        }
    }
    hand_back(rt, &mut sessions, session);
    same(rt, close(store, sessions), 0, "entries");
    Ok(())
}

#[test]
fn few_queries_leave_a_version_unread(rt: HostRuntime) -> Result<(), Fail> {
    for (map, limits) in MAPS {
        let blank = blank(&rt, rt.alloc(), SETTING, map)?;
        ask_pins::<Brand>(&rt, rt.alloc(), blank, limits)?;
    }
    Ok(())
}
