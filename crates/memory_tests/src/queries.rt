//! What a pin and a session do without memory: queries, the bitmap, a ticket that is learned, and
//! the end of a pin.

ghost use Rattle.std.specs.Prelude.{◌≡◌};

use crate::compare::{holds, same};
use crate::opened::{blank, close, hand_back, next, open, pin, rect, unpin};
use crate::told::{begin, end};
use clearance::Queried;
use map_core::Setting;
use metric::{Cell, Edge, Euclid2, Near, Spot};
use session::{Blank, Pinned};
use shelf::StoreName;
use std::alloc::Global;
use std::marker::Brand;
use std::process::Abort;
use std::sync::Wait;
use std::test::Fail;

const SETTING: Setting = Setting {
    blocks: 2,
    versions: 2,
    sessions: 1,
    log: 10,
    edge: Edge::Open,
};

/// The map's only obstacle.
const OBSTACLE: Cell = Cell { x: 3, y: 4 };

/// Its position.
const SPOT: Spot = Spot { x: 3, y: 4 };

/// A query of a pin.
#[derive(Clone, Copy)]
enum Query {
    At,
    LeastIn,
    Along,
    ClearOf,
}

/// The queries, and their names.
const QUERIES: [(Query, &str); 4] = [
    (Query::At, "at"),
    (Query::LeastIn, "least_in"),
    (Query::Along, "along"),
    (Query::ClearOf, "clear_of"),
];

/// Asks a query, and checks its answer.
fn ask<Id: StoreName>(rt: &impl Abort, alloc: Global, pinned: &mut Pinned<Id>, query: Query) {
    let path = [Cell { x: 0, y: 0 }, Cell { x: 0, y: 10 }];
    let beside = (
        Cell { x: 0, y: 4 },
        Near {
            dist: 9,
            cell: SPOT,
        },
    );
    match query {
        Query::At => {
            let at = pinned.at::<Euclid2>(alloc, Cell { x: 0, y: 0 });
            same(
                rt,
                at,
                Ok(Some(Near {
                    dist: 25,
                    cell: SPOT,
                })),
                "a cell",
            );
        }
        Query::LeastIn => {
            let least = pinned.least_in::<Euclid2>(alloc, rect(rt, [0, 0, 2, 2]));
            let corner = (
                Cell { x: 1, y: 1 },
                Near {
                    dist: 13,
                    cell: SPOT,
                },
            );
            same(rt, least, Ok(Some(corner)), "a rectangle");
        }
        Query::Along => {
            let along = pinned.along::<Euclid2>(alloc, &path);
            same(rt, along, Ok(Some(beside)), "a path");
        }
        Query::ClearOf => {
            let clear = pinned.clear_of::<Euclid2>(alloc, &path, 10);
            same(rt, clear, Ok(Some(beside)), "a path too close");
        }
    }
}

/// Asks each query.
fn ask_all<Id: StoreName, R: Abort + Print>(rt: &R, alloc: Global, pinned: &mut Pinned<Id>) {
    for (query, name) in QUERIES {
        let call = ("Pinned", name);
        begin(rt, call);
        ask(rt, alloc, pinned, query);
        end(rt, call, false);
    }
}

#[test]
fn queries_take_no_memory(rt: HostRuntime) -> Result<(), Fail> {
    let blank = blank(&rt, rt.alloc(), SETTING, [64, 64], OBSTACLE)?;
    asks_in::<Brand, _>(&rt, rt.alloc(), blank)
}

/// Asks a pin whose version isn't read yet, and again once it is.
fn asks_in<Id: StoreName, R: Wait + Abort + Print>(
    rt: &R,
    alloc: Global,
    blank: Blank,
) -> Result<(), Fail>
    requires { blank ≡ Id.store }
{
    let (store, mut sessions) = open::<Id, R>(rt, alloc, blank)?;
    let mut pinned = pin(rt, alloc, next(rt, &mut sessions));
    ask_all(rt, alloc, &mut pinned);
    let (read, learn) = (("Pinned", "bitmap"), ("Pinned", "learn"));
    begin(rt, read);
    let map = pinned.bitmap();
    end(rt, read, false);
    holds(rt, map.holds(OBSTACLE), OBSTACLE);
    holds(rt, map.get(OBSTACLE), "the obstacle");
    ask_all(rt, alloc, &mut pinned);
    let told = store.lock(rt).ticket().expect(rt, "a ticket");
    begin(rt, learn);
    pinned.learn(told);
    end(rt, learn, false);
    same(rt, pinned.version(), 0, "the pin's version");
    let mut session = unpin(rt, pinned);
    let told = store.lock(rt).ticket().expect(rt, "a ticket");
    let learn = ("Session", "learn");
    begin(rt, learn);
    session.learn(told);
    end(rt, learn, false);
    hand_back(rt, &mut sessions, session);
    same(rt, close(rt, store, sessions), (0, 0), "the log");
    Ok(())
}
