//! A pin that finds no memory holds nothing: its session's word is 0.

ghost use Rattle.std.specs.Prelude.{◌≡◌};

use crate::acts::{Act, Row, Told};
use crate::compare::same;
use crate::opened::{PIN, blank, close, hand_back, next, open, pin, unpin};
use crate::seat::Seat;
use crate::told::{begin, end};
use map_core::Setting;
use metric::{Cell, Edge};
use session::{Blank, Session, Store};
use shelf::StoreName;
use std::alloc::Global;
use std::marker::Brand;
use std::process::Abort;
use std::sync::Wait;
use std::test::Fail;

const SETTING: Setting = Setting {
    blocks: 7,
    versions: 8,
    sessions: 2,
    log: 100,
    edge: Edge::Open,
};

/// Before the pin.
const BEFORE: [Row; 2] = [
    (Act::Paint([0, 0, 1, 1]), Told::Painted(1, 1), [4, 3]),
    (Act::Publish, Told::Published(2, 1), [3, 2]),
];

/// While version 1, which stays, is pinned.
const BESIDE: [Row; 2] = [
    (Act::Publish, Told::Published(3, 2), [4, 2]),
    (Act::Collect, Told::Collected(4, 1, 1), [4, 2]),
];

/// After a refused pin: only the newest stays.
const AFTER: [Row; 2] = [
    (Act::Publish, Told::Published(3, 2), [4, 2]),
    (Act::Collect, Told::Collected(4, 2, 1), [4, 2]),
];

#[test]
fn a_refused_pin_holds_nothing(rt: HostRuntime) -> Result<(), Fail> {
    let obstacle = Cell { x: 0, y: 63 };
    let blank = blank(&rt, rt.alloc(), SETTING, [256, 64], obstacle)?;
    pins_in::<Brand, _>(&rt, rt.alloc(), blank)
}

/// One session paints, publishes and collects, and the other one pins.
fn pins_in<Id: StoreName, R: Wait + Abort + Print>(
    rt: &R,
    alloc: Global,
    blank: Blank,
) -> Result<(), Fail>
    requires { blank ≡ Id.store }
{
    let (store, mut sessions) = open::<Id, R>(rt, alloc, blank)?;
    let mut painter = Seat::Free(next(rt, &mut sessions));
    let planner = next(rt, &mut sessions);
    painter.play(rt, alloc, &store, &BEFORE);
    let planner = pins_beside(rt, alloc, &store, &mut painter, planner);
    hand_back(rt, &mut sessions, planner);
    hand_back(rt, &mut sessions, painter.leave(rt));
    same(rt, close(rt, store, sessions), (0, 4), "the log");
    Ok(())
}

/// Pins, and checks by a collect what is held.
fn pins_beside<Id: StoreName, R: Wait + Abort + Print>(
    rt: &R,
    alloc: Global,
    store: &Store<Id>,
    painter: &mut Seat<Id>,
    planner: Session<Id>,
) -> Session<Id> {
    begin(rt, PIN);
    match planner.pin(alloc) {
        Ok(pinned) => {
            end(rt, PIN, false);
            painter.play(rt, alloc, store, &BESIDE);
            same(rt, pinned.version(), 1, "the pin's version");
            unpin(rt, pinned)
        }
        Err((planner, _)) => {
            end(rt, PIN, true);
            painter.play(rt, alloc, store, &AFTER);
            let pinned = pin(rt, alloc, planner);
            same(rt, pinned.version(), 2, "the pin's version");
            unpin(rt, pinned)
        }
    }
}
