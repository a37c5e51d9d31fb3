//! What waits for nobody: a pin while a lock is held, and a ticket passed from one thread to
//! another.

ghost use Rattle.std.specs.Prelude.{◌≡◌};

use crate::compare::{holds, same};
use crate::opened::{blank, close, hand_back, next, open, pin, rect};
use clearance::Queried;
use map_core::Setting;
use metric::{Cell, City, Edge, Near, Spot};
use session::{Blank, Session, Store};
use shelf::{StoreName, Ticket};
use std::alloc::Global;
use std::marker::Brand;
use std::process::Abort;
use std::sync::Wait;
use std::test::Fail;
use std::thread::{Threads, join};

/// Two sessions on few blocks.
const SETTING: Setting = Setting {
    blocks: 4,
    versions: 4,
    sessions: 2,
    log: 10,
    edge: Edge::Open,
};

/// The nearest obstacle of the queried cell, once there is one.
const SEEN: Near = Near {
    dist: 7,
    cell: Spot { x: 0, y: 0 },
};

#[test]
fn pin_beside_lock(rt: HostRuntime) -> Result<(), Fail> {
    let blank = blank(&rt, rt.alloc(), SETTING, ([64, 64], 0))?;
    pins_while_the_lock_is_held::<Brand, _>(&rt, rt.alloc(), blank)
}

/// Pins, asks for the nearest obstacle of a cell, and unpins. It takes no lock.
fn ask<Id: StoreName>(
    rt: &impl Abort,
    alloc: Global,
    session: Session<Id>,
) -> (u32, Option<Near>, Session<Id>) {
    let mut pinned = pin(rt, alloc, session);
    let near = match pinned.at::<City>(alloc, Cell { x: 3, y: 4 }) {
        Ok(near) => near,
        Err(_) => panic!(rt; "the cell is in the map"),
    };
    (pinned.version(), near, pinned.unpin())
}

/// One session publishes with the desk's guard while the other one pins, asks and unpins.
fn pins_while_the_lock_is_held<Id: StoreName, R: Wait + Abort>(
    rt: &R,
    alloc: Global,
    blank: Blank,
) -> Result<(), Fail>
    requires { blank ≡ Id.store }
{
    let (store, mut sessions) = open::<Id>(alloc, blank)?;
    let planner = next(rt, &mut sessions);
    let mut painter = next(rt, &mut sessions);
    let spot = rect(rt, [0, 0, 1, 1]);
    let mut desk = store.lock(rt);
    holds(rt, painter.paint(&mut desk, spot, true).is_ok(), "a paint");
    let (version, near, planner) = ask(rt, alloc, planner);
    same(rt, (version, near), (0, None), "nothing is published");
    holds(rt, painter.publish(&mut desk).is_ok(), "a publish");
    let (version, near, planner) = ask(rt, alloc, planner);
    same(rt, version, 1, "version 1 is published");
    same(rt, near, Some(SEEN), "its obstacle");
    drop(desk);
    hand_back(rt, &mut sessions, painter);
    hand_back(rt, &mut sessions, planner);
    same(rt, close(store, sessions), 2, "entries");
    Ok(())
}

#[test]
fn ticket_between_threads(rt: HostRuntime) -> Result<(), Fail> {
    let blank = blank(&rt, rt.alloc(), SETTING, ([64, 64], 0))?;
    hands_a_ticket_over::<Brand, _>(&rt, rt.alloc(), blank)
}

/// Publishes a version. The thread's result is the ticket of the log.
fn publish_and_tell<Id: StoreName, R: Wait + Abort>(
    rt: &R,
    store: &Store<Id>,
    painter: &mut Session<Id>,
) -> Ticket<Id> {
    let spot = rect(rt, [0, 0, 1, 1]);
    let drawn = painter.paint(&mut store.lock(rt), spot, true);
    holds(rt, drawn.is_ok(), "a paint");
    let told = painter.publish(&mut store.lock(rt));
    holds(rt, told.is_ok(), "a publish");
    store.lock(rt).ticket().expect(rt, "a ticket")
}

/// A store whose painter informs the planner by a ticket, its thread's result.
fn hands_a_ticket_over<Id: StoreName + Send + Sync, R: Threads + Wait + Abort + Sync>(
    rt: &R,
    alloc: Global,
    blank: Blank,
) -> Result<(), Fail>
    requires { blank ≡ Id.store }
{
    let (store, mut sessions) = open::<Id>(alloc, blank)?;
    let mut planner = next(rt, &mut sessions);
    let mut painter = next(rt, &mut sessions);
    let (ticket, ()) = join(rt, || publish_and_tell(rt, &store, &mut painter), || ());
    planner.learn(ticket);
    let (version, near, planner) = ask(rt, alloc, planner);
    same(rt, version, 1, "what the ticket told");
    same(rt, near, Some(SEEN), "its obstacle");
    hand_back(rt, &mut sessions, painter);
    hand_back(rt, &mut sessions, planner);
    same(rt, close(store, sessions), 2, "entries");
    Ok(())
}
