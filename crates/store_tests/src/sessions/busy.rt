//! Threads that paint, publish, collect, pin and ask at once, on few blocks and few slots: each pin
//! shows the bitmap published under its number.

ghost use Rattle.std.specs.Prelude.{◌≡◌, ◌<◌};

use crate::compare::{holds, same};
use crate::opened::{blank, close, hand_back, next, open, pin, rect};
use bits::Bitmap;
use clearance::Queried;
use map_core::{Command, Setting};
use metric::{Cell, Chess, Edge, Refusal};
use session::{Blank, Session, Store};
use shelf::StoreName;
use std::alloc::Global;
use std::marker::Brand;
use std::mem::replace;
use std::process::Abort;
use std::sync::Wait;
use std::test::Fail;
use std::thread::{Threads, for_each_mut, sleep};
use std::time::{Clock, Duration, Instant};

/// How many versions are published, how often a planner pins, and how often a full store is
/// retried.
const VERSIONS: u32 = 300;

const PINS: u32 = 1_000;

const TRIES: u32 = 100_000;

/// A thread's session, and the newest version that it has published or pinned.
struct Worker<Id: StoreName> {
    session: Option<Session<Id>>,
    newest: u32,
}

#[test]
fn planners_beside_a_painter(rt: HostRuntime) -> Result<(), Fail> {
    let setting = Setting {
        blocks: 7,
        versions: 3,
        sessions: 4,
        log: 1_000_000,
        edge: Edge::Open,
    };
    let since = Instant::now(&rt)?;
    let blank = blank(&rt, rt.alloc(), setting, ([128, 64], 0))?;
    paints_and_plans::<Brand, _>(&rt, rt.alloc(), blank, since)
}

/// Whether the threads have run for two seconds.
fn is_over(clock: &impl Clock, since: Instant) -> bool {
    match since.elapsed(clock) {
        Ok(spent) => Duration::from_secs(2) <= spent,
        Err(_) => true,
    }
}

/// The one obstacle of each of a version's two tiles: version 0 has none.
fn spot(version: u32) -> Cell
    ensures column { result.x < 64 }
    ensures row { result.y < 64 }
{
    Cell {
        x: (version % 64) as u16,
        y: (version / 64 % 64) as u16,
    }
}

/// Whether a bitmap is the one that was published under this number.
fn is_version(map: &Bitmap, version: u32) -> bool {
    if map.width() != 128 || map.height() != 64 {
        return false;
    }
    let spot = spot(version);
    for y in 0..64u16 {
        let word = if version == 0 || y != spot.y {
            0
        } else {
            1 << spot.x
        };
        if map.row_words(y) != [word, word].as_slice() {
            return false;
        }
    }
    true
}

/// Retries a command until it is accepted. If blocks or slots are lacking, it gives the planners
/// time to unpin, collects, and tries again.
fn apply<Id: StoreName, R: Wait + Abort + Clock>(
    rt: &R,
    store: &Store<Id>,
    painter: &mut Session<Id>,
    command: Command,
) {
    let mut command = command;
    for _ in 0..TRIES {
        let applied = painter.apply(&mut store.lock(rt), command);
        match applied {
            Ok(_) => return,
            Err((back, Refusal::BlocksFull { .. } | Refusal::VersionsFull)) => command = back,
            Err(_) => panic!(rt; "a command was refused"),
        }
        sleep(rt, Duration::from_micros(100));
        let collected = painter.collect(&mut store.lock(rt));
        holds(rt, collected.is_ok(), "a collect was refused");
    }
    panic!(rt; "no block came back, and no slot came free")
}

/// Publishes each version: clears the spots of the version before, and paints its own.
fn publish_all<Id: StoreName, R: Wait + Abort + Clock>(
    rt: &R,
    store: &Store<Id>,
    since: Instant,
    worker: &mut Worker<Id>,
) {
    let painter = worker.session.as_mut().expect(rt, "the painter");
    for version in 1..=VERSIONS {
        let Cell { x, y } = spot(version);
        for (corners, black) in [
            ([0, 0, 128, 64], false),
            ([x, y, x + 1, y + 1], true),
            ([x + 64, y, x + 65, y + 1], true),
        ] {
            let rect = rect(rt, corners);
            apply(rt, store, painter, Command::Paint { rect, black });
        }
        apply(rt, store, painter, Command::Publish);
        worker.newest = version;
        if is_over(rt, since) {
            return;
        }
    }
}

/// Pins, and compares the bitmap and an answer with what was published under the pin's number.
fn compare<Id: StoreName>(
    rt: &impl Abort,
    alloc: Global,
    session: Session<Id>,
) -> (u32, Session<Id>) {
    let mut pinned = pin(rt, alloc, session);
    let version = pinned.version();
    let shown = is_version(pinned.bitmap(), version);
    holds(rt, shown, ("the bitmap of", version));
    let spot = spot(version);
    let dist = match pinned.at::<Chess>(alloc, Cell { x: 0, y: 0 }) {
        Ok(Some(near)) => Some(near.dist),
        Ok(None) => None,
        Err(_) => panic!(rt; "the cell is in the map"),
    };
    let want = (version != 0).then_some(u32::from(spot.x.max(spot.y)));
    same(rt, dist, want, ("an answer of", version));
    (version, pinned.unpin())
}

/// Pins often. The version never decreases.
fn pin_all<Id: StoreName, R: Abort + Clock>(
    rt: &R,
    alloc: Global,
    since: Instant,
    worker: &mut Worker<Id>,
) {
    let mut session = worker.session.take().expect(rt, "a planner");
    for _ in 0..PINS {
        let (version, back) = compare(rt, alloc, session);
        let newest = replace(&mut worker.newest, version);
        holds(rt, newest <= version, (newest, "is newer than", version));
        session = back;
        if is_over(rt, since) {
            break;
        }
    }
    match worker.session.replace(session) {
        None => {}
        Some(_) => panic!(rt; "two planners"),
    }
}

/// The first session paints and the others plan, each in a thread of its own.
fn side_by_side<Id: StoreName + Send + Sync, R: Threads + Wait + Abort + Clock + Sync>(
    rt: &R,
    alloc: Global,
    store: &Store<Id>,
    since: Instant,
    workers: &mut [Worker<Id>],
) {
    for_each_mut(
        rt,
        workers,
        4,
        &|number, worker: &mut Worker<Id>| {
            if number == 0 {
                publish_all(rt, store, since, worker);
            } else {
                pin_all(rt, alloc, since, worker);
            }
        },
    );
}

/// A worker that has seen only version 0.
fn hired<Id: StoreName>(rt: &impl Abort, sessions: &mut Vec<Session<Id>>) -> Worker<Id> {
    Worker {
        session: Some(next(rt, sessions)),
        newest: 0,
    }
}

/// Takes back a worker's session, and returns the newest version that it knows.
fn dismiss<Id: StoreName>(
    rt: &impl Abort,
    sessions: &mut Vec<Session<Id>>,
    worker: Worker<Id>,
) -> u32 {
    let Worker { session, newest } = worker;
    hand_back(rt, sessions, session.expect(rt, "a session"));
    newest
}

/// A store whose painter publishes while its planners pin. After all have ended, a pin has the
/// version that the painter published last.
fn paints_and_plans<Id: StoreName + Send + Sync, R: Threads + Wait + Abort + Clock + Sync>(
    rt: &R,
    alloc: Global,
    blank: Blank,
    since: Instant,
) -> Result<(), Fail>
    requires { blank ≡ Id.store }
{
    let (store, mut sessions) = open::<Id>(alloc, blank)?;
    let mut workers = [
        hired(rt, &mut sessions),
        hired(rt, &mut sessions),
        hired(rt, &mut sessions),
        hired(rt, &mut sessions),
    ];
    side_by_side(rt, alloc, &store, since, &mut workers);
    let [painter, first, second, third] = workers;
    let published = dismiss(rt, &mut sessions, painter);
    let first = dismiss(rt, &mut sessions, first);
    let second = dismiss(rt, &mut sessions, second);
    let third = dismiss(rt, &mut sessions, third);
    let seen = first.max(second).max(third);
    holds(rt, seen <= published, (seen, "is newer than", published));
    holds(rt, published != 0, "nothing was published");
    let (version, session) = compare(rt, alloc, next(rt, &mut sessions));
    same(rt, version, published, "the last version");
    let entries = store.lock(rt).log().len();
    hand_back(rt, &mut sessions, session);
    same(rt, close(store, sessions), entries, "entries");
    Ok(())
}
