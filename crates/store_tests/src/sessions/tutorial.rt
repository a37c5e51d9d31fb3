//! The program that docs/change/SESSIONS.md starts with.

ghost use Rattle.std.specs.Prelude.{◌≡◌};

use bits::Bitmap;
use clearance::Queried;
use events::{Reply, Setting};
use metric::{Cell, Edge, Euclid2, Near, Rect, Refusal};
use session::{Blank, Session, Store};
use shelf::StoreName;
use std::alloc::Global;
use std::marker::Brand;
use std::process::Abort;
use std::sync::Wait;
use std::test::Fail;

#[test]
fn a_plan_beside_a_painter(rt: HostRuntime) -> Result<(), Fail> {
    let map = Bitmap::blank(rt.alloc(), 64, 64)?;
    let setting = Setting {
        blocks: 16,
        versions: 8,
        sessions: 2,
        log: 1_000,
        edge: Edge::Open,
    };
    match Blank::of(rt.alloc(), setting, map) {
        Ok(blank) => paint_and_plan::<Brand, _>(&rt, rt.alloc(), blank),
        Err((_, refusal)) => Err(Fail::from(refusal)),
    }
}

/// Opens the store, lets one session paint and the other plan, and closes it.
fn paint_and_plan<Id: StoreName, R: Wait + Abort>(
    rt: &R,
    alloc: Global,
    blank: Blank,
) -> Result<(), Fail>
    requires { blank ≡ Id.store }
{
    let (store, mut sessions) = match Store::<Id>::open(alloc, blank) {
        Ok(opened) => opened,
        Err((blank, refusal)) => {
            blank.discard();
            return Err(Fail::from(refusal));
        }
    };
    let mut painter = sessions.pop().expect(rt, "two sessions were asked for");
    let planner = sessions.pop().expect(rt, "two sessions were asked for");
    let drawn = draw(rt, &store, &mut painter);
    let (planner, planned) = plan(alloc, planner);
    hand_back(rt, &mut sessions, painter);
    hand_back(rt, &mut sessions, planner);
    let (base, kept) = store.close(sessions);

    assert_eq!(rt;
        drawn?,
        Reply::Published {
            place: 2,
            version: 1
        }
    );
    let (at, near) = planned?.expect(rt, "the map has an obstacle");
    assert_eq!(rt; (at.x, at.y, near.dist), (9, 20, 16));
    assert_eq!(rt; (base, kept.len()), (0, 2));
    Ok(())
}

/// Paints a wall and publishes it. The session is only lent, so `?` may leave early.
fn draw<Id: StoreName, R: Wait>(
    rt: &R,
    store: &Store<Id>,
    painter: &mut Session<Id>,
) -> Result<Reply, Refusal> {
    let wall = Rect::new(5, 0, 6, 30).ok_or(Refusal::OutOfRange)?;
    painter.paint(&mut store.lock(rt), wall, true)?;
    painter.publish(&mut store.lock(rt))
}

/// The tightest cell of a path on the newest version. Returns the session in any case, and takes no
/// lock.
fn plan<Id: StoreName>(
    alloc: Global,
    planner: Session<Id>,
) -> (Session<Id>, Result<Option<(Cell, Near)>, Refusal>) {
    let path = [
        Cell { x: 40, y: 20 },
        Cell { x: 9, y: 20 },
        Cell { x: 9, y: 40 },
    ];
    match planner.pin(alloc) {
        Ok(mut pinned) => {
            let tightest = pinned.along::<Euclid2>(alloc, &path);
            (pinned.unpin(), tightest)
        }
        Err((planner, refused)) => (planner, Err(Refusal::from(refused))),
    }
}

/// Puts a session back among those that `close` takes, in the room that its `pop` left.
fn hand_back<Id: StoreName>(
    rt: &impl Abort,
    sessions: &mut Vec<Session<Id>>,
    session: Session<Id>,
) {
    match sessions.push(session) {
        Ok(()) => {}
        Err(_) => panic!(rt; "no room for a session"),
    }
}
