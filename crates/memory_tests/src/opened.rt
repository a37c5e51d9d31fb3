//! Maps and stores for the tests. What finds no memory is retried.

ghost use Rattle.std.specs.Prelude.{◌≡◌};

use crate::compare::{holds, same};
use crate::told::{Call, begin, end};
use bits::Bitmap;
use map_core::Setting;
use metric::{Cell, Rect, Refusal};
use session::{Blank, Pinned, Session, Store};
use shelf::StoreName;
use std::alloc::Global;
use std::process::Abort;
use std::test::Fail;

/// The call that makes a blank.
const BLANK: Call = ("Blank", "of");

/// The call that opens a store.
const OPEN: Call = ("Store", "open");

/// The call by which a session pins.
pub const PIN: Call = ("Session", "pin");

/// A map of this size without obstacles.
pub fn map(alloc: Global, size: [u16; 2]) -> Result<Bitmap, Refusal> {
    let [width, height] = size;
    if width == 0 || 4096 < width || height == 0 || 4096 < height {
        return Err(Refusal::OutOfRange);
    }
    match Bitmap::blank(alloc, width, height) {
        Ok(map) => Ok(map),
        Err(_) => Ok(Bitmap::blank(alloc, width, height)?),
    }
}

/// A map of this size with one obstacle.
pub fn drawn(
    rt: &impl Abort,
    alloc: Global,
    size: [u16; 2],
    obstacle: Cell,
) -> Result<Bitmap, Fail> {
    let mut map = map(alloc, size)?;
    holds(rt, map.holds(obstacle), obstacle);
    map.set(obstacle, true);
    Ok(map)
}

/// A blank store on a map of this size with one obstacle. A refused map is returned as it was.
pub fn blank<R: Abort + Print>(
    rt: &R,
    alloc: Global,
    setting: Setting,
    size: [u16; 2],
    obstacle: Cell,
) -> Result<Blank, Fail> {
    let map = drawn(rt, alloc, size, obstacle)?;
    begin(rt, BLANK);
    let (map, refusal) = match Blank::of(alloc, setting, map) {
        Ok(blank) => {
            end(rt, BLANK, false);
            return Ok(blank);
        }
        Err(back) => back,
    };
    end(rt, BLANK, true);
    same(rt, refusal, Refusal::Memory, "a blank");
    same(rt, [map.width(), map.height()], size, "the map's size");
    holds(rt, map.holds(obstacle), obstacle);
    holds(rt, map.get(obstacle), "the obstacle");
    match Blank::of(alloc, setting, map) {
        Ok(blank) => Ok(blank),
        Err((_, refusal)) => Err(Fail::from(refusal)),
    }
}

/// Opens a store. A refused blank is returned, and opened again.
pub fn open<Id: StoreName, R: Abort + Print>(
    rt: &R,
    alloc: Global,
    blank: Blank,
) -> Result<(Store<Id>, Vec<Session<Id>>), Fail>
    requires { blank ≡ Id.store }
{
    begin(rt, OPEN);
    let blank = match Store::<Id>::open(alloc, blank) {
        Ok(opened) => {
            end(rt, OPEN, false);
            return Ok(opened);
        }
        Err((blank, _)) => blank,
    };
    end(rt, OPEN, true);
    match Store::<Id>::open(alloc, blank) {
        Ok(opened) => Ok(opened),
        Err((blank, refused)) => {
            blank.discard();
            Err(Fail::from(refused))
        }
    }
}

/// Closes a store, which takes no memory. Returns the place of the last checkpoint, and how many
/// entries are kept.
pub fn close<Id: StoreName>(
    rt: &impl Print,
    store: Store<Id>,
    sessions: Vec<Session<Id>>,
) -> (u32, usize) {
    let call = ("Store", "close");
    begin(rt, call);
    let (base, kept) = store.close(sessions);
    end(rt, call, false);
    (base, kept.len())
}

/// The rectangle with these corners.
pub fn rect(rt: &impl Abort, corners: [u16; 4]) -> Rect {
    let [x0, y0, x1, y1] = corners;
    Rect::new(x0, y0, x1, y1).expect(rt, "a rectangle")
}

/// The last of the remaining sessions.
pub fn next<Id: StoreName>(rt: &impl Abort, sessions: &mut Vec<Session<Id>>) -> Session<Id> {
    sessions.pop().expect(rt, "a session")
}

/// Returns a session to the others; its `pop` left capacity for it.
pub fn hand_back<Id: StoreName>(
    rt: &impl Abort,
    sessions: &mut Vec<Session<Id>>,
    session: Session<Id>,
) {
    match sessions.push(session) {
        Ok(()) => {}
        Err(_) => panic!(rt; "no room for a session"),
    }
}

/// Pins the newest version. A refused session is returned, and pins again.
pub fn pin<Id: StoreName, R: Abort + Print>(
    rt: &R,
    alloc: Global,
    session: Session<Id>,
) -> Pinned<Id> {
    let made = session.made();
    begin(rt, PIN);
    let session = match session.pin(alloc) {
        Ok(pinned) => {
            end(rt, PIN, false);
            return pinned;
        }
        Err((session, _)) => session,
    };
    end(rt, PIN, true);
    same(rt, session.made(), made, "a pin");
    match session.pin(alloc) {
        Ok(pinned) => pinned,
        Err(_) => panic!(rt; "a pin was refused twice"),
    }
}

/// Unpins, which takes no memory.
pub fn unpin<Id: StoreName>(rt: &impl Print, pinned: Pinned<Id>) -> Session<Id> {
    let call = ("Pinned", "unpin");
    begin(rt, call);
    let session = pinned.unpin();
    end(rt, call, false);
    session
}
