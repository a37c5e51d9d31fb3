//! Stores that tests open.

ghost use Rattle.std.specs.Prelude.{◌≡◌};

use crate::compare::holds;
use bits::Bitmap;
use map_core::Setting;
use metric::{Cell, Rect};
use session::{Blank, Pinned, Session, Store};
use shelf::StoreName;
use std::alloc::Global;
use std::process::Abort;
use std::test::Fail;

/// The size of a map, and one obstacle per how many cells; 0 for none.
pub type Spotted = ([u16; 2], u32);

/// A map without obstacles, or with one per this many cells.
pub fn spotted(rt: &impl Abort, alloc: Global, map: Spotted) -> Result<Bitmap, Fail> {
    let ([width, height], rare) = map;
    if width == 0 || 4096 < width || height == 0 || 4096 < height {
        return Err(Fail::from("a side that no map has"));
    }
    let mut bitmap = Bitmap::blank(alloc, width, height)?;
    if rare == 0 {
        return Ok(bitmap);
    }
    for y in 0..height {
        for x in 0..width {
            let number = u32::from(x) * 37 + u32::from(y) * 101 + 11;
            if number % rare == 0 {
                let cell = Cell { x, y };
                holds(rt, bitmap.holds(cell), cell);
                bitmap.set(cell, true);
            }
        }
    }
    Ok(bitmap)
}

/// A blank store on such a map.
pub fn blank(
    rt: &impl Abort,
    alloc: Global,
    setting: Setting,
    map: Spotted,
) -> Result<Blank, Fail> {
    match Blank::of(alloc, setting, spotted(rt, alloc, map)?) {
        Ok(blank) => Ok(blank),
        Err((_, refusal)) => Err(Fail::from(refusal)),
    }
}

/// Opens a store.
pub fn open<Id: StoreName>(
    alloc: Global,
    blank: Blank,
) -> Result<(Store<Id>, Vec<Session<Id>>), Fail>
    requires { blank ≡ Id.store }
{
    match Store::<Id>::open(alloc, blank) {
        Ok(opened) => Ok(opened),
        Err((blank, refusal)) => {
            blank.discard();
            Err(Fail::from(refusal))
        }
    }
}

/// Closes a store. Returns how many entries its log has, including those that a checkpoint has
/// dropped.
pub fn close<Id: StoreName>(store: Store<Id>, sessions: Vec<Session<Id>>) -> usize {
    let (base, kept) = store.close(sessions);
    kept.len().saturating_add(base as usize)
}

/// The rectangle with these corners.
pub fn rect(rt: &impl Abort, corners: [u16; 4]) -> Rect {
    let [x0, y0, x1, y1] = corners;
    Rect::new(x0, y0, x1, y1).expect(rt, "a rectangle")
}

/// The last of the remaining sessions.
pub fn next<Id: StoreName>(rt: &impl Abort, sessions: &mut Vec<Session<Id>>) -> Session<Id> {
    sessions.pop().expect(rt, "a session")
}

/// Puts a session back among the others.
pub fn hand_back<Id: StoreName>(
    rt: &impl Abort,
    sessions: &mut Vec<Session<Id>>,
    session: Session<Id>,
) {
    match sessions.push(session) {
        Ok(()) => {}
        Err(_) => panic!(rt; "no room for a session"),
    }
}

/// Pins the newest version.
pub fn pin<Id: StoreName>(rt: &impl Abort, alloc: Global, session: Session<Id>) -> Pinned<Id> {
    match session.pin(alloc) {
        Ok(pinned) => pinned,
        Err(_) => panic!(rt; "no memory for a pin"),
    }
}
