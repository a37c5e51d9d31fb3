//! A session with or without a pin, and its commands. One that finds no memory has changed nothing,
//! and is retried.

use crate::acts::{Act, Row, Told, answered};
use crate::compare::{holds, same};
use crate::opened::{map, pin, rect, unpin};
use crate::told::{begin, end};
use bits::Bitmap;
use desk::Desk;
use map_core::Reply;
use metric::{Cell, Refusal};
use session::{Pinned, Session, Store};
use shelf::StoreName;
use std::alloc::Global;
use std::process::Abort;
use std::sync::Wait;

/// A session, with or without a pin.
pub enum Seat<Id: StoreName> {
    Free(Session<Id>),
    Held(Pinned<Id>),
}

/// What is seen of a desk and of a seat: the base place, how many entries are kept, the last one's
/// answer, and how many commands the seat counts.
type Seen = (u32, usize, Option<Reply>, u32);

/// The corners of the whole map.
const WHOLE: [u16; 4] = [0, 0, 256, 64];

/// The cells that are stamped.
fn bar(rt: &impl Abort, alloc: Global) -> Bitmap {
    let Ok(mut bar) = map(alloc, [3, 1]) else {
        panic!(rt; "no memory for the stamp");
    };
    'obstacles: for x in [0, 2] {
        let cell = Cell { x, y: 0 };
        holds(rt, bar.holds(cell), cell);
        bar.set(cell, true);
    }
    bar
}

/// What is left of a stamp: nothing if it was accepted, otherwise its bitmap.
fn kept_back(
    stamped: Result<Reply, (Bitmap, Refusal)>,
    bar: &mut Option<Bitmap>,
) -> Result<Reply, Refusal> {
    match stamped {
        Ok(reply) => Ok(reply),
        Err((back, refusal)) => {
            *bar = Some(back);
            Err(refusal)
        }
    }
}

/// Runs a session's command. A stamp takes the bitmap.
fn by_session<Id: StoreName>(
    rt: &impl Abort,
    desk: &mut Desk<Id>,
    session: &mut Session<Id>,
    act: Act,
    bar: &mut Option<Bitmap>,
) -> Result<Reply, Refusal> {
    match act {
        Act::Paint(corners) => session.paint(desk, rect(rt, corners), true),
        Act::PaintAll => session.paint(desk, rect(rt, WHOLE), true),
        Act::Stamp(x, y) => {
            let bitmap = bar.take().expect(rt, "a bitmap");
            kept_back(session.stamp(desk, x, y, bitmap), bar)
        }
        Act::Publish => session.publish(desk),
        Act::Revert => session.revert(desk),
        Act::Collect => session.collect(desk),
        Act::Checkpoint => session.checkpoint(desk),
    }
}

/// Runs a pin's command. A stamp takes the bitmap.
fn by_pin<Id: StoreName>(
    rt: &impl Abort,
    desk: &mut Desk<Id>,
    pinned: &mut Pinned<Id>,
    act: Act,
    bar: &mut Option<Bitmap>,
) -> Result<Reply, Refusal> {
    match act {
        Act::Paint(corners) => pinned.paint(desk, rect(rt, corners), true),
        Act::PaintAll => pinned.paint(desk, rect(rt, WHOLE), true),
        Act::Stamp(x, y) => {
            let bitmap = bar.take().expect(rt, "a bitmap");
            kept_back(pinned.stamp(desk, x, y, bitmap), bar)
        }
        Act::Publish => pinned.publish(desk),
        Act::Revert => pinned.revert(desk),
        Act::Collect => pinned.collect(desk),
        Act::Checkpoint => pinned.checkpoint(desk),
    }
}

impl<Id: StoreName> Seat<Id> {
    /// Takes a seat, and pins if a pin is wanted.
    pub fn take<R: Abort + Print>(
        rt: &R,
        alloc: Global,
        session: Session<Id>,
        is_held: bool,
    ) -> Self {
        if is_held {
            Seat::Held(pin(rt, alloc, session))
        } else {
            Seat::Free(session)
        }
    }

    /// Returns the session, unpinned.
    pub fn leave(self, rt: &impl Print) -> Session<Id> {
        match self {
            Seat::Free(session) => session,
            Seat::Held(pinned) => unpin(rt, pinned),
        }
    }

    /// What its calls belong to.
    fn owner(&self) -> &'static str {
        match self {
            Seat::Free(_) => "Session",
            Seat::Held(_) => "Pinned",
        }
    }

    /// Runs a command.
    fn make(
        &mut self,
        rt: &impl Abort,
        desk: &mut Desk<Id>,
        act: Act,
        bar: &mut Option<Bitmap>,
    ) -> Result<Reply, Refusal> {
        match self {
            Seat::Free(session) => by_session(rt, desk, session, act, bar),
            Seat::Held(pinned) => by_pin(rt, desk, pinned, act, bar),
        }
    }

    /// What is seen of the desk and of this seat.
    fn look(&self, desk: &Desk<Id>) -> Seen {
        let entries = desk.log();
        let last = match entries.last() {
            Some(last) => Some(last.entry.reply),
            None => None,
        };
        let made = match self {
            Seat::Free(session) => session.made(),
            Seat::Held(pinned) => pinned.made(),
        };
        (desk.base_place(), entries.len(), last, made)
    }

    /// Checks that this many blocks are free, by a paint that is refused for needing more, and that
    /// a stamp was returned.
    fn look_behind(
        &mut self,
        rt: &impl Abort,
        desk: &mut Desk<Id>,
        blocks: [u32; 2],
        bar: &Option<Bitmap>,
    ) {
        let [needed, free] = blocks;
        let full = self.make(rt, desk, Act::PaintAll, &mut None);
        same(
            rt,
            full,
            Err(Refusal::BlocksFull { needed, free }),
            "blocks",
        );
        if let Some(bar) = bar {
            same(rt, (bar.width(), bar.height()), (3, 1), "the stamp's size");
            holds(rt, 0 < bar.height(), "the stamp's row");
            let cells = bar.row_words(0);
            same(rt, cells, [0b101].as_slice(), "the stamp's cells");
        }
    }

    /// Runs a row's command. If it finds no memory, checks that all is as before, and retries it.
    fn act<R: Wait + Abort + Print>(
        &mut self,
        rt: &R,
        alloc: Global,
        store: &Store<Id>,
        row: Row,
    ) -> Told {
        let (act, _, blocks) = row;
        let mut bitmap = match act {
            Act::Stamp(..) => Some(bar(rt, alloc)),
            _ => None,
        };
        let before = self.look(&store.lock(rt));
        let call = (self.owner(), act.name());
        begin(rt, call);
        let first = self.make(rt, &mut store.lock(rt), act, &mut bitmap);
        let is_wanting = first == Err(Refusal::Memory);
        end(rt, call, is_wanting);
        if !is_wanting {
            return answered(first);
        }
        same(rt, self.look(&store.lock(rt)), before, act.name());
        self.look_behind(rt, &mut store.lock(rt), blocks, &bitmap);
        answered(self.make(rt, &mut store.lock(rt), act, &mut bitmap))
    }

    /// Runs commands in order, and compares their answers.
    pub fn play<R: Wait + Abort + Print>(
        &mut self,
        rt: &R,
        alloc: Global,
        store: &Store<Id>,
        rows: &[Row],
    ) {
        for (number, row) in rows.iter().enumerate() {
            same(rt, self.act(rt, alloc, store, *row), row.1, number);
        }
    }
}
