//! A session in its seat, with or without a pin, and how it does each act.

ghost use Rattle.std.specs.Prelude.{◌≡◌};

use crate::opened::{pin, rect, spotted};
use crate::sessions::acts::{Act, Told, answered};
use clearance::Queried;
use map_core::Command;
use metric::{Cell, Euclid2};
use session::{Pinned, Session, Store};
use shelf::{StoreName, Ticket};
use std::alloc::Global;
use std::process::Abort;
use std::sync::Wait;

/// A session, with or without a pin.
pub enum Seat<Id: StoreName> {
    Free(Session<Id>),
    Held(Pinned<Id>),
}

/// The command that an act makes.
fn command_of(rt: &impl Abort, alloc: Global, act: Act) -> Command {
    match act {
        Act::Paint(corners) => Command::Paint {
            rect: rect(rt, corners),
            black: true,
        },
        Act::Clear(corners) => Command::Paint {
            rect: rect(rt, corners),
            black: false,
        },
        Act::Stamp(x, y) => match spotted(rt, alloc, ([3, 1], 1)) {
            Ok(bitmap) => Command::Stamp { x, y, bitmap },
            Err(_) => panic!(rt; "no memory for a stamp"),
        },
        Act::Publish => Command::Publish,
        Act::Revert => Command::Revert,
        Act::Collect => Command::Collect,
        Act::Checkpoint => Command::Checkpoint,
        _ => panic!(rt; "no command"),
    }
}

/// The nearest obstacle of a cell, by a pin.
fn near<Id: StoreName>(alloc: Global, pinned: &mut Pinned<Id>, [x, y]: [u16; 2]) -> Told {
    let near = pinned.at::<Euclid2>(alloc, Cell { x, y });
    let version = pinned.version();
    match near {
        Ok(Some(near)) => Told::Near(version, near.dist, [near.cell.x, near.cell.y]),
        Ok(None) => Told::Free(version),
        Err(refusal) => Told::Refused(refusal),
    }
}

impl<Id: StoreName> Seat<Id> {
    /// Acts.
    pub fn act<R: Wait + Abort>(
        self,
        rt: &R,
        alloc: Global,
        store: &Store<Id>,
        tray: &mut Option<Ticket<Id>>,
        act: Act,
    ) -> (Self, Told) {
        match (self, act) {
            (Seat::Free(session), Act::Pin) => {
                let pinned = pin(rt, alloc, session);
                let version = pinned.version();
                (Seat::Held(pinned), Told::Version(version))
            }
            (Seat::Held(pinned), Act::Unpin) => (Seat::Free(pinned.unpin()), Told::Nothing),
            (Seat::Held(mut pinned), Act::Near(cell)) => {
                let told = near(alloc, &mut pinned, cell);
                (Seat::Held(pinned), told)
            }
            (Seat::Free(mut session), Act::Learn) => {
                session.learn(tray.take().expect(rt, "a ticket"));
                (Seat::Free(session), Told::Nothing)
            }
            (Seat::Held(mut pinned), Act::Learn) => {
                pinned.learn(tray.take().expect(rt, "a ticket"));
                (Seat::Held(pinned), Told::Nothing)
            }
            (Seat::Free(mut session), _) => {
                let command = command_of(rt, alloc, act);
                let told = answered(session.apply(&mut store.lock(rt), command));
                (Seat::Free(session), told)
            }
            (Seat::Held(mut pinned), _) => {
                let command = command_of(rt, alloc, act);
                let told = answered(pinned.apply(&mut store.lock(rt), command));
                (Seat::Held(pinned), told)
            }
        }
    }
}
