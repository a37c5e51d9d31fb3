//! A store: the lock of its desk, and how it opens and closes.

ghost use Rattle.std.specs.Prelude.{◌≡◌, IfOk, IfErr};
ghost use Rattle.session.specs.Sessions.{IsHandedOut, all_fresh};

use crate::blank::Blank;
use crate::session::Session;
use crate::sessions::{give_up, sessions_of};
use desk::Desk;
use metric::NoMemory;
use shelf::{StoreEntry, StoreName};
use std::alloc::Global;
use std::sync::{Mutex, MutexGuard, Wait};

/// A store of one map. Its sessions are values of their own, which may go to other threads.
///
/// It can't be dropped: close it.
pub struct Store<Id: StoreName> {
    desk: Mutex<Desk<Id>>,
}

impl<Id: StoreName> Store<Id> {
    /// Opens a store, and returns it with its sessions, numbered from 0. Each has seen the empty
    /// log. Requires the name to be that of the blank's store.
    ///
    /// Fails only when out of memory; returns the blank.
    pub fn open(
        alloc: Global,
        blank: Blank,
    ) -> Result<(Store<Id>, Vec<Session<Id>>), (Blank, NoMemory)>
        requires { blank ≡ Id.store }
        ensures sessions { IfOk result (λ opened. opened.1.items ≡ all_fresh Id.store) }
        ensures back { IfErr result (λ back. back.0 ≡ blank) }
    {
        let room = match Vec::with_capacity(alloc, blank.readers.len()) {
            Ok(room) => room,
            Err(refused) => return Err((blank, NoMemory::from(refused))),
        };
        let Blank { desk, readers, map } = blank;
        let (width, height) = (map.width(), map.height());
        let sessions = sessions_of::<Id>(readers, width, height, room);
        let desk = Mutex::new(desk.named::<Id>());
        Ok((Store { desk }, sessions))
    }

    /// The desk, once no other thread has it. It waits, and doesn't promise to return.
    pub fn lock<R: Wait>(&self, rt: &R) -> MutexGuard<'_, Desk<Id>> {
        self.desk.lock(rt)
    }

    /// Closes the store. Returns the place of its log's last checkpoint, 0 where there is none, and
    /// the entries after it. The log extends what each session has seen, and has as many entries by
    /// that session as it counts.
    ///
    /// If this call takes all sessions, their counts add up to the log's length.
    pub fn close(self, sessions: Vec<Session<Id>>) -> (u32, Vec<StoreEntry>)
        ensures { IsHandedOut Id.store sessions.items result.0 result.1.items }
    {
        let Store { desk } = self;
        let (mut closing, base, log) = desk.into_inner().close();
        give_up(&mut closing, sessions);
        closing.end();
        (base, log)
    }
}
