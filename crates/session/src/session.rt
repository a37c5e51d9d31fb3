//! Sessions, and how they pin.

ghost use Rattle.std.specs.Prelude.{◌≡◌, Some, None, IfOk, IfErr};
ghost use mathlib.Core.List.{IsPrefix};
ghost use Rattle.events.specs.declared.kept.Seen.TheVariants.{Exact};
ghost use Rattle.events.specs.Legal.{IsLegal};
ghost use Rattle.shelf.specs.Roles.{entries};
ghost use Rattle.session.specs.Sessions.{newest_of_session};

mod commands;

use crate::pinned::Pinned;
use copies::Room;
use metric::NoMemory;
use shelf::{ReaderSeat, StoreName, Ticket};
use std::alloc::Global;
use std::marker::Model;

/// A session of a store: it runs commands, and pins versions. Contracts see it as its number, what
/// it has seen of the log, and how many entries of the log are its own. It has announced nothing
/// and holds nothing.
///
/// It can't be dropped: closing its store takes it back.
pub struct Session<Id: StoreName> {
    pub(crate) seat: ReaderSeat<Id>,
    pub(crate) room: Room,
}

impl<Id: StoreName> Model for Session<Id> {
    ghost use Rattle.shelf.specs.Roles.{ReaderView};
    ghost use Rattle.session.specs.Sessions.{IsSession};

    ghost Value = { ReaderView };

    ghost view = { λ s. s.seat };

    ghost invariant = { λ s. IsSession Id.store s.seat s.room };
}

impl<Id: StoreName> Session<Id> {
    /// Its seat, which has announced nothing.
    pub(crate) fn into_seat(self) -> ReaderSeat<Id>
        ensures seat { result ≡ self }
        ensures free { (result.announced ≡ None) × (result.holds ≡ None) }
    {
        let Session { seat, room: _ } = self;
        seat
    }

    /// How many of its commands were accepted.
    pub fn made(&self) -> u32
        ensures { result ≡ self.now.made }
    {
        self.seat.made()
    }

    /// Pins the newest version. Makes a bitmap, unless an earlier pin has left one; loads the
    /// newest version's number, announces that version and all later ones, loads again, holds the
    /// version loaded, and announces it exactly: from then on it keeps its own version, and no
    /// other. It waits for nobody, whatever others publish and collect meanwhile, and the version
    /// is at least the newest that the session had seen.
    ///
    /// Fails only when out of memory; returns the session, and has announced nothing.
    pub fn pin(self, alloc: Global) -> Result<Pinned<Id>, (Session<Id>, NoMemory)>
        ensures free { (self.announced ≡ None) × (self.holds ≡ None) }
        ensures seat { IfOk result (λ pinned. pinned.seat ≡ record self {
          seen = pinned.seat.seen;
          announced = pinned.seat.announced;
          holds = Some pinned.version;
        }) }
        ensures announced { IfOk result
            (λ pinned. pinned.seat.announced ≡ Some (Exact pinned.version)) }
        ensures began { IfOk result (λ pinned. IsPrefix self.seen pinned.seat.seen) }
        ensures version { IfOk result (λ pinned. pinned.version
            ≡ newest_of_session Id.store pinned.seat) }
        ensures legal { IfOk result
            (λ pinned. IsLegal Id.store.base.setting Id.store.base.opening
            (entries pinned.seat.seen)) }
        ensures back { IfErr result (λ back. back.0 ≡ self) }
    {
        let Session { mut seat, mut room } = self;
        let copy = match room.take(alloc) {
            Ok(copy) => copy,
            Err(refused) => return Err((Session { seat, room }, refused)),
        };
        seat.take();
        seat.announce();
        let now = seat.take();
        seat.confirm(now.version);
        Ok(Pinned {
            seat,
            version: now.version,
            slot: now.slot,
            copy,
        })
    }

    /// Learns a ticket: loads NOW, and has then seen all that it and the ticket had seen. It waits
    /// for nobody.
    pub fn learn(&mut self, ticket: Ticket<Id>)
        ensures seat { self.new ≡ record self.old { seen = self.new.seen } }
        ensures began { IsPrefix self.old.seen self.new.seen }
        ensures learned { IsPrefix ticket self.new.seen }
        ensures legal { IsLegal Id.store.base.setting Id.store.base.opening
            (entries self.new.seen) }
    {
        self.seat.learn(ticket);
    }
}
