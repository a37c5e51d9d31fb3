//! A pin: a session that holds a version, and queries it.

ghost use Rattle.std.specs.Prelude.{◌≡◌, ◌≤◌, Some, None, IfSome};
ghost use mathlib.Core.List.{IsPrefix};
ghost use Rattle.events.specs.declared.kept.Seen.TheVariants.{Exact};
ghost use Rattle.events.specs.Legal.{IsLegal};
ghost use Rattle.shelf.specs.Roles.{entries};
ghost use Rattle.shelf.specs.Steps.{leaving};
ghost use Rattle.std.specs.Borrow.{sem};
ghost use Rattle.session.specs.Sessions.{bitmap_pinned, newest_of_session};

mod commands;
mod queries;
mod rows;

use crate::session::Session;
use bits::Bitmap;
use copies::{Room, VersionCopy};
use metric::Edge;
use shelf::{ReaderSeat, StoreName, Ticket};
use std::marker::Model;

/// A session that holds a version, whatever others publish and collect. Contracts see it as the
/// session's seat and the version, which is the only one it has announced.
///
/// It can't be dropped: unpin it.
pub struct Pinned<Id: StoreName> {
    pub(crate) seat: ReaderSeat<Id>,
    pub(crate) version: u32,
    pub(crate) slot: u32,
    pub(crate) copy: Box<VersionCopy>,
}

impl<Id: StoreName> Model for Pinned<Id> {
    ghost use Rattle.session.specs.Sessions.{PinView, IsPin};

    ghost Value = { PinView };

    ghost view = { λ p. record { seat = p.seat; version = p.version } };

    ghost invariant = { λ p. IsPin Id.store record { seat = p.seat; version = p.version } p.slot
        p.copy.value.bitmap p.copy.value.unread };
}

impl<Id: StoreName> Pinned<Id> {
    ghost use Rattle.session.specs.Lending.{KeepsPin};

    /// The version that it holds.
    pub fn version(&self) -> u32
        ensures version { result ≡ self.now.version }
        ensures published { result ≤ newest_of_session Id.store self.now.seat }
        ensures holds { (self.now.seat.holds ≡ Some result)
            × (self.now.seat.announced ≡ Some (Exact result)) }
    {
        self.version
    }

    /// The edge of the store's map.
    pub fn edge(&self) -> Edge
        ensures { result ≡ Id.store.base.setting.edge }
    {
        self.seat.edge()
    }

    /// How many commands of its session were accepted.
    pub fn made(&self) -> u32
        ensures { result ≡ self.now.seat.made }
    {
        self.seat.made()
    }

    /// Whether a query searches the whole version's bitmap, for which it first reads the bands not
    /// read yet: half of the bands have been read, or eight words per tile.
    fn asks_bitmap(&self) -> bool {
        self.copy.is_enough()
    }

    /// The bitmap of the version that it holds, if that version has been read as a whole: by
    /// `bitmap`, or by queries after they had read eight words per tile of the map or half of its
    /// bands of 64 rows. `None` before.
    pub fn bitmap_read(&self) -> Option<&Bitmap>
        ensures { IfSome result (λ bitmap. bitmap.now ≡ bitmap_pinned Id.store self.now) }
    {
        self.copy.whole()
    }

    /// The bitmap that was published as the version that it holds. The first call reads it from the
    /// shared words: 65 loads per tile. It waits for nobody.
    pub fn bitmap(&mut self) -> &Bitmap
        ensures bitmap { result.now ≡ bitmap_pinned Id.store self.old }
        ensures* pin { sem 𝓛 (KeepsPin Id.row Id.StoreName self.entry) }
    {
        let (version, slot) = (self.version, self.slot);
        self.copy.read_rest(&mut self.seat, version, slot);
        &self.copy.bitmap
    }

    /// Learns a ticket: loads NOW, and has then seen all that it and the ticket had seen. It keeps
    /// its version, and waits for nobody.
    pub fn learn(&mut self, ticket: Ticket<Id>)
        ensures seat { self.new.seat ≡ record self.old.seat { seen = self.new.seat.seen } }
        ensures version { self.new.version ≡ self.old.version }
        ensures began { IsPrefix self.old.seat.seen self.new.seat.seen }
        ensures bitmap { bitmap_pinned Id.store self.new ≡ bitmap_pinned Id.store self.old }
        ensures learned { IsPrefix ticket self.new.seat.seen }
        ensures legal { IsLegal Id.store.base.setting Id.store.base.opening
            (entries self.new.seat.seen) }
    {
        self.seat.learn(ticket);
    }

    /// Releases the version: withdraws the announcement. The session has seen what the pin had
    /// seen. It waits for nobody.
    pub fn unpin(self) -> Session<Id>
        ensures seat { result ≡ leaving self.seat }
        ensures left { (result.announced ≡ None) × (result.holds ≡ None) }
    {
        let Pinned {
            mut seat,
            version: _,
            slot: _,
            copy,
        } = self;
        seat.leave();
        let room = Room::with(copy);
        Session { seat, room }
    }
}
