//! Tickets: what the keeper knew, passed from one reader to another.

ghost use Rattle.std.specs.Prelude.{◌≡◌, ◌<◌, [], ◌∷◌};
ghost use mathlib.Core.List.{IsPrefix};
ghost use Rattle.events.specs.Legal.{IsLegal};
ghost use Rattle.shelf.specs.Roles.{reading, entries, ticket};
ghost use Rattle.shelf.specs.Seats.{base_of, reader_on, ticket_on};
ghost use Rattle.shelf.specs.Steps.{loaded, LearnsIt};

use crate::keeper::KeeperSeat;
use crate::name::StoreName;
use crate::plays::{CutTicket, LayTicket, Learn};
use crate::reader::ReaderSeat;
use crate::request::Request;
use crate::word_table::{View, Words};
use atomic_table::Badge;
use events::Now;
use std::marker::{Model, PhantomData};
use std::mem::replace;

/// A token of the log as it was, which is what contracts see.
///
/// It can't be dropped: a reader learns it, or it is discarded.
pub struct Ticket<Id: StoreName> {
    seat: Badge<View>,
    of: PhantomData<Id>,
}

impl<Id: StoreName> Model for Ticket<Id> {
    ghost use Rattle.std.specs.Prelude.{◌≡◌, List, [], ◌∷◌};
    ghost use Rattle.shelf.specs.declared.store_entry.StoreEntry.{StoreEntry};
    ghost use Rattle.shelf.specs.Roles.{ticket};
    ghost use Rattle.shelf.specs.Seats.{ticket_on};

    ghost Value = { List StoreEntry };

    ghost view = { λ t. ticket_on t.seat.views };

    ghost invariant = { λ t. (t.seat.table_id ≡ Id.store.table)
        × (t.seat.views ≡ ticket (ticket_on t.seat.views) ∷ []) };
}

impl<Id: StoreName> Ticket<Id> {
    /// Drops a ticket that nobody learns.
    pub fn discard(self) {
        let Ticket { seat: _, of: _ } = self;
    }
}

impl<Id: StoreName> KeeperSeat<Id> {
    /// A ticket of the log as it is now. A load of NOW cuts it off.
    pub fn ticket(&mut self) -> Ticket<Id>
        ensures log { result ≡ self.old.log }
        ensures seat { self.new ≡ self.old }
    {
        let seat = self
            .words
            .shared
            .split_seat::<CutTicket>(&mut self.seat)
            .into_badge();
        Ticket {
            seat,
            of: PhantomData,
        }
    }
}

/// Joins the ticket's view to that of the reader's seat, and loads NOW.
fn learn_on<Id: StoreName>(words: &Words, reader: &mut Badge<View>, token: Badge<View>) -> u64
    requires table { (reader.old.table_id ≡ words.now.shared.table_id)
        × (token.table_id ≡ words.now.shared.table_id)
        × (0 < words.now.shared.table_id.words) }
    requires base { base_of words.now.shared.key ≡ Id.store.base }
    requires reader { reader.old.views ≡ reading (reader_on reader.old.views) ∷ [] }
    requires token { token.views ≡ ticket (ticket_on token.views) ∷ [] }
    ensures table { reader.new.table_id ≡ reader.old.table_id }
    ensures learned { LearnsIt Id.store.base (reader_on reader.old.views)
        (ticket_on token.views) result reader.new.views }
{
    let mut seat = replace(reader, Badge::blank()).into_seat::<Request>();
    words
        .shared
        .join_seat::<LayTicket>(&mut seat, token.into_seat::<Request>());
    let word = words.shared.load::<Learn<Id>>(&mut seat, 0);
    *reader = seat.into_badge();
    word
}

impl<Id: StoreName> ReaderSeat<Id> {
    /// Loads NOW. The seat has then seen all that it and the ticket had seen. As a load, it makes a
    /// seat that has announced and holds nothing hold a version; a version held stays.
    pub fn learn(&mut self, ticket: Ticket<Id>)
        ensures seat { self.new ≡ loaded Id.store.base self.new.seen self.old }
        ensures began { IsPrefix self.old.seen self.new.seen }
        ensures learned { IsPrefix ticket self.new.seen }
        ensures legal { IsLegal Id.store.base.setting Id.store.base.opening
            (entries self.new.seen) }
    {
        let Ticket { seat, of: _ } = ticket;
        let word = learn_on::<Id>(&self.words, &mut self.seat, seat);
        let now = Now::of(word);
        self.version = now.version;
    }
}
