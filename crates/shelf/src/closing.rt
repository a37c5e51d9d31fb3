//! Closes a store, reader by reader.

ghost use Rattle.std.specs.Prelude.{◌≡◌, ◌+◌, [], length, None};
ghost use mathlib.Core.List.{IsPrefix};
ghost use Rattle.events.specs.Legal.{IsLegal};
ghost use Rattle.shelf.specs.Roles.{keeping, resting, keeper_in, entries, made_by};
ghost use Rattle.shelf.specs.Seats.{base_of, reader_on, AreAt, AreKeeperAndReader};
ghost use Rattle.shelf.specs.Store.{readers_of};
ghost use Rattle.shelf.specs.Steps.{without, Meets};

use crate::keeper::KeeperSeat;
use crate::meeting::lay_together;
use crate::name::StoreName;
use crate::plays::{Finish, GiveUp};
use crate::reader::ReaderSeat;
use crate::word_table::{TableSeat, View, Words};
use atomic_table::Badge;
use events::Plan;
use std::alloc::Global;
use std::marker::{Model, PhantomData};
use std::sync::Arc;

/// The keeper's seat of a store that is closed. Contracts see the log, how many readers were given
/// up, and how many entries these made.
///
/// It can't be dropped: end it.
pub struct Closing<Id: StoreName> {
    seat: TableSeat,
    words: Arc<Words, Global>,
    plan: Plan,
    of: PhantomData<Id>,
}

impl<Id: StoreName> Model for Closing<Id> {
    ghost use Rattle.std.specs.Arc.{arc_value};
    ghost use Rattle.shelf.specs.Close.{Closed, closed_of};
    ghost use Rattle.shelf.specs.Roles.{keeper_in};
    ghost use Rattle.shelf.specs.Seats.{IsClosingSeat};

    ghost Value = { Closed };

    ghost view = { λ s. closed_of (keeper_in s.seat.me.0) };

    ghost invariant = { λ s. IsClosingSeat Id.store (arc_value s.words).shared.table_id
        (arc_value s.words).shared.key s.seat.table_id s.plan s.seat.me };
}

/// The steps of giving up a reader: its view is joined to that of the keeper's seat, and NOW is
/// loaded.
fn give_up_on<Id: StoreName>(words: &Words, keeper: &mut TableSeat, reader: Badge<View>)
    requires table { AreAt words.now.shared.table_id keeper.old.table_id reader.table_id }
    requires base { base_of words.now.shared.key ≡ Id.store.base }
    requires roles { AreKeeperAndReader keeper.old.me reader.views }
    requires quiet { (reader_on reader.views).announced ≡ None }
    ensures table { keeper.new.table_id ≡ keeper.old.table_id }
    ensures keeper { keeper.new.me
        ≡ (keeping (without (keeper_in keeper.old.me.0) (reader_on reader.views)), []) }
    ensures meets { Meets Id.store.base (keeper_in keeper.old.me.0) (reader_on reader.views) }
{
    lay_together(words, keeper, reader);
    words.shared.load::<GiveUp<Id>>(keeper, 0);
}

impl<Id: StoreName> KeeperSeat<Id> {
    /// Closes the store. Requires that its keeper is idle.
    pub fn close(self) -> Closing<Id>
        requires { self ≡ resting (readers_of Id.store) self.log }
        ensures { result ≡ record { log = self.log; readers = 0; made = 0 } }
    {
        let KeeperSeat {
            seat,
            words,
            plan,
            now: _,
            publishes: _,
            unmet: _,
            of: _,
        } = self;
        Closing {
            seat,
            words,
            plan,
            of: PhantomData,
        }
    }
}

impl<Id: StoreName> Closing<Id> {
    /// Takes a reader's seat back. What it has seen is a prefix of the log, and the log has as many
    /// entries by it as it counts.
    ///
    /// Requires that it has announced nothing.
    pub fn give_up(&mut self, reader: ReaderSeat<Id>)
        requires { reader.announced ≡ None }
        ensures counts { self.new ≡ record self.old {
          readers = self.old.readers + 1;
          made = self.old.made + reader.made;
        } }
        ensures began { IsPrefix reader.seen self.old.log }
        ensures own { made_by reader.number self.old.log ≡ reader.made }
    {
        let ReaderSeat {
            seat,
            words: _,
            plan: _,
            number: _,
            made: _,
            version: _,
            of: _,
        } = reader;
        give_up_on::<Id>(&self.words, &mut self.seat, seat);
    }

    /// Ends the keeper's seat. The log is legal; if all readers were given up, their counts add up
    /// to its length.
    pub fn end(self)
        ensures legal { IsLegal Id.store.base.setting Id.store.base.opening (entries self.log) }
        ensures made { self.readers ≡ readers_of Id.store → self.made ≡ length self.log }
    {
        let Closing {
            mut seat,
            words,
            plan: _,
            of: _,
        } = self;
        words.shared.load::<Finish<Id>>(&mut seat, 0);
    }
}
