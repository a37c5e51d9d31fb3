//! The seats of a store that has no name yet.

ghost use Rattle.std.specs.Prelude.{◌≡◌, []};
ghost use Rattle.shelf.specs.Roles.{resting, reader_at_opening};
ghost use Rattle.events.specs.Tidy.{IsReady};
ghost use Rattle.shelf.specs.Store.{readers_of};

use crate::keeper::KeeperSeat;
use crate::name::StoreName;
use crate::reader::ReaderSeat;
use crate::word_table::{TableSeat, View, Words};
use atomic_table::Badge;
use events::{Now, Plan};
use std::alloc::Global;
use std::marker::{Model, PhantomData};
use std::sync::Arc;

/// The keeper's seat of a store that has no name yet. Contracts see the store.
#[derive(Drop)]
pub struct FreshKeeper {
    pub(crate) seat: TableSeat,
    pub(crate) words: Arc<Words, Global>,
    pub(crate) plan: Plan,
}

impl Model for FreshKeeper {
    ghost use Rattle.std.specs.Arc.{arc_value};
    ghost use Rattle.shelf.specs.Seats.{store_at, IsFreshKeeper};
    ghost use Rattle.shelf.specs.Store.{StoreId};

    ghost Value = { StoreId };

    ghost view = { λ s. store_at s.seat.table_id (arc_value s.words).shared.key };

    ghost invariant = { λ s. IsFreshKeeper (arc_value s.words).shared.table_id
        (arc_value s.words).shared.key s.seat.table_id s.plan s.seat.me };
}

impl FreshKeeper {
    /// The keeper's seat of the store with this name. Requires the name to be its store's.
    pub fn named<Id: StoreName>(self) -> KeeperSeat<Id>
        requires { self ≡ Id.store }
        ensures { result ≡ resting (readers_of Id.store) [] }
    {
        let FreshKeeper { seat, words, plan } = self;
        KeeperSeat {
            seat,
            words,
            plan,
            now: Now {
                place: 0,
                version: 0,
                slot: 0,
            },
            publishes: false,
            unmet: false,
            of: PhantomData,
        }
    }
}

/// A reader's seat of a store that has no name yet. Contracts see the reader's number and the
/// store.
#[derive(Drop)]
pub struct FreshReader {
    pub(crate) seat: Badge<View>,
    pub(crate) words: Arc<Words, Global>,
    pub(crate) plan: Plan,
    pub(crate) number: u32,
}

impl Model for FreshReader {
    ghost use Rattle.std.specs.Arc.{arc_value};
    ghost use Rattle.shelf.specs.Open.{Newcomer, newcomer};
    ghost use Rattle.shelf.specs.Seats.{store_at, IsFreshReader};

    ghost Value = { Newcomer };

    ghost view = { λ s. newcomer s.number
        (store_at s.seat.table_id (arc_value s.words).shared.key) };

    ghost invariant = { λ s. IsFreshReader (arc_value s.words).shared.table_id
        (arc_value s.words).shared.key s.seat.table_id s.plan s.seat.views s.number };
}

impl FreshReader {
    /// The reader's seat of the store with this name, whose setting is within its limits for the
    /// map. Requires the name to be its store's.
    pub fn named<Id: StoreName>(self) -> ReaderSeat<Id>
        requires { self.store ≡ Id.store }
        ensures reader { result ≡ reader_at_opening self.number }
        ensures ready { IsReady Id.store.base }
    {
        let FreshReader {
            seat,
            words,
            plan,
            number,
        } = self;
        ReaderSeat {
            seat,
            words,
            plan,
            number,
            made: 0,
            version: 0,
            of: PhantomData,
        }
    }
}
