//! The desk of a store: the value that the writers' lock guards.

mod answers;
mod close;
mod commands;
mod fresh;

use crate::holding::Holding;
pub use answers::{answered, stamp_answered};
use events::Seen;
pub use fresh::FreshDesk;
use shelf::{KeeperSeat, StoreEntry, StoreName};
use std::marker::Model;

/// The value that the writers' lock of a store guards.
///
/// Contracts see it as the whole log, of which it keeps the entries after the last checkpoint, and
/// what the last collect's scan saw.
///
/// The type guarantees that the log is legal, that ledger, draft, kept versions and blocks follow
/// from the log, and that the keeper's seat is at the log's end.
///
/// It can't be dropped: close it.
pub struct Desk<Id: StoreName> {
    keeper: KeeperSeat<Id>,
    holding: Holding,
    // The entries it keeps.
    log: Vec<StoreEntry>,
    // What the last collect's scan saw of each reader.
    announced: Vec<Option<Seen>>,
}

impl<Id: StoreName> Model for Desk<Id> {
    ghost use Rattle.desk.specs.Desks.{DeskView, IsDesk};

    ghost Value = { DeskView };

    ghost view = { λ d. record { log = d.keeper.log; scanned = d.announced.items } };

    ghost invariant = { λ d. IsDesk Id.store
        record { log = d.keeper.log; scanned = d.announced.items }
        d.keeper d.holding d.log.items };
}
