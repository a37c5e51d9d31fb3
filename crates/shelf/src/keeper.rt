//! The keeper's seat, and its steps.

ghost use Rattle.std.specs.Prelude.{◌≡◌, ◌+◌, ◌*◌, ◌≤◌, None, Some};
ghost use Rattle.events.specs.Legal.{IsLegal, refused};
ghost use Rattle.events.specs.Story.{newest};
ghost use Rattle.events.specs.Views.{story};
ghost use Rattle.events.specs.Words.{IsPlan};
ghost use Rattle.shelf.specs.Seats.{is_publish};
ghost use Rattle.shelf.specs.Roles.{Task, entries};
ghost use Rattle.shelf.specs.Steps.{with_command, wrote, scanned, IsNextWrite, IsNextScan};
ghost use Rattle.shelf.specs.Steps.{MayCommit, committed, newest_slot};

use crate::name::StoreName;
use crate::plays::{Commit, Order, Scan, Write};
use crate::request::Request;
use crate::word_table::{TableSeat, Words};
use events::{Command, Now, Plan};
use std::alloc::Global;
use std::marker::{Model, PhantomData};
use std::sync::Arc;

/// The seat of a store's keeper, the only one that stores NOW, blocks and directories. Contracts
/// see the log, the current command with its steps done, and which readers there are.
///
/// It can't be dropped: close it.
pub struct KeeperSeat<Id: StoreName> {
    pub(crate) seat: TableSeat,
    pub(crate) words: Arc<Words, Global>,
    pub(crate) plan: Plan,
    pub(crate) now: Now,
    // Whether the current command is a publish, and whether the reader of the last commit hasn't
    // met the keeper since.
    pub(crate) publishes: bool,
    pub(crate) unmet: bool,
    pub(crate) of: PhantomData<Id>,
}

impl<Id: StoreName> Model for KeeperSeat<Id> {
    ghost use Rattle.std.specs.Arc.{arc_value};
    ghost use Rattle.shelf.specs.Roles.{KeeperView, keeper_in};
    ghost use Rattle.shelf.specs.Seats.{IsKeeperSeat};

    ghost Value = { KeeperView };

    ghost view = { λ s. keeper_in s.seat.me.0 };

    ghost invariant = { λ s. IsKeeperSeat Id.store (arc_value s.words).shared.table_id
        (arc_value s.words).shared.key s.seat.table_id s.plan s.seat.me s.now.place
        s.now.version s.now.slot s.publishes s.unmet };
}

impl<Id: StoreName> KeeperSeat<Id> {
    /// The sizes of the store.
    pub fn plan(&self) -> Plan
        ensures { IsPlan Id.store.base result }
    {
        self.plan
    }

    /// Takes a command, with its caller: exchanges NOW for its own value. That this stores what is
    /// already there is the rule's (`Order` of `seats_do_events`); the clause says what the keeper
    /// knows then. Requires that there is no current command, and that the command is accepted
    /// after the log.
    pub fn order(&mut self, asked: &Request)
        requires none { self.old.task ≡ None }
        requires accepted { refused Id.store.base.setting
            (story Id.store.base (entries self.old.log)) asked.now.command ≡ None }
        ensures { self.new ≡ with_command self.old asked.now.by asked.now.command }
    {
        let now = self.now.word();
        self.words
            .shared
            .compare_exchange_with::<Order>(&mut self.seat, 0, now, now, asked);
        self.publishes = is_publish(&asked.command);
    }

    /// Stores the next word of the current publish: a row of one of the draft's own blocks, by
    /// position and then by row, or after these a block of the next version's directory, by
    /// position. Requires that it is the next one, at its index.
    pub fn write_word(&mut self, place: usize, word: u64)
        requires { IsNextWrite Id.store.base self.old place word }
        ensures { (t : Task) → self.old.task ≡ Some t → self.new ≡ wrote self.old t }
    {
        self.words
            .shared
            .store::<Write>(&mut self.seat, place, word);
    }

    /// Loads the next reader's word for the current collect: nothing, a version and those after it,
    /// or one version exactly.
    ///
    /// Requires that it is the next reader, from 0 on.
    pub fn scan(&mut self, reader: u32) -> u64
        requires { IsNextScan Id.store.base self.old reader }
        ensures scanned { (t : Task) → self.old.task ≡ Some t
            → self.new ≡ scanned self.old t result }
        ensures there { result ≤ 2 * newest (story Id.store.base (entries self.old.log)) + 2 }
    {
        let place = Plan::pin_at(reader);
        self.words.shared.load::<Scan<Id>>(&mut self.seat, place)
    }

    /// Stores NOW. The log then has one more entry: the current command with its reply; that of a
    /// collect has the versions that its scan keeps.
    ///
    /// Requires that there is a current command, that all its steps but this are done, that its
    /// caller is one of the store's readers, and that the reader of the last commit has met the
    /// keeper. The slot is that of the version that is newest then.
    pub fn commit(&mut self, slot: u32)
        requires may { MayCommit Id.store.base self.old }
        requires slot { (t : Task) → self.old.task ≡ Some t
            → slot ≡ newest_slot Id.store.base (committed Id.store.base self.old t).log }
        ensures committed { (t : Task) → self.old.task ≡ Some t
            → self.new ≡ committed Id.store.base self.old t }
        ensures legal { IsLegal Id.store.base.setting Id.store.base.opening (entries self.new.log) }
    {
        self.now.place += 1;
        self.now.version += u32::from(self.publishes);
        self.now.slot = slot;
        self.unmet = true;
        let now = self.now.word();
        self.words
            .shared
            .store::<Commit<Id>>(&mut self.seat, 0, now);
    }
}

/// Whether a command is a publish.
fn is_publish(command: &Command) -> bool
    ensures { result ≡ is_publish command.now }
{
    matches!(command, Command::Publish)
}
