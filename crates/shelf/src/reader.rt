//! A reader's seat, and its steps.

ghost use Rattle.std.specs.Prelude.{◌≡◌, ◌<◌, ℕ, length, slice_index, true, None, Some, is_some};
ghost use mathlib.Core.List.{IsPrefix};
ghost use Rattle.bits.specs.Tiles.{row_word};
ghost use Rattle.events.specs.Story.{newest, bitmap_of};
ghost use Rattle.events.specs.Blocks.{directory_of};
ghost use Rattle.events.specs.Words.{tiles, slot_of};
ghost use Rattle.events.specs.Legal.{IsLegal};
ghost use Rattle.events.specs.Views.{story, blocks};
ghost use Rattle.shelf.specs.Store.{readers_of};
ghost use Rattle.shelf.specs.Roles.{entries};
ghost use Rattle.events.specs.Steps.{to_confirm};
ghost use Rattle.shelf.specs.Steps.{announcing, confirming, loaded, leaving, newest_slot, HasBlock};

use crate::name::StoreName;
use crate::plays::{Announce, Confirm, Leave, Look, Take};
use crate::request::Request;
use crate::word_table::{View, Words};
use atomic_table::Badge;
use events::{Now, Plan};
use metric::Edge;
use std::alloc::Global;
use std::marker::{Model, PhantomData};
use std::mem::replace;
use std::sync::Arc;

/// A reader's seat. Contracts see its number, what it has seen of the log, how many entries of it
/// are by this reader, and which version it holds, with what it has announced.
///
/// It can't be dropped: closing its store takes it back.
pub struct ReaderSeat<Id: StoreName> {
    pub(crate) seat: Badge<View>,
    pub(crate) words: Arc<Words, Global>,
    pub(crate) plan: Plan,
    pub(crate) number: u32,
    pub(crate) made: u32,
    // The newest version that it has seen.
    pub(crate) version: u32,
    pub(crate) of: PhantomData<Id>,
}

impl<Id: StoreName> Model for ReaderSeat<Id> {
    ghost use Rattle.std.specs.Arc.{arc_value};
    ghost use Rattle.shelf.specs.Roles.{ReaderView};
    ghost use Rattle.shelf.specs.Seats.{IsReaderSeat, reader_on};

    ghost Value = { ReaderView };

    ghost view = { λ s. reader_on s.seat.views };

    ghost invariant = { λ s. IsReaderSeat Id.store (arc_value s.words).shared.table_id
        (arc_value s.words).shared.key s.seat.table_id s.plan s.seat.views s.number s.made
        s.version };
}

impl<Id: StoreName> ReaderSeat<Id> {
    /// The reader's number: below the number of the store's readers.
    pub fn number(&self) -> u32
        ensures number { result ≡ self.now.number }
        ensures below { result < readers_of Id.store }
    {
        self.number
    }

    /// The edge of the store's map.
    pub fn edge(&self) -> Edge
        ensures { result ≡ Id.store.base.setting.edge }
    {
        self.plan.setting.edge
    }

    /// How many commands were accepted with this seat.
    pub fn made(&self) -> u32
        ensures { result ≡ self.now.made }
    {
        self.made
    }

    /// Announces the newest version that this seat has seen, and those after it: stores twice that
    /// version plus 1 in its word. Requires that it has announced nothing.
    pub fn announce(&mut self)
        requires { self.old.announced ≡ None }
        ensures { self.new ≡ announcing Id.store.base self.old }
    {
        let mut seat = replace(&mut self.seat, Badge::blank()).into_seat::<Request>();
        let place = Plan::pin_at(self.number);
        self.words
            .shared
            .store::<Announce<Id>>(&mut seat, place, 2 * u64::from(self.version) + 1);
        self.seat = seat.into_badge();
    }

    /// Announces exactly the version that it holds: stores twice that version plus 2 in its word.
    /// Requires that it holds that version, and hasn't announced it exactly yet.
    pub fn confirm(&mut self, version: u32)
        requires { to_confirm self.old.announced self.old.holds ≡ Some version }
        ensures { self.new ≡ confirming version self.old }
    {
        let mut seat = replace(&mut self.seat, Badge::blank()).into_seat::<Request>();
        let place = Plan::pin_at(self.number);
        self.words
            .shared
            .store::<Confirm>(&mut seat, place, 2 * u64::from(version) + 2);
        self.seat = seat.into_badge();
    }

    /// Withdraws the announcement: stores 0 in its word. It then holds nothing, and has seen what
    /// it had seen. Requires that it has announced.
    pub fn leave(&mut self)
        requires { is_some self.old.announced ≡ true }
        ensures { self.new ≡ leaving self.old }
    {
        let mut seat = replace(&mut self.seat, Badge::blank()).into_seat::<Request>();
        let place = Plan::pin_at(self.number);
        self.words.shared.store::<Leave>(&mut seat, place, 0);
        self.seat = seat.into_badge();
    }

    /// Loads NOW, and returns its fields. The seat has then seen the whole log as it is at the
    /// load, and if it had announced and held nothing, it holds the newest version.
    pub fn take(&mut self) -> Now
        ensures seat { self.new ≡ loaded Id.store.base self.new.seen self.old }
        ensures began { IsPrefix self.old.seen self.new.seen }
        ensures place { result.place ≡ length self.new.seen }
        ensures version { result.version ≡ newest (story Id.store.base (entries self.new.seen)) }
        ensures slot { result.slot ≡ newest_slot Id.store.base self.new.seen }
        ensures slots { result.slot < Id.store.base.setting.versions }
        ensures legal { IsLegal Id.store.base.setting Id.store.base.opening
            (entries self.new.seen) }
    {
        let mut seat = replace(&mut self.seat, Badge::blank()).into_seat::<Request>();
        let word = self.words.shared.load::<Take<Id>>(&mut seat, 0);
        self.seat = seat.into_badge();
        let now = Now::of(word);
        self.version = now.version;
        now
    }

    /// Loads the block of a position in the version that it holds: a number below the setting's
    /// blocks.
    ///
    /// Requires that it holds that version, which has that slot, and that the map has that
    /// position.
    pub fn look_map(&mut self, version: u32, slot: u32, position: u16) -> u32
        requires held { self.old.holds ≡ Some version }
        requires slot { slot ≡ slot_of Id.store.base
            (story Id.store.base (entries self.old.seen)) version }
        requires slots { slot < Id.store.base.setting.versions }
        requires inside { position < tiles Id.store.base }
        ensures seat { self.new ≡ self.old }
        ensures block { result ≡ slice_index
            (directory_of (blocks Id.store.base (entries self.old.seen)) version) position }
        ensures within { result < Id.store.base.setting.blocks }
    {
        let mut seat = replace(&mut self.seat, Badge::blank()).into_seat::<Request>();
        let place = self.plan.map_at(slot, u32::from(position));
        let word = self.words.shared.load::<Look<Id>>(&mut seat, place);
        self.seat = seat.into_badge();
        word as u32
    }

    /// Loads a row of a block: bit j is column j. The row is that of the position at which its held
    /// version has the block, whatever others publish and collect.
    ///
    /// Requires that the store has that block, that its held version has it at a position, and that
    /// the row is one of 64.
    pub fn look_tile(&mut self, block: u32, row: u16) -> u64
        requires block { block < Id.store.base.setting.blocks }
        requires mapped { HasBlock Id.store.base self.old block }
        requires row { row < 64 }
        ensures seat { self.new ≡ self.old }
        ensures word { (v p : ℕ) → self.old.holds ≡ Some v → p < tiles Id.store.base
            → block ≡ slice_index (directory_of (blocks Id.store.base (entries self.old.seen)) v) p
            → result ≡ row_word (bitmap_of (story Id.store.base (entries self.old.seen)) v) p row }
    {
        let mut seat = replace(&mut self.seat, Badge::blank()).into_seat::<Request>();
        let place = self.plan.tile_at(block, u32::from(row));
        let word = self.words.shared.load::<Look<Id>>(&mut seat, place);
        self.seat = seat.into_badge();
        word
    }
}
