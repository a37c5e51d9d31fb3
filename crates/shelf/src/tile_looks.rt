//! Looks at a tile of the version that a reader holds: a row of it, or all rows.

ghost use Rattle.std.specs.Prelude.{◌≡◌, ◌+◌, ◌<◌, ◌≤◌, slice_index, Some};
ghost use Rattle.bits.specs.Tiles.{row_word};
ghost use Rattle.bits.specs.TileWords.{tile_words};
ghost use Rattle.events.specs.Story.{bitmap_of};
ghost use Rattle.events.specs.Blocks.{directory_of};
ghost use Rattle.events.specs.Words.{tiles, slot_of};
ghost use Rattle.events.specs.Views.{story, blocks};
ghost use Rattle.shelf.specs.Roles.{entries, reading, reader_in};
ghost use Rattle.shelf.specs.Seats.{IsOf};
ghost use Rattle.shelf.specs.TileLooks.{ShowsRow, ShowRows};

use crate::name::StoreName;
use crate::plays::Look;
use crate::reader::ReaderSeat;
use crate::request::Request;
use crate::word_table::{TableSeat, Words};
use atomic_table::Badge;
use events::Plan;
use std::mem::replace;

/// Loads the block of a position in the version that the seat's reader holds.
#[inline(always)]
fn load_block<Id: StoreName>(
    words: &Words,
    seat: &mut TableSeat,
    plan: Plan,
    version: u32,
    slot: u32,
    position: u32,
) -> u32
    requires of { IsOf Id.store words.now.shared.table_id words.now.shared.key
        seat.old.table_id plan }
    requires reader { seat.old.me.0 ≡ reading (reader_in seat.old.me.0) }
    requires held { (reader_in seat.old.me.0).holds ≡ Some version }
    requires slot { slot ≡ slot_of Id.store.base
        (story Id.store.base (entries (reader_in seat.old.me.0).seen)) version }
    requires slots { slot < Id.store.base.setting.versions }
    requires inside { position < tiles Id.store.base }
    ensures seat { (seat.new.table_id ≡ seat.old.table_id) × (seat.new.me ≡ seat.old.me) }
    ensures block { result ≡ slice_index (directory_of
        (blocks Id.store.base (entries (reader_in seat.old.me.0).seen)) version) position }
    ensures within { result < Id.store.base.setting.blocks }
{
    let place = plan.map_at(slot, position);
    let word = words.shared.load::<Look<Id>>(seat, place);
    word as u32
}

/// Loads a row of a block.
#[inline(always)]
fn load_row<Id: StoreName>(
    words: &Words,
    seat: &mut TableSeat,
    plan: Plan,
    block: u32,
    row: u32,
) -> u64
    requires of { IsOf Id.store words.now.shared.table_id words.now.shared.key
        seat.old.table_id plan }
    requires reader { seat.old.me.0 ≡ reading (reader_in seat.old.me.0) }
    requires block { block < Id.store.base.setting.blocks }
    requires row { row < 64 }
    ensures seat { (seat.new.table_id ≡ seat.old.table_id) × (seat.new.me ≡ seat.old.me) }
    ensures word { ShowsRow Id.store.base (reader_in seat.old.me.0) block row result }
{
    let place = plan.tile_at(block, row);
    words.shared.load::<Look<Id>>(seat, place)
}

/// Loads the 16 rows of a block from row `first` on. A loop of so few turns becomes straight code,
/// in which a row takes its load and its store alone.
#[inline(always)]
fn load_some<Id: StoreName>(
    words: &Words,
    seat: &mut TableSeat,
    plan: Plan,
    block: u32,
    first: u32,
    rows: &mut [u64; 64],
)
    requires of { IsOf Id.store words.now.shared.table_id words.now.shared.key
        seat.old.table_id plan }
    requires reader { seat.old.me.0 ≡ reading (reader_in seat.old.me.0) }
    requires block { block < Id.store.base.setting.blocks }
    requires first { first + 16 ≤ 64 }
    requires before { ShowRows Id.store.base (reader_in seat.old.me.0) block first rows.old }
    ensures seat { (seat.new.table_id ≡ seat.old.table_id) × (seat.new.me ≡ seat.old.me) }
    ensures rows { ShowRows Id.store.base (reader_in seat.old.me.0) block (first + 16) rows.new }
{
    'rows: for place in 0..16u32 {
        let row = first + place;
        rows[row as usize] = load_row::<Id>(words, seat, plan, block, row);
    }
}

impl<Id: StoreName> ReaderSeat<Id> {
    /// Loads a row of the tile at a position of the version that it holds: bit j is column j. Does
    /// what `look_map` and `look_tile` do one after the other.
    #[inline(always)]
    pub fn look_row(&mut self, version: u32, slot: u32, position: u32, row: u16) -> u64
        requires held { self.old.holds ≡ Some version }
        requires slot { slot ≡ slot_of Id.store.base
            (story Id.store.base (entries self.old.seen)) version }
        requires slots { slot < Id.store.base.setting.versions }
        requires inside { position < tiles Id.store.base }
        requires row { row < 64 }
        ensures seat { self.new ≡ self.old }
        ensures word { result ≡ row_word
            (bitmap_of (story Id.store.base (entries self.old.seen)) version) position row }
    {
        let mut seat = replace(&mut self.seat, Badge::blank()).into_seat::<Request>();
        let (words, plan): (&Words, Plan) = (&self.words, self.plan);
        let block = load_block::<Id>(words, &mut seat, plan, version, slot, position);
        let word = load_row::<Id>(words, &mut seat, plan, block, u32::from(row));
        self.seat = seat.into_badge();
        word
    }

    /// Loads all rows of the tile at a position of the version that it holds: word i is row i, and
    /// bit j of it is column j. Does what `look_map` and, for each row, `look_tile` do.
    pub fn look_rows(&mut self, version: u32, slot: u32, position: u16, rows: &mut [u64; 64])
        requires held { self.old.holds ≡ Some version }
        requires slot { slot ≡ slot_of Id.store.base
            (story Id.store.base (entries self.old.seen)) version }
        requires slots { slot < Id.store.base.setting.versions }
        requires inside { position < tiles Id.store.base }
        ensures seat { self.new ≡ self.old }
        ensures rows { rows.new ≡ tile_words
            (bitmap_of (story Id.store.base (entries self.old.seen)) version) position }
    {
        let mut seat = replace(&mut self.seat, Badge::blank()).into_seat::<Request>();
        let (words, plan): (&Words, Plan) = (&self.words, self.plan);
        let block = load_block::<Id>(words, &mut seat, plan, version, slot, u32::from(position));
        load_some::<Id>(words, &mut seat, plan, block, 0, rows);
        load_some::<Id>(words, &mut seat, plan, block, 16, rows);
        load_some::<Id>(words, &mut seat, plan, block, 32, rows);
        load_some::<Id>(words, &mut seat, plan, block, 48, rows);
        self.seat = seat.into_badge();
    }
}
