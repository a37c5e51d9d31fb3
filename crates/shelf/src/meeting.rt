//! Meetings of the keeper and a reader.

ghost use Rattle.std.specs.Prelude.{◌≡◌, ◌⊎◌, [], ◌∷◌, None, Some};
ghost use mathlib.Core.List.{IsPrefix};
ghost use Rattle.shelf.specs.Roles.{keeping, reading, meeting, keeper_in, made_by};
ghost use Rattle.shelf.specs.Seats.{base_of, reader_on, AreAt, AreKeeperAndReader};
ghost use Rattle.shelf.specs.Steps.{met, met_by, Meets};

use crate::keeper::KeeperSeat;
use crate::name::StoreName;
use crate::plays::{Apart, Meet, Together};
use crate::reader::ReaderSeat;
use crate::request::Request;
use crate::word_table::{TableSeat, View, Words};
use atomic_table::Badge;
use std::mem::replace;

/// Joins a reader's view to that of the keeper's seat.
pub(crate) fn lay_together(words: &Words, keeper: &mut TableSeat, reader: Badge<View>)
    requires table { AreAt words.now.shared.table_id keeper.old.table_id reader.table_id }
    requires roles { AreKeeperAndReader keeper.old.me reader.views }
    ensures table { keeper.new.table_id ≡ keeper.old.table_id }
    ensures role { keeper.new.me ≡ (
      meeting (keeper_in keeper.old.me.0) (reader_on reader.views),
      [],
    ) }
{
    words
        .shared
        .join_seat::<Together>(keeper, reader.into_seat::<Request>());
}

/// The steps of a meeting: the reader's view joins the keeper's seat, NOW is loaded, and the reader
/// gets its view back.
fn meet_on<Id: StoreName>(words: &Words, keeper: &mut TableSeat, reader: Badge<View>) -> Badge<View>
    requires table { AreAt words.now.shared.table_id keeper.old.table_id reader.table_id }
    requires base { base_of words.now.shared.key ≡ Id.store.base }
    requires roles { AreKeeperAndReader keeper.old.me reader.views }
    requires unmet { let unmet = (keeper_in keeper.old.me.0).unmet in
        (unmet ≡ None) ⊎ (unmet ≡ Some (reader_on reader.views).number) }
    ensures table { (keeper.new.table_id ≡ keeper.old.table_id)
        × (result.table_id ≡ reader.table_id) }
    ensures keeper { keeper.new.me ≡ (keeping (met (keeper_in keeper.old.me.0)), []) }
    ensures reader { result.views ≡ reading
        (met_by Id.store.base (keeper_in keeper.old.me.0) (reader_on reader.views)) ∷ [] }
    ensures meets { Meets Id.store.base (keeper_in keeper.old.me.0) (reader_on reader.views) }
{
    lay_together(words, keeper, reader);
    words.shared.load::<Meet<Id>>(keeper, 0);
    words.shared.split_seat::<Apart>(keeper).into_badge()
}

/// The reader sees the keeper's whole log. After a commit of an entry by this reader it counts that
/// entry.
///
/// Requires that no entry by another reader was committed since that reader met the keeper.
///
/// It loads NOW three times, since two seats know nothing of each other: joining and cutting views
/// proves nothing. As a load, it makes a reader that has announced and holds nothing hold a
/// version.
pub fn meet<Id: StoreName>(keeper: &mut KeeperSeat<Id>, reader: &mut ReaderSeat<Id>)
    requires { (keeper.old.unmet ≡ None) ⊎ (keeper.old.unmet ≡ Some reader.old.number) }
    ensures keeper { keeper.new ≡ met keeper.old }
    ensures reader { reader.new ≡ met_by Id.store.base keeper.old reader.old }
    ensures began { IsPrefix reader.old.seen keeper.old.log }
    ensures counted { made_by reader.new.number keeper.new.log ≡ reader.new.made }
{
    let seat = replace(&mut reader.seat, Badge::blank());
    reader.seat = meet_on::<Id>(&keeper.words, &mut keeper.seat, seat);
    reader.made += u32::from(keeper.unmet);
    reader.version = keeper.now.version;
    keeper.unmet = false;
}
