//! Opens a store: its table, the keeper's seat and the readers' seats, before the store has a name.

ghost use Rattle.std.specs.Prelude.{◌≡◌, [], None, OnOk, IfOk};
ghost use Rattle.std.specs.Arc.{arc_value};
ghost use Rattle.bits.specs.Tiles.{tile_count};
ghost use Rattle.events.specs.Setting.{bad_field};
ghost use Rattle.shelf.specs.Roles.{keeping, resting};
ghost use Rattle.shelf.specs.Seats.{store_at, IsOf};
ghost use Rattle.shelf.specs.Store.{readers_of};
ghost use Rattle.shelf.specs.Open.{newcomers};

use crate::fresh::{FreshKeeper, FreshReader};
use crate::opened::Opening;
use crate::plays::Deal;
use crate::word_table::{Basis, TableSeat, Words};
use bits::Bitmap;
use events::{Plan, Setting, opening_words};
use metric::NoMemory;
use std::alloc::Global;
use std::snapshot::Snapshot;
use std::sync::Arc;

/// Deals all readers, by number.
fn deal_all(
    alloc: Global,
    words: &Arc<Words, Global>,
    keeper: &mut TableSeat,
    plan: Plan,
) -> Result<Vec<FreshReader>, NoMemory>
    requires of { IsOf (store_at keeper.old.table_id (arc_value words.now).shared.key)
        (arc_value words.now).shared.table_id (arc_value words.now).shared.key keeper.old.table_id
        plan }
    requires keeper { keeper.old.me ≡ (keeping (resting 0 []), []) }
    ensures table { keeper.new.table_id ≡ keeper.old.table_id }
    ensures keeper { OnOk result (keeper.new.me
        ≡ (
          keeping
              (resting (readers_of (store_at keeper.old.table_id (arc_value words.now).shared.key))
              []),
          [],
        )) }
    ensures readers { IfOk result
        (λ dealt. dealt.items ≡ newcomers
        (store_at keeper.old.table_id (arc_value words.now).shared.key)
        (readers_of (store_at keeper.old.table_id (arc_value words.now).shared.key))) }
{
    let readers = plan.setting.sessions;
    let mut dealt = Vec::with_capacity(alloc, readers as usize)?;
    for number in 0..readers {
        let own = Arc::try_clone(words)?;
        let seat = words.shared.split_seat::<Deal>(keeper).into_badge();
        dealt.push_reserved(FreshReader {
            seat,
            words: own,
            plan,
            number,
        });
    }
    Ok(dealt)
}

impl Opening {
    /// Makes the table of a store opened with a bitmap, the keeper's seat, and one seat per
    /// session, numbered from 0, that has seen the empty log.
    ///
    /// Fails only when out of memory.
    pub fn of(alloc: Global, setting: Setting, map: &Bitmap) -> Result<Opening, NoMemory>
        requires { bad_field (tile_count map.now) setting ≡ None }
        ensures { IfOk result (λ opening. opening.keeper.base
            ≡ record { setting = setting; opening = map.now }) }
    {
        let plan = Plan::of(setting, map);
        let basis = Basis {
            setting,
            opening: Snapshot::of(map),
        };
        let list = opening_words(alloc, setting, map)?;
        let (table, mut seat) = Words::of_words(alloc, list.as_slice(), &basis)?;
        let words = Arc::new(alloc, table)?;
        let readers = deal_all(alloc, &words, &mut seat, plan)?;
        Ok(Opening {
            keeper: FreshKeeper { seat, words, plan },
            readers,
        })
    }
}
