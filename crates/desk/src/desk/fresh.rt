//! A desk before its store has a name.

ghost use Rattle.std.specs.Prelude.{◌≡◌, [], None, IfOk};
ghost use Rattle.bits.specs.Tiles.{tile_count};
ghost use Rattle.events.specs.Setting.{bad_field};

use crate::desk::Desk;
use crate::holding::Holding;
use bits::Bitmap;
use events::{Seen, Setting};
use metric::NoMemory;
use shelf::{FreshKeeper, StoreEntry, StoreName};
use std::alloc::Global;
use std::marker::Model;

/// A desk of a store that has no name yet. Contracts see it as the store.
///
/// It can't be dropped: name or discard it.
pub struct FreshDesk {
    keeper: FreshKeeper,
    holding: Holding,
    log: Vec<StoreEntry>,
    announced: Vec<Option<Seen>>,
}

impl Model for FreshDesk {
    ghost use Rattle.std.specs.Prelude.{◌≡◌, [], length};
    ghost use Rattle.shelf.specs.Store.{StoreId, readers_of};
    ghost use Rattle.desk.specs.Holdings.{IsToldByLog};

    ghost Value = { StoreId };

    ghost view = { λ d. d.keeper };

    ghost invariant = { λ d. IsToldByLog d.keeper.base [] d.holding × (d.log.items ≡ [])
        × (length d.announced.items ≡ readers_of d.keeper) };
}

impl FreshDesk {
    /// A desk with an empty log for this bitmap. Allocates everything but the log. Fails only when
    /// out of memory.
    ///
    /// Requires the setting to be within its limits for the map, and the keeper's store to have
    /// been opened with both.
    pub fn of(
        alloc: Global,
        setting: Setting,
        map: &Bitmap,
        keeper: FreshKeeper,
    ) -> Result<FreshDesk, NoMemory>
        requires fits { bad_field (tile_count map.now) setting ≡ None }
        requires base { keeper.base ≡ record { setting = setting; opening = map.now } }
        ensures { IfOk result (λ desk. desk ≡ keeper) }
    {
        let announced = vec![in alloc; None; setting.sessions as usize]?;
        Ok(FreshDesk {
            keeper,
            holding: Holding::of(alloc, setting, map)?,
            log: Vec::new(alloc),
            announced,
        })
    }

    /// Drops a desk whose store was never opened.
    pub fn discard(self) {
        let FreshDesk {
            keeper: _,
            holding,
            log: _,
            announced: _,
        } = self;
        holding.end();
    }

    /// The desk of the store with this name. Requires the name to be its store's.
    pub fn named<Id: StoreName>(self) -> Desk<Id>
        requires { self ≡ Id.store }
        ensures { result.log ≡ [] }
    {
        let FreshDesk {
            keeper,
            holding,
            log,
            announced,
        } = self;
        Desk {
            keeper: keeper.named::<Id>(),
            holding,
            log,
            announced,
        }
    }
}
