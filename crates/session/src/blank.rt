//! A store before it has a name.

ghost use Rattle.std.specs.Prelude.{◌≡◌, MatchOption, IfOk, IfErr, Err};
ghost use Rattle.bits.specs.Tiles.{tile_count};
ghost use Rattle.metric.specs.declared.refusal.Refusal.TheVariants.{BadSetting, Memory};
ghost use Rattle.events.specs.Setting.{bad_field};
ghost use Rattle.shelf.specs.Open.{all_newcomers};

use bits::Bitmap;
use desk::FreshDesk;
use events::Setting;
use metric::Refusal;
use shelf::{FreshReader, Opening};
use std::alloc::Global;
use std::marker::Model;

/// A store that has no name yet: its words, its seats and its desk. Contracts see it as the store.
///
/// It can't be dropped: open or discard it.
pub struct Blank {
    pub(crate) desk: FreshDesk,
    pub(crate) readers: Vec<FreshReader>,
    pub(crate) map: Bitmap,
}

impl Model for Blank {
    ghost use Rattle.std.specs.Prelude.{◌≡◌};
    ghost use Rattle.shelf.specs.Store.{StoreId};
    ghost use Rattle.shelf.specs.Open.{all_newcomers};

    ghost Value = { StoreId };

    ghost view = { λ b. b.desk };

    ghost invariant = { λ b. (b.readers.items ≡ all_newcomers b.desk)
        × (b.map ≡ b.desk.base.opening) };
}

/// The desk and the readers of a store with this bitmap.
fn parts(
    alloc: Global,
    setting: Setting,
    map: &Bitmap,
) -> Result<(FreshDesk, Vec<FreshReader>), Refusal>
    ensures base { IfOk result (λ parts. parts.0.base
        ≡ record { setting = setting; opening = map.now }) }
    ensures readers { IfOk result (λ parts. parts.1.items ≡ all_newcomers parts.0) }
    ensures refused { MatchOption (bad_field (tile_count map.now) setting)
        (IfErr result (λ refusal. refusal ≡ Memory))
        (λ field. result ≡ Err (BadSetting field)) }
{
    setting.fits(map)?;
    let Opening { keeper, readers } = Opening::of(alloc, setting, map)?;
    let desk = FreshDesk::of(alloc, setting, map, keeper)?;
    Ok((desk, readers))
}

impl Blank {
    /// A store whose version 0 is this bitmap. Its log is empty, and no session has a pin.
    ///
    /// Refuses, in this order, the first field of the setting that isn't within its limits for this
    /// map (`BadSetting`; `Setting` has the limits), and when out of memory; returns the bitmap.
    pub fn of(alloc: Global, setting: Setting, map: Bitmap) -> Result<Blank, (Bitmap, Refusal)>
        ensures base { IfOk result (λ blank. blank.base
            ≡ record { setting = setting; opening = map }) }
        ensures refused { MatchOption (bad_field (tile_count map) setting)
            (IfErr result (λ back. back.1 ≡ Memory))
            (λ field. result ≡ Err (map, BadSetting field)) }
        ensures back { IfErr result (λ back. back.0 ≡ map) }
    {
        match parts(alloc, setting, &map) {
            Ok((desk, readers)) => Ok(Blank { desk, readers, map }),
            Err(refusal) => Err((map, refusal)),
        }
    }

    /// Drops a store that was never opened.
    pub fn discard(self) {
        let Blank {
            desk,
            readers: _,
            map: _,
        } = self;
        desk.discard();
    }
}
