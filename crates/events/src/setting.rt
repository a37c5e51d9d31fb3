//! The setting of a world.

ghost use Rattle.std.specs.Prelude.{◌≡◌, ◌*◌, MatchOption, IsOk, Err};
ghost use Rattle.bits.specs.Cells.{IsSide};
ghost use Rattle.bits.specs.Tiles.{tile_count, tiles_down};
ghost use Rattle.bits.specs.Words.{words_across};
ghost use Rattle.metric.specs.declared.refusal.Refusal.TheVariants.{BadSetting};
ghost use Rattle.events.specs.Setting.{bad_field};

use bits::Bitmap;
use metric::{Edge, Field, Refusal};

/// The limits of a world, and the edge of its map.
#[derive(Clone, Copy, Debug, PartialEq, Eq)]
pub struct Setting {
    /// Blocks, each for one tile: from the map's number of tiles to 16,384.
    pub blocks: u32,
    /// Slots, each for one version: 2 to 64.
    pub versions: u32,
    /// Readers: 1 to 64.
    pub sessions: u32,
    /// Entries that the log may have between two checkpoints: 1 to 1,048,576.
    pub log: u32,
    /// The edge of the map for the queries of its pins. No command and no event depends on it.
    pub edge: Edge,
}

impl Setting {
    /// Checks that each field is within its limits for a map of this many tiles.
    #[tactic(auto, unfolding(crate::specs::Setting::bad_field))]
    fn fits_tiles(self, tiles: u16) -> Result<(), Refusal>
        ensures { MatchOption (bad_field tiles self) (IsOk result)
            (λ field. result ≡ Err (BadSetting field)) }
    {
        if self.blocks < u32::from(tiles) || 16_384 < self.blocks {
            Err(Refusal::BadSetting(Field::Blocks))
        } else if self.versions < 2 || 64 < self.versions {
            Err(Refusal::BadSetting(Field::Versions))
        } else if self.sessions < 1 || 64 < self.sessions {
            Err(Refusal::BadSetting(Field::Sessions))
        } else if self.log < 1 || 1_048_576 < self.log {
            Err(Refusal::BadSetting(Field::Log))
        } else {
            Ok(())
        }
    }

    /// Checks that each field is within its limits for this map. Refuses the first that isn't, in
    /// the order of the fields.
    pub fn fits(self, map: &Bitmap) -> Result<(), Refusal>
        ensures { MatchOption (bad_field (tile_count map.now) self) (IsOk result)
            (λ field. result ≡ Err (BadSetting field)) }
    {
        self.fits_tiles(map.tiles())
    }

    /// As `fits`, for a map of this size. It needs no bitmap.
    pub fn fits_size(self, width: u16, height: u16) -> Result<(), Refusal>
        requires width { IsSide width }
        requires height { IsSide height }
        ensures { MatchOption (bad_field (words_across width * tiles_down height) self)
            (IsOk result)
            (λ field. result ≡ Err (BadSetting field)) }
    {
        let across = width.div_ceil(64);
        let down = height.div_ceil(64);
        self.fits_tiles(across * down)
    }
}
