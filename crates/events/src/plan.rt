//! The sizes of a store, and the layout of its words.

ghost use Rattle.std.specs.Prelude.{◌≡◌, ◌+◌, ◌*◌};

use crate::setting::Setting;
use bits::Bitmap;

/// The setting of a store, the number of positions of its map, and where its directories and the
/// rows of its blocks start among the words.
#[derive(Clone, Copy)]
pub struct Plan {
    pub setting: Setting,
    pub tiles: u16,
    pub directories: usize,
    pub rows: usize,
    ghost directories_are: { directories ≡ 8 + 8 * setting.sessions },
    ghost rows_are: { rows ≡ directories + setting.versions * tiles },
}

impl Plan {
    ghost use Rattle.bits.specs.Cells.{IsBitmap};
    ghost use Rattle.events.specs.Words.{Base, IsPlan, pin_at, map_at, tile_at, word_count};

    /// The sizes of a store with this map.
    #[tactic(auto, unfolding(crate::specs::Words::pin_at))]
    pub fn of(setting: Setting, map: &Bitmap) -> Plan
        ensures plan { IsPlan record { setting = setting; opening = map.now } result }
        ensures bitmap { IsBitmap map.now }
    {
        let tiles = map.tiles();
        let directories = Plan::pin_at(setting.sessions);
        Plan {
            setting,
            tiles,
            directories,
            rows: directories + setting.versions as usize * usize::from(tiles),
        }
    }

    /// The number of words.
    pub fn words(self) -> usize
        ensures { (k : Base) → IsPlan k self → result ≡ word_count k }
    {
        self.rows + 64 * self.setting.blocks as usize
    }

    /// The index of a reader's word.
    pub fn pin_at(reader: u32) -> usize
        ensures { result ≡ pin_at reader }
    {
        8 + 8 * reader as usize
    }

    /// The index of the word that has the block of a position in a slot.
    #[inline(always)]
    pub fn map_at(self, slot: u32, position: u32) -> usize
        ensures { (k : Base) → IsPlan k self → result ≡ map_at k slot position }
    {
        self.directories + (slot as usize * usize::from(self.tiles) + position as usize)
    }

    /// The index of the word that has a row of a block.
    #[inline(always)]
    pub fn tile_at(self, block: u32, row: u32) -> usize
        ensures { (k : Base) → IsPlan k self → result ≡ tile_at k block row }
    {
        self.rows + (block as usize * 64 + row as usize)
    }
}
