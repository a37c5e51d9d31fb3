//! A map in the caller's bits, with marks of its tiles or without.

ghost use Rattle.std.specs.Prelude.{◌≡◌, ◌≢◌, IfErr, IfOk, length};
ghost use Rattle.bits.specs.Words.{words_across};
ghost use Rattle.libclearmap.specs.Layouts.{IsShape, cells_of_bits};
ghost use Rattle.libclearmap.specs.Rows.{cells_of};
ghost use Rattle.libclearmap.specs.Statuses.{IsChecked, bits_status, marks_status};

use crate::bit_map::BitMap;
use crate::layout::ClearmapBits;
use crate::status::{DONE, TILES, check_shape};
use crate::tiled_map::TiledMap;
use metric::BAND_ROWS;

/// A map in bits, read in the way that it allows.
#[derive(Drop)]
pub enum BitRows<'a> {
    Plain(BitMap<'a>),
    Tiled(TiledMap<'a>),
}

impl<'a> BitRows<'a> {
    /// Returns the map in these words, or the status of what is wrong with it.
    pub fn of(words: &'a [u64], map: &ClearmapBits) -> Result<Self, u32>
        ensures cells { IfOk result
            (λ rows. cells_of rows ≡ cells_of_bits map.now words.entry.now) }
        ensures shape { IfOk result (λ _. IsShape map.now.width map.now.height
            (words_across map.now.width) map.now.stride (length words.entry.now)) }
        ensures right { IfOk result (λ _. bits_status map.now words.entry.now ≡ DONE) }
        ensures wrong { IfErr result (λ status. status ≡ bits_status map.now words.entry.now) }
        ensures some { IfErr result (λ status. status ≢ DONE) }
    {
        let across = (map.width as usize).div_ceil(64);
        check_shape(map.width, map.height, across, map.stride, words.len())?;
        let plain = BitMap { words, map: *map };
        if map.tiles == 0 {
            return Ok(BitRows::Plain(plain));
        }
        check_marks(map.tiles, map, words.len())?;
        Ok(BitRows::Tiled(TiledMap { plain }))
    }
}

/// Checks marks of tiles from an index on, for a map in this many words.
pub fn check_marks(tiles: usize, map: &ClearmapBits, count: usize) -> Result<(), u32>
    requires { IsShape map.now.width map.now.height (words_across map.now.width) map.now.stride
        count }
    ensures { IsChecked result (marks_status tiles map.now count) }
{
    let across = (map.width as usize).div_ceil(64);
    let rows = (map.height as usize - 1) * map.stride + across;
    let bands = (map.height as usize).div_ceil(usize::from(BAND_ROWS));
    if tiles < rows || count < bands || count - bands < tiles {
        Err(TILES)
    } else {
        Ok(())
    }
}
