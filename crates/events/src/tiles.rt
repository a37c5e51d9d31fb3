//! Which tiles of two bitmaps differ, and how many of them need a block.

ghost use Rattle.std.specs.Prelude.{◌≡◌, ◌<◌, ◌&&◌, not, map, length, is_some, IsSome, IfSome};
ghost use Rattle.std.specs.Prelude.{slice_index};
ghost use Rattle.bits.specs.Tiles.{tile_count};
ghost use Rattle.events.specs.Drawing.{tile_differs, differing};
ghost use Rattle.events.specs.Story.{trues, new_ones};
ghost use Rattle.events.specs.Blocks.{own_list};
ghost use Rattle.events.specs.Steps.{own_positions};

use bits::Bitmap;

/// Whether a row of the tile at this position differs between two bitmaps of the same size.
pub fn tile_differs(old: &Bitmap, new: &Bitmap, position: u16) -> bool
    requires old { position < tile_count old.now }
    requires new { position < tile_count new.now }
    ensures { result ≡ tile_differs old.now new.now position }
{
    for row in 0..64 {
        if old.tile_row(position, row) != new.tile_row(position, row) {
            return true;
        }
    }
    false
}

/// Whether the tile at this position differs and has no block of its own.
pub fn needs_block(old: &Bitmap, new: &Bitmap, position: u16, own: Option<u32>) -> bool
    requires old { position < tile_count old.now }
    requires new { position < tile_count new.now }
    ensures { result ≡ (tile_differs old.now new.now position && not (is_some own)) }
{
    own.is_none() && tile_differs(old, new, position)
}

/// The number of tiles without a block of their own that differ between two bitmaps of the same
/// size.
pub fn blocks_needed(old: &Bitmap, new: &Bitmap, own: &[Option<u32>]) -> u32
    requires new { tile_count new.now ≡ tile_count old.now }
    requires own { length own.now ≡ tile_count old.now }
    ensures needed { result ≡ trues (new_ones (differing old.now new.now) (map is_some own.now)) }
{
    let mut needed = 0;
    for position in 0..old.tiles() {
        let block = own[usize::from(position)];
        let is_needed = needs_block(old, new, position, block);
        needed += u32::from(is_needed);
    }
    needed
}

/// The number of tiles with a block of their own.
pub fn count_own(own: &[Option<u32>]) -> usize
    ensures { result ≡ length (own_list own.now) }
{
    let mut count = 0;
    for block in own {
        if block.is_some() {
            count += 1;
        }
    }
    count
}

/// The position and the block of the `number`-th tile with a block of its own, counted from 0 by
/// position.
pub fn nth_own(own: &[Option<u32>], number: usize) -> Option<(usize, u32)>
    ensures position { IfSome result
        (λ tile. tile.0 ≡ slice_index (own_positions 0 own.now) number) }
    ensures block { IfSome result (λ tile. tile.1 ≡ slice_index (own_list own.now) number) }
    ensures found { number < length (own_list own.now) → IsSome result }
{
    let mut left = number;
    for (position, block) in own.iter().enumerate() {
        if let Some(block) = *block {
            if left == 0 {
                return Some((position, block));
            }
            left -= 1;
        }
    }
    None
}
