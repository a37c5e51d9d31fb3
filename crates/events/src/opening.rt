//! The words of a world that is opened.

ghost use Rattle.std.specs.Prelude.{◌≡◌, ℕ, ◌+◌, ◌*◌, ◌<◌, ◌≤◌, length, slice_index, None};
ghost use Rattle.std.specs.Prelude.{IfOk};
ghost use Rattle.bits.specs.Tiles.{tile_count, row_word};
ghost use Rattle.events.specs.Runs.{AreOpeningWords};
ghost use Rattle.events.specs.Setting.{bad_field};

use crate::plan::Plan;
use crate::setting::Setting;
use bits::Bitmap;
use metric::NoMemory;
use std::alloc::Global;

/// Sets each position of the directory that starts at `start` to the block of the same number.
fn fill_directory(words: &mut [u64], start: usize, tiles: u16)
    requires { start + tiles ≤ length words.old }
    ensures blocks { (p : ℕ) → p < tiles → slice_index words.new (start + p) ≡ p }
    ensures before { (n : ℕ) → n < start → slice_index words.new n ≡ slice_index words.old n }
{
    for position in 0..tiles {
        words[start + usize::from(position)] = u64::from(position);
    }
}

/// Writes the rows of the tile at a position to the block that starts at `start`.
fn fill_block(words: &mut [u64], start: usize, map: &Bitmap, position: u16)
    requires room { start + 64 ≤ length words.old }
    requires position { position < tile_count map.now }
    ensures rows { (i : ℕ) → i < 64
        → slice_index words.new (start + i) ≡ row_word map.now position i }
    ensures before { (n : ℕ) → n < start → slice_index words.new n ≡ slice_index words.old n }
{
    for row in 0..64u16 {
        words[start + usize::from(row)] = map.tile_row(position, row);
    }
}

/// Writes the rows of the map's tiles, by position, to the blocks that start at `start`.
fn fill_blocks(words: &mut [u64], start: usize, map: &Bitmap)
    requires { start + 64 * tile_count map.now ≤ length words.old }
    ensures rows { (p i : ℕ) → p < tile_count map.now → i < 64
        → slice_index words.new (start + (p * 64 + i)) ≡ row_word map.now p i }
    ensures before { (n : ℕ) → n < start → slice_index words.new n ≡ slice_index words.old n }
{
    for position in 0..map.tiles() {
        fill_block(words, start + 64 * usize::from(position), map, position);
    }
}

/// The words of a world opened with a bitmap: version 0 is the bitmap, the log is empty, and no
/// reader has announced.
///
/// Fails only when out of memory. Requires the setting to be within its limits for the map.
pub fn opening_words(alloc: Global, setting: Setting, map: &Bitmap) -> Result<Vec<u64>, NoMemory>
    requires { bad_field (tile_count map.now) setting ≡ None }
    ensures { IfOk result
        (λ words. AreOpeningWords record { setting = setting; opening = map.now } words.items) }
{
    let plan = Plan::of(setting, map);
    let mut list = vec![in alloc; 0u64; plan.words()]?;
    let words = list.as_mut_slice();
    fill_directory(words, plan.directories, plan.tiles);
    fill_blocks(words, plan.rows, map);
    Ok(list)
}
