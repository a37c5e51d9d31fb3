//! The blocks that the newest version no longer maps, and how blocks are taken and freed.

ghost use Rattle.std.specs.Prelude.{◌≡◌, ◌+◌, ◌^◌, ◌<◌, ◌≤◌, ◌++◌, ℕ, slice_index, not, length};
ghost use Rattle.std.specs.Prelude.{map, drop, filter, replicate, is_some, None};
ghost use Rattle.std.specs.Vec.{vec_capacity};
ghost use Rattle.std.specs.VecDeque.{deque_capacity};
ghost use Rattle.bits.specs.Tiles.{tile_count};
ghost use Rattle.events.specs.Drawing.{differing};
ghost use Rattle.events.specs.Kept.{members};
ghost use Rattle.events.specs.Story.{trues, new_ones};
ghost use Rattle.events.specs.Blocks.{own_list, own_after, given_back, blocks_of, is_used};
ghost use Rattle.events.specs.Summary.{came_after, retired_by};

use crate::kept::Kept;
use crate::tiles::needs_block;
use bits::Bitmap;
use std::collections::VecDeque;

/// A block that the newest version no longer maps, though versions `first` to `last` do.
#[derive(Clone, Copy)]
pub struct RetiredBlock {
    pub block: u32,
    pub position: u32,
    pub first: u32,
    pub last: u32,
}

/// Frees each of the draft's own blocks to the front of the free list, by position.
pub fn give_back_own(own: &mut [Option<u32>], free: &mut VecDeque<u32>)
    requires { length free.old.items + length (own_list own.old) ≤ deque_capacity free.old }
    ensures own { own.new ≡ replicate (length own.old) None }
    ensures free { free.new.items ≡ given_back (own_list own.old) free.old.items }
    ensures capacity { deque_capacity free.new ≡ deque_capacity free.old }
{
    for block in own.iter_mut() {
        if let Some(block) = block.take() {
            free.push_front_reserved(block);
        }
    }
}

/// Takes the front of the free list for each tile that differs and has no block of its own, by
/// position.
pub fn take_blocks(old: &Bitmap, new: &Bitmap, own: &mut [Option<u32>], free: &mut VecDeque<u32>)
    requires new { tile_count new.now ≡ tile_count old.now }
    requires own { length own.old ≡ tile_count old.now }
    ensures own { own.new ≡ own_after (differing old.now new.now) own.old free.old.items }
    ensures free { free.new.items ≡ drop
        (trues (new_ones (differing old.now new.now) (map is_some own.old))) free.old.items }
    ensures capacity { deque_capacity free.new ≡ deque_capacity free.old }
{
    for position in 0..old.tiles() {
        let place = usize::from(position);
        if needs_block(old, new, position, own[place]) {
            own[place] = free.pop_front();
        }
    }
}

/// Frees each retired block that no kept version maps to the front of the free list.
pub fn give_back_retired(kept: &Kept, retired: &mut Vec<RetiredBlock>, free: &mut VecDeque<u32>)
    requires { length free.old.items + length retired.old.items ≤ deque_capacity free.old }
    ensures retired { retired.new.items ≡ filter
        (is_used (members kept.now.slots)) retired.old.items }
    ensures free { free.new.items ≡ given_back (blocks_of (filter
        (λ r. not (is_used (members kept.now.slots) r)) retired.old.items)) free.old.items }
    ensures retired_capacity { vec_capacity retired.new ≡ vec_capacity retired.old }
    ensures free_capacity { deque_capacity free.new ≡ deque_capacity free.old }
{
    for block in retired.as_slice() {
        if !kept.spans(block.first, block.last) {
            free.push_front_reserved(block.block);
        }
    }
    retired.retain(|block| kept.spans(block.first, block.last));
}

/// Gives the draft's own blocks to the version after the newest, position by position. Retires each
/// block of the newest directory that one of them replaces.
pub fn publish_own(
    newest: u32,
    directory: &[u64],
    own: &mut [Option<u32>],
    came: &mut [u32],
    retired: &mut Vec<RetiredBlock>,
)
    requires newest { newest + 1 < 2 ^ 32 }
    requires few { length own.old < 2 ^ 32 }
    requires directory { length directory.now ≡ length own.old }
    requires blocks { (p : ℕ) → p < length own.old → slice_index directory.now p < 2 ^ 32 }
    requires came { length came.old ≡ length own.old }
    requires room { length retired.old.items + length (own_list own.old)
        ≤ vec_capacity retired.old }
    ensures own { own.new ≡ replicate (length own.old) None }
    ensures came { came.new ≡ came_after newest own.old came.old }
    ensures retired { retired.new.items ≡ retired.old.items
        ++ retired_by newest 0 own.old came.old directory.now }
    ensures capacity { vec_capacity retired.new ≡ vec_capacity retired.old }
{
    for position in 0..own.len() {
        if own[position].is_some() {
            own[position] = None;
            retired.push_reserved(RetiredBlock {
                block: directory[position] as u32,
                position: position as u32,
                first: came[position],
                last: newest,
            });
            came[position] = newest + 1;
        }
    }
}
