//! The arena of tiles: a region of memory in equal blocks, and the list of the free ones.
//!
//! The free blocks hold the list themselves: the first word of a free block is the number of the
//! next.

ghost use Rattle.std.specs.Prelude.{◌≡◌, ◌≤◌, [], ◌∷◌, length, MatchOption, IfOk};
ghost use Rattle.std.specs.List.{range_with_len};
ghost use Rattle.arena.specs.Chain.{Pool, chain, IsArena, IsLeased};

use crate::region::{Lease, Region, Tile};
use core::mem::replace_with;
use metric::NoMemory;
use std::alloc::Global;
use std::marker::Model;

/// Equal blocks of 64 words in one piece of memory. Contracts see where they lie and the list of
/// the free ones, by number.
///
/// It can't be dropped: end it once all blocks are free.
pub struct Arena {
    region: Region,
    /// The front of the free list, if it has one.
    front: u32,
    /// The length of the free list.
    free: u32,
    count: u32,
    alloc: Global,
    lease: Lease<Global>,
}

impl Model for Arena {
    ghost Value = { Pool };

    ghost view = { λ a. record {
      home = a.region.home;
      free = chain a.region.blocks a.front a.free;
    } };

    ghost invariant = { λ a. IsArena a.region.blocks a.front a.free
        × IsLeased a.region.home a.count a.lease.home × (a.lease.alloc ≡ a.alloc) };
}

impl Arena {
    /// An arena of `count` blocks, at most 16,384, all of them free, in the order of their numbers.
    ///
    /// Fails only when out of memory.
    #[tactic(auto, using(crate::proofs::Chains::one_filled))]
    pub fn new(alloc: Global, count: u32) -> Result<Arena, NoMemory>
        requires { count ≤ 16384 }
        ensures count { IfOk result (λ a. a.home.count ≡ count) }
        ensures free { IfOk result (λ a. a.free ≡ range_with_len 0 count) }
    {
        let (mut region, lease) = Region::new(&alloc, count)?;
        'filling: for done in 0..count {
            let mut words = [0u64; 64];
            words[0] = u64::from(done) + 1;
            region = region.fill(done, words);
        }
        Ok(Arena {
            region,
            front: 0,
            free: count,
            count,
            alloc,
            lease,
        })
    }

    /// Frees the memory. Requires that all blocks are free.
    pub fn end(self)
        requires { length self.free ≡ self.home.count }
    {
        let Arena {
            region,
            front: _,
            free: _,
            count,
            alloc,
            lease,
        } = self;
        region.free(lease, &alloc, count);
    }

    /// Takes the front of the free list; `None` if no block is free. Its words have any values. It
    /// allocates no memory.
    pub fn take(&mut self) -> Option<Tile>
        ensures { MatchOption result ((self.old.free ≡ []) × (self.new ≡ self.old))
            (λ t. (t.home ≡ self.old.home) × (self.new.home ≡ self.old.home)
            × (self.old.free ≡ t.number ∷ self.new.free)) }
    {
        if self.free == 0 {
            return None;
        }
        let tile = replace_with(&mut self.region, self.front, Region::cut);
        self.front = tile.words()[0] as u32;
        self.free -= 1;
        Some(tile)
    }

    /// Makes the block the front of the free list. Requires that it came from this arena. It
    /// allocates no memory.
    #[tactic(auto, using(crate::proofs::Chains::giving))]
    pub fn give(&mut self, mut tile: Tile)
        requires { tile.home ≡ self.old.home }
        ensures { (self.new.home ≡ self.old.home) × (self.new.free ≡ tile.number ∷ self.old.free) }
    {
        let number = tile.number();
        tile.words_mut()[0] = u64::from(self.front);
        replace_with(&mut self.region, tile, Region::put);
        self.front = number;
        self.free += 1;
    }

    /// How many blocks are free.
    pub fn free_len(&self) -> u32
        ensures { result ≡ length self.now.free }
    {
        self.free
    }
}
