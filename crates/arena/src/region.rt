//! The raw memory: a region of blocks, and one block taken out of it. Nothing else touches it.
//!
//! A region knows nothing of a free list: it owns the blocks that are in, and a tile owns the one
//! that is out.

ghost use Rattle.std.specs.Prelude.{◌≡◌, ℕ, ◌<◌, List, length, slice_index_or, slice_set};
ghost use Rattle.std.specs.Prelude.{replicate, IfOk, ◌≤◌};
ghost use Rattle.std.specs.Borrow.{full_share, lent_at, sem};
ghost use Rattle.std.specs.List.{All};
ghost use Rattle.std.specs.Ptr.{lies_at};
ghost use denote.RawPtr.{block_ptr};
ghost use Rattle.arena.specs.Blocks.{Content, out, bare, held, IsHeld, Home, IsHome, IsBlock};
ghost use Rattle.arena.specs.Ownership.{block_row, blocks_from, region_ty};

use std::alloc::{AllocError, Allocator};
use std::marker::{Model, PhantomData};

/// The words of a block.
pub type Block = [u64; 64];

/// A block that is out of its arena. It can't be dropped: give it back. Contracts see its number,
/// its arena's home and its words.
pub struct Tile {
    at: *mut Block,
    number: u32,
    pub ghost home: { Home },
    pub ghost words: { List ℕ },
    ghost placed: { IsBlock home at number },
}

impl Model for Tile {
    ghost also_owns = { λ t. lies_at block_row full_share t.at t.words };

    ghost also_shares = { λ t _ κ. lent_at block_row t.at t.words κ };
}

unsafe impl Send for Tile {}

impl Tile {
    ghost use Rattle.arena.specs.Lending.{LendsWords};

    /// The number of the block.
    pub fn number(&self) -> u32
        ensures { result ≡ self.now.number }
    {
        self.number
    }

    /// The words of the block.
    pub fn words(&self) -> &Block
        ensures { result.now ≡ self.now.words }
    {
        unsafe { &*self.at }
    }

    /// The words of the block, mutable.
    pub fn words_mut(&mut self) -> &mut Block
        ensures* writes_back { sem 𝓛 (LendsWords self.entry result) }
        ensures value { (result.now ≡ self.old.words) × (length result.now ≡ 64) }
    {
        unsafe { &mut *self.at }
    }
}

/// The right to return the region to its allocator.
pub struct Lease<A: Allocator> {
    marker: PhantomData<A>,
    ghost alloc: { A },
    ghost home: { Home },
}

impl<A: Allocator> Model for Lease<A> {
    ghost also_owns = { λ l. A.dealloc_token l.alloc (region_ty l.home)
        (block_ptr l.home.block l.home.start) };
}

/// The blocks that are in, each with its words.
pub struct Region {
    base: *mut Block,
    pub ghost home: { Home },
    pub ghost blocks: { List Content },
    ghost placed: { (base ≡ block_ptr home.block home.start) × IsHome home },
    ghost counted: { length blocks ≡ home.count },
}

impl Model for Region {
    ghost also_owns = { λ r. blocks_from r.home.block r.home.start r.blocks };
}

unsafe impl Send for Region {}

unsafe impl<A: Allocator + Send> Send for Lease<A> {}

impl Region {
    /// Takes a block out.
    pub fn cut(self, number: u32) -> (Region, Tile)
        requires inside { (ws : List ℕ) × (slice_index_or self.blocks number out ≡ held ws) }
        ensures region { (result.0.home ≡ self.home)
            × (result.0.blocks ≡ slice_set self.blocks number out) }
        ensures tile { (result.1.home ≡ self.home) × (result.1.number ≡ number) }
        ensures words { slice_index_or self.blocks number out ≡ held result.1.words }
    {
        let Region { base } = self;
        let at = unsafe { base.add(number as usize) };
        (Region { base }, Tile { at, number })
    }

    /// Puts a block back, with its words.
    pub fn join(self, tile: Tile) -> Region
        requires { tile.home ≡ self.home }
        ensures region { (result.home ≡ self.home)
            × (result.blocks ≡ slice_set self.blocks tile.number (held tile.words)) }
        ensures was_out { slice_index_or self.blocks tile.number out ≡ out }
    {
        let Tile { at: _, number: _ } = tile;
        let Region { base } = self;
        Region { base }
    }

    /// Puts a block back, for a call that replaces the region and returns nothing else.
    pub fn put(self, tile: Tile) -> (Region, ())
        requires { tile.home ≡ self.home }
        ensures region { (result.0.home ≡ self.home)
            × (result.0.blocks ≡ slice_set self.blocks tile.number (held tile.words)) }
        ensures was_out { slice_index_or self.blocks tile.number out ≡ out }
    {
        (self.join(tile), ())
    }

    /// Writes the words of a block that has none yet.
    pub fn fill(self, number: u32, words: Block) -> Region
        requires { slice_index_or self.blocks number out ≡ bare }
        ensures region { (result.home ≡ self.home)
            × (result.blocks ≡ slice_set self.blocks number (held words)) }
    {
        let Region { base } = self;
        unsafe {
            base.add(number as usize).write(words);
        }
        Region { base }
    }

    /// A region of this many blocks without words yet, if its one request isn't refused.
    pub fn new<A: Allocator>(alloc: &A, count: u32) -> Result<(Region, Lease<A>), AllocError>
        requires { count ≤ 16384 }
        ensures { IfOk result (λ m. (m.0.blocks ≡ replicate count bare) × (m.0.home.count ≡ count)
            × (m.1.alloc ≡ alloc.now)
            × (m.1.home ≡ m.0.home)) }
    {
        match alloc.allocate(count as usize * 512, 8) {
            Ok(ptr) => {
                let base = ptr as *mut Block;
                let marker = PhantomData;
                Ok((Region { base }, Lease { marker }))
            }
            Err(refused) => Err(refused),
        }
    }

    /// Frees the memory of a region whose blocks are all in.
    pub fn free<A: Allocator>(self, lease: Lease<A>, alloc: &A, count: u32)
        requires same { (lease.alloc ≡ alloc.now) × (lease.home ≡ self.home)
            × (count ≡ self.home.count) }
        requires all { All IsHeld self.blocks }
    {
        let Region { base } = self;
        let Lease { marker: _ } = lease;
        unsafe { alloc.deallocate(base as *mut u8, count as usize * 512, 8) }
    }
}
