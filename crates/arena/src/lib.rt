//! An arena of equal blocks in raw memory, whose free list lies in the free blocks.
#![tactic(auto)]

mod arena;
mod region;

pub use arena::Arena;
pub use region::Tile;
