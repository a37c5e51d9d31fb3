//! What a desk holds of a map: its ledger, its draft and versions as tiles, and the arena of their
//! blocks.

mod answer;
mod judge;
mod judged;

ghost use Rattle.std.specs.Prelude.{◌≡◌, ◌+◌, [], length, IfOk};
ghost use Rattle.bits.specs.Tiles.{tile_count};
ghost use Rattle.events.specs.Blocks.{own_list};
ghost use Rattle.events.specs.Setting.{bad_field};
ghost use Rattle.grid.specs.Grids.{own_blocks};
ghost use Rattle.desk.specs.Holdings.{IsToldByLog};

use arena::Arena;
use bits::Bitmap;
use events::{Ledger, Setting};
use grid::Grid;
pub use judged::Judged;
use metric::NoMemory;
use std::alloc::Global;

/// What a desk holds of a map. It can't be dropped: end it.
pub struct Holding {
    pub ledger: Ledger,
    pub grid: Grid,
    pub arena: Arena,
}

impl Holding {
    /// What a desk holds of a map that opens with this bitmap: the draft and version 0 are the
    /// bitmap, and the log is empty.
    ///
    /// Allocates everything here. Fails only when out of memory.
    pub fn of(alloc: Global, setting: Setting, map: &Bitmap) -> Result<Holding, NoMemory>
        requires { bad_field (tile_count map.now) setting ≡ None }
        ensures { IfOk result
            (IsToldByLog record { setting = setting; opening = map.now } []) }
    {
        // Asking for a side brings the proof that `map` is a bitmap.
        let _ = map.width();
        let mut arena = Arena::new(alloc, setting.blocks)?;
        match Grid::open(alloc, map, &mut arena) {
            Ok(grid) => Ok(Holding {
                ledger: Ledger::of(setting, map),
                grid,
                arena,
            }),
            Err(refused) => {
                arena.end();
                Err(refused)
            }
        }
    }

    /// Frees all blocks, and ends the arena.
    pub fn end(self)
        requires home { self.grid.home ≡ self.arena.home }
        requires all { length self.arena.free + (length (own_list (own_blocks self.grid))
            + (length self.grid.pieces + length self.grid.retired)) ≡ self.arena.home.count }
    {
        let Holding {
            ledger: _,
            grid,
            mut arena,
        } = self;
        grid.end(&mut arena);
        arena.end();
    }
}
