//! Buffers for a row of a table.

ghost use Rattle.std.specs.Prelude.{IfOk};

use metric::{Near, NoMemory};
use std::alloc::Global;

/// Buffers for the cells of a row, of which the one that a table fills has cells.
#[derive(Drop)]
pub struct RowCells {
    /// The nearest obstacles of a row's cells; no cells if only distances are written.
    pub nears: Vec<Option<Near>>,
    /// The distances of a row's cells; no cells if obstacles are written too.
    pub distances: Vec<u32>,
}

impl RowCells {
    ghost use Rattle.printing.specs.RowCells.{IsRowRoom};

    /// Buffers for a row of this width. Fails only when out of memory.
    pub fn new(alloc: Global, nearest: bool, width: u16) -> Result<Self, NoMemory>
        ensures { IfOk result (IsRowRoom nearest width) }
    {
        let across = usize::from(width);
        Ok(RowCells {
            nears: vec![in alloc; None; if nearest { across } else { 0 }]?,
            distances: vec![in alloc; 0; if nearest { 0 } else { across }]?,
        })
    }
}
