//! The lines of a table's rows, written by workers in parallel.

ghost use Rattle.std.specs.Prelude.{◌≡◌, ◌<◌, ◌≤◌, All, IfOk, take};
ghost use Rattle.std.specs.Prelude.{vec_capacity, vec_len};

use crate::line::{ENTRY_ROOM, SPARE_ROOM};
use crate::printer::Printer;
use crate::row_cells::RowCells;
use metric::{Metric, NoMemory};
use std::alloc::Global;

/// A worker's buffers: a row of the table, and the lines of its rows.
#[derive(Drop)]
pub struct WorkerLines {
    /// Buffers for a row's cells.
    pub row: RowCells,
    /// The lines, and what is left after them of earlier ones. Their capacity is allocated once,
    /// and only as much of it is touched as the lines take, with room for one more.
    pub text: Vec<u8>,
    /// How many bytes of the text are lines.
    pub end: usize,
}

impl WorkerLines {
    ghost use Rattle.printing.specs.Parts.{HasRows, IsShare};

    /// Buffers for the lines of this many rows of this width.
    fn new(alloc: Global, nearest: bool, width: u16, rows: u32) -> Result<Self, NoMemory>
        requires { rows ≤ 4096 }
        ensures { IfOk result (IsShare nearest width rows) }
    {
        let line = ENTRY_ROOM * usize::from(width) + 1;
        Ok(WorkerLines {
            row: RowCells::new(alloc, nearest, width)?,
            text: Vec::with_capacity(alloc, rows as usize * line + SPARE_ROOM)?,
            end: 0,
        })
    }

    /// Writes the lines of as many rows from this one on as the printer's number says, or as there
    /// are, to the front of the text, which has capacity for them.
    pub fn put<M: Metric + Sync>(&mut self, printer: &Printer<M>, from: u32)
        requires part { IsShare printer.now.nearest printer.now.table.width printer.now.rows
            self.old }
        requires from { from < 1000000 }
        requires rows { printer.now.rows ≤ 4096 }
        ensures { HasRows printer.now.nearest printer.now.table printer.now.rows from self.new }
    {
        let height = u32::from(printer.table.height());
        let to = height.min(from + printer.rows) as u16;
        let first = height.min(from) as u16;
        let width = usize::from(printer.table.width());
        let mut end = 0;
        'rows: for y in first..to {
            lengthen(&mut self.text, end + (ENTRY_ROOM * width + 1 + SPARE_ROOM));
            let (table, decimals) = (&printer.table, &printer.decimals);
            end = table.put_line(decimals, y, &mut self.row, self.text.as_mut_slice(), end);
        }
        self.end = end;
    }

    /// The lines written.
    pub fn text(&self) -> &[u8]
        requires { self.now.end ≤ vec_len self.now.text }
        ensures { result.now ≡ take self.now.end self.now.text.items }
    {
        &self.text.as_slice()[..self.end]
    }

    /// Several workers' buffers, each for the lines of this many rows of this width.
    pub fn several(
        alloc: Global,
        nearest: bool,
        width: u16,
        rows: u32,
        count: u8,
    ) -> Result<Vec<Self>, NoMemory>
        requires { rows ≤ 4096 }
        ensures many { IfOk result (λ parts. vec_len parts ≡ count) }
        ensures each { IfOk result (λ parts. All (IsShare nearest width rows) parts.items) }
    {
        let mut parts = Vec::with_capacity(alloc, usize::from(count))?;
        'parts: for _place in 0..count {
            parts.push_reserved(WorkerLines::new(alloc, nearest, width, rows)?);
        }
        Ok(parts)
    }
}

/// Lengthens a text to this many bytes, if it has fewer. It has capacity for them.
fn lengthen(text: &mut Vec<u8>, count: usize)
    requires { count ≤ vec_capacity text.old }
    ensures long { count ≤ vec_len text.new }
    ensures longer { vec_len text.old ≤ vec_len text.new }
    ensures front { take (vec_len text.old) text.new.items ≡ text.old.items }
    ensures room { vec_capacity text.old ≤ vec_capacity text.new }
{
    if text.len() < count {
        let _ = text.resize(count, 0);
    }
}
