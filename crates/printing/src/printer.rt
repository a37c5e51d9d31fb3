//! Writes a table: several workers make the lines of its rows.

ghost use Rattle.std.specs.Prelude.{◌≡◌, ◌+◌, ◌*◌, ◌<◌, ◌≤◌, OnOk, OnErr, length};
ghost use Rattle.std.specs.Thread.{IsSync};
ghost use Rattle.metric.specs.Stream.{Appends, AppendsFront, Counts, CanFail};
ghost use Rattle.printing.specs.Table.{table_text};

use crate::decimals::Decimals;
use crate::parts::WorkerLines;
use crate::table::Table;
use metric::{MOST_SIDE, Metric, Sink, WriteFault};
use std::mem::swap;
use std::thread::{Threads, for_each_mut, join_mut};

/// The most rows of a set: 16 parts, each with no more rows than a map has.
const SET_ROWS: u32 = 16 * MOST_SIDE as u32;

/// Each turn starts before this row: the first row of a turn is within a table, whose height has 16
/// bits.
const LATEST_TURN: u32 = 1 << 16;

/// The rows of a turn start before this one.
const LATEST_ROWS: u32 = LATEST_TURN + SET_ROWS;

/// A table, and how to write its lines: with the digits of numbers, with obstacles or without, and
/// this many rows per part.
#[derive(Drop)]
pub struct Printer<M: Metric> {
    pub table: Table<M>,
    pub decimals: Decimals,
    pub nearest: bool,
    pub rows: u32,
    pub ghost kept: { table.nearest ≡ nearest },
}

impl<M: Metric + Sync> Printer<M> {
    ghost use Rattle.printing.specs.Parts.{AreShares, HasRows, IsShare, ShareRows, parts_text};

    /// Writes the lines of all rows. In each turn it writes what the full parts hold while the
    /// workers fill the free ones with the rows after those. Then the two sets swap roles.
    pub fn write_turns<W: Sink, R: Threads + Sync>(
        &self,
        rt: &R,
        writer: &mut W,
        full: &mut Vec<WorkerLines>,
        free: &mut Vec<WorkerLines>,
    ) -> Result<(), WriteFault>
        requires can_fail { CanFail (W.failed_writes writer.old) }
        requires full { AreShares self.now.nearest self.now.table.width self.now.rows
            full.old.items }
        requires free { AreShares self.now.nearest self.now.table.width self.now.rows
            free.old.items }
        ensures all { OnOk result (Appends (W.held writer.old) (table_text self.now.nearest
            self.now.table.width self.now.table.height self.now.table.nears) (W.held writer.new)) }
        ensures front { OnErr result (AppendsFront (W.held writer.old) (table_text self.now.nearest
            self.now.table.width self.now.table.height self.now.table.nears) (W.held writer.new)) }
        ensures counts { Counts (W.failed_writes writer.old) result (W.failed_writes writer.new) }
    {
        let height = u32::from(self.table.height());
        self.put_parts(rt, full.as_mut_slice(), 0);
        let mut from = 0;
        'turns: while from < height {
            self.write_and_put(rt, writer, full.as_slice(), free.as_mut_slice(), from)?;
            from = row_after(from, self.rows, full.len());
            swap(full, free);
        }
        writer.flush()?;
        Ok(())
    }

    /// Writes what the full parts hold, the rows from this one on, and fills the free ones with the
    /// rows after those: in parallel, or one after the other if there is only one thread.
    fn write_and_put<W: Sink, R: Threads + Sync>(
        &self,
        rt: &R,
        writer: &mut W,
        full: &[WorkerLines],
        free: &mut [WorkerLines],
        from: u32,
    ) -> Result<(), WriteFault>
        requires can_fail { CanFail (W.failed_writes writer.old) }
        requires from { from < LATEST_TURN }
        requires few { length full.now ≤ 16 }
        requires rows { ShareRows self.now.nearest self.now.table self.now.rows from full.now }
        requires free { AreShares self.now.nearest self.now.table.width self.now.rows free.old }
        ensures all { OnOk result (Appends (W.held writer.old) (parts_text self.now.nearest
            self.now.table self.now.rows from (length full.now)) (W.held writer.new)) }
        ensures front { OnErr result (AppendsFront (W.held writer.old) (parts_text self.now.nearest
            self.now.table self.now.rows from (length full.now)) (W.held writer.new)) }
        ensures counts { Counts (W.failed_writes writer.old) result (W.failed_writes writer.new) }
        ensures next { ShareRows self.now.nearest self.now.table self.now.rows
            (from + self.now.rows * length full.now) free.new }
    {
        let printer = self;
        let next = row_after(from, printer.rows, full.len());
        if printer.threads_for(free.len(), next) == 1 {
            let written = printer.write_parts(writer, full, from);
            printer.put_parts(rt, free, next);
            return written;
        }
        let mut put = move ||
            requires { IsSync R.row × IsSync M.row × (next < LATEST_ROWS)
                × AreShares printer.now.nearest printer.now.table.width printer.now.rows free.now }
            ensures { ShareRows printer.entry.now.nearest printer.entry.now.table
                printer.entry.now.rows next free.exit.now }
        { printer.put_parts(rt, free, next) };
        let mut write = move || -> Result<(), WriteFault>
            requires { CanFail (W.failed_writes writer.now)
                × ShareRows printer.now.nearest printer.now.table printer.now.rows from full.now }
            ensures all { OnOk result (Appends (W.held writer.entry.now) (parts_text
                printer.entry.now.nearest printer.entry.now.table printer.entry.now.rows from
                (length full.entry.now)) (W.held writer.exit.now)) }
            ensures front { OnErr result (AppendsFront (W.held writer.entry.now) (parts_text
                printer.entry.now.nearest printer.entry.now.table printer.entry.now.rows from
                (length full.entry.now)) (W.held writer.exit.now)) }
            ensures counts { Counts (W.failed_writes writer.entry.now) result
                (W.failed_writes writer.exit.now) }
        { printer.write_parts(writer, full, from) };
        let (_, written) = join_mut(rt, &mut put, &mut write);
        written
    }

    /// How many threads fill this many parts with the rows from this one on: one each, or one in
    /// all if there are no such rows or the table is small.
    fn threads_for(&self, parts: usize, from: u32) -> usize
        requires { 1 ≤ parts }
        ensures { 1 ≤ result }
    {
        if from < u32::from(self.table.height()) {
            return self.table.threads(parts);
        }
        1
    }

    /// Fills the parts with the lines of the rows from this one on, this many per part.
    fn put_parts<R: Threads + Sync>(&self, rt: &R, parts: &mut [WorkerLines], from: u32)
        requires from { from < LATEST_ROWS }
        requires parts { AreShares self.now.nearest self.now.table.width self.now.rows parts.old }
        ensures { ShareRows self.now.nearest self.now.table self.now.rows from parts.new }
    {
        let printer = self;
        let threads = printer.threads_for(parts.len(), from);
        for_each_mut(
            rt,
            parts,
            threads,
            &|place, part: &mut WorkerLines|
                requires { (place < 16) × (from < LATEST_ROWS) × (1 ≤ printer.now.rows)
                    × (printer.now.rows ≤ MOST_SIDE)
                    × IsShare printer.now.nearest printer.now.table.width printer.now.rows
                    part.now }
                ensures { HasRows printer.entry.now.nearest printer.entry.now.table
                    printer.entry.now.rows (from + printer.entry.now.rows * place) part.exit.now }
            { part.put(printer, row_after(from, printer.rows, place)) },
        );
    }

    /// Writes what the parts hold, the rows from this one on, in order.
    fn write_parts<W: Sink>(
        &self,
        writer: &mut W,
        parts: &[WorkerLines],
        from: u32,
    ) -> Result<(), WriteFault>
        requires can_fail { CanFail (W.failed_writes writer.old) }
        requires rows { ShareRows self.now.nearest self.now.table self.now.rows from parts.now }
        ensures all { OnOk result (Appends (W.held writer.old) (parts_text self.now.nearest
            self.now.table self.now.rows from (length parts.now)) (W.held writer.new)) }
        ensures front { OnErr result (AppendsFront (W.held writer.old) (parts_text self.now.nearest
            self.now.table self.now.rows from (length parts.now)) (W.held writer.new)) }
        ensures counts { Counts (W.failed_writes writer.old) result (W.failed_writes writer.new) }
    {
        'parts: for part in parts {
            writer.write_all(part.text())?;
        }
        Ok(())
    }
}

/// The row that is `parts` parts of `rows` rows each after this one.
fn row_after(from: u32, rows: u32, parts: usize) -> u32
    requires from { from < LATEST_ROWS }
    requires some { 1 ≤ rows }
    requires few { rows ≤ MOST_SIDE }
    requires parts { parts ≤ 16 }
    ensures row { result ≡ from + rows * parts }
    ensures later { from + parts ≤ result }
    ensures near { result ≤ from + SET_ROWS }
{
    from + rows * parts as u32
}
