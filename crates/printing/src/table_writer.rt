//! A table with all that is needed to write its lines, which workers make in parallel.

ghost use Rattle.std.specs.Prelude.{◌≡◌, IfOk, OnOk, OnErr, vec_len};
ghost use Rattle.metric.specs.Stream.{Appends, AppendsFront, Counts, CanFail};
ghost use Rattle.printing.specs.Table.{table_text};
ghost use Rattle.printing.specs.Tabled.{IsBelowNone, IsTableOf};

use crate::decimals::Decimals;
use crate::parts::WorkerLines;
use crate::printer::Printer;
use crate::table::Table;
use bits::Bitmap;
use field::Workers;
use metric::{Edge, Metric, NoMemory, Sink, WriteFault};
use std::alloc::Global;
use std::marker::Model;
use std::thread::Threads;

/// A table's printer, and two sets of parts: one is written while the other is filled. Contracts
/// see the table, and how many parts each set has.
#[derive(Drop)]
pub struct TableWriter<M: Metric> {
    printer: Printer<M>,
    full: Vec<WorkerLines>,
    free: Vec<WorkerLines>,
}

impl<M: Metric> Model for TableWriter<M> {
    ghost use Rattle.std.specs.Prelude.{◌≡◌, vec_len};
    ghost use Rattle.printing.specs.Parts.{AreShares};
    ghost use Rattle.printing.specs.Tabled.{WriterView};

    ghost Value = { WriterView };

    ghost view = { λ w. record { table = w.printer.table; parts = vec_len w.full } };

    ghost invariant = { λ w. AreShares w.printer.nearest w.printer.table.width w.printer.rows
        w.full.items × AreShares w.printer.nearest w.printer.table.width w.printer.rows
        w.free.items × (vec_len w.free ≡ vec_len w.full) };
}

impl<M: Metric + Sync> TableWriter<M> {
    /// The table of a map with this edge, with a part in each set for each worker. The rows per
    /// part depend on whether obstacles are printed too. Does here everything that allocates
    /// memory; the only refusal is that there is none.
    pub fn of<T: Threads + Sync>(
        rt: &T,
        alloc: Global,
        map: &Bitmap,
        edge: Edge,
        nearest: bool,
        workers: Workers,
    ) -> Result<Self, NoMemory>
        requires below { IsBelowNone M.distance }
        ensures table { IfOk result (λ print. IsTableOf M.distance edge map.now print.table) }
        ensures nearest { IfOk result (λ print. print.table.nearest ≡ nearest) }
        ensures workers { IfOk result (λ print. print.parts ≡ workers.count) }
    {
        let table = Table::<M>::of(rt, alloc, map, edge, nearest, workers)?;
        let rows = table.rows_at_a_time(workers.count, nearest);
        let printer = Printer {
            table,
            decimals: Decimals::new(alloc)?,
            nearest,
            rows,
        };
        let (width, count) = (map.width(), workers.count);
        Ok(TableWriter {
            printer,
            full: WorkerLines::several(alloc, nearest, width, rows, count)?,
            free: WorkerLines::several(alloc, nearest, width, rows, count)?,
        })
    }

    /// Writes the lines of all rows, while the workers make further ones.
    pub fn write<W: Sink, R: Threads + Sync>(self, rt: &R, writer: &mut W) -> Result<(), WriteFault>
        requires { CanFail (W.failed_writes writer.old) }
        ensures all { OnOk result (Appends (W.held writer.old) (table_text self.table.nearest
            self.table.width self.table.height self.table.nears) (W.held writer.new)) }
        ensures front { OnErr result (AppendsFront (W.held writer.old) (table_text
            self.table.nearest self.table.width self.table.height self.table.nears)
            (W.held writer.new)) }
        ensures counts { Counts (W.failed_writes writer.old) result (W.failed_writes writer.new) }
    {
        let TableWriter {
            printer,
            mut full,
            mut free,
        } = self;
        printer.write_turns(rt, writer, &mut full, &mut free)
    }
}
