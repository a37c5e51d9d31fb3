//! The nearest obstacles of all cells of a range of rows, computed in bands by threads.

ghost use Rattle.std.specs.Prelude.{◌≡◌, ◌≤◌, ◌-◌, IfOk, OnOk};
ghost use Rattle.std.specs.Thread.{IsSync};
ghost use Rattle.field.specs.Bands.{AreBands, HasBandRoom};
ghost use Rattle.field.specs.Rows.{AreBandNears, AreNears};

use crate::filling::fill;
use column::Batch;
use metric::{Gate, Metric, Near, NoMemory, Workers};
use std::alloc::Global;
use std::thread::{Threads, join_mut};

/// What the workers of a batch share.
#[derive(Drop)]
struct Shared<'a, G: Gate> {
    alloc: Global,
    batch: &'a Batch<'a>,
    workers: Workers,
    gate: &'a G,
}

/// Bands in two halves: those down to `middle`, and those from there to `below`.
#[derive(Clone, Copy)]
struct Halves {
    above: u8,
    middle: u8,
    below: u8,
}

/// The answer of `rows`, computed in bands, one per worker.
///
/// A thread per band enters the gate first, even if the band has no rows, and then computes the
/// band; where a thread can't be started, the calling thread does its work. Fails only when out of
/// memory.
pub fn rows_with<M: Metric + Sync, G: Gate + Sync, R: Threads + Sync>(
    rt: &R,
    alloc: Global,
    batch: &Batch<'_>,
    workers: Workers,
    gate: &G,
) -> Result<Vec<Option<Near>>, NoMemory>
    ensures { IfOk result (λ nears. AreNears M.distance batch.now.bitmap.now batch.now.edge
        batch.now.y0 batch.now.y1 nears.items) }
{
    let cells = usize::from(batch.y1 - batch.y0) * batch.width();
    let mut nears = vec![in alloc; None; cells]?;
    let shared = Shared {
        alloc,
        batch,
        workers,
        gate,
    };
    work_bands::<M, G, R>(rt, &shared, 0, workers.count, nears.as_mut_slice())?;
    Ok(nears)
}

/// Computes the bands after band `above`, up to band `below`, each in a thread of its own.
#[cycle(bands)]
fn work_bands<M: Metric + Sync, G: Gate + Sync, R: Threads + Sync>(
    rt: &R,
    shared: &Shared<'_, G>,
    above: u8,
    below: u8,
    nears: &mut [Option<Near>],
) -> Result<(), NoMemory>
    requires bands { AreBands shared.now.workers.count above below }
    requires room { HasBandRoom shared.now.batch.now shared.now.workers.count above below
        nears.old }
    ensures { OnOk result (AreBandNears M.distance shared.now.batch.now
        shared.now.workers.count above below nears.new) }
{
    if below - above == 1 {
        return work_band::<M, G>(shared, below, nears);
    }
    let middle = above + (below - above) / 2;
    let batch = shared.batch;
    let (from, to) = shared
        .workers
        .rows_between(batch.y0, batch.y1, above, middle);
    let cells = usize::from(to - from) * batch.width();
    let (upper, lower) = nears.split_at_mut(cells);
    let halves = Halves {
        above,
        middle,
        below,
    };
    work_beside::<M, G, R>(rt, shared, halves, upper, lower)
}

/// Computes the bands above the end of the middle one and those below it in parallel.
#[cycle(bands)]
fn work_beside<M: Metric + Sync, G: Gate + Sync, R: Threads + Sync>(
    rt: &R,
    shared: &Shared<'_, G>,
    halves: Halves,
    upper: &mut [Option<Near>],
    lower: &mut [Option<Near>],
) -> Result<(), NoMemory>
    requires upper_bands { AreBands shared.now.workers.count halves.above halves.middle }
    requires lower_bands { AreBands shared.now.workers.count halves.middle halves.below }
    requires upper { HasBandRoom shared.now.batch.now shared.now.workers.count halves.above
        halves.middle
        upper.old }
    requires lower { HasBandRoom shared.now.batch.now shared.now.workers.count halves.middle
        halves.below
        lower.old }
    ensures upper { OnOk result (AreBandNears M.distance shared.now.batch.now
        shared.now.workers.count halves.above halves.middle upper.new) }
    ensures lower { OnOk result (AreBandNears M.distance shared.now.batch.now
        shared.now.workers.count halves.middle halves.below lower.new) }
{
    let Halves {
        above,
        middle,
        below,
    } = halves;
    let mut first = move || -> Result<(), NoMemory>
        requires { IsSync R.row × IsSync G.row × IsSync M.row
            × AreBands shared.now.workers.count above middle
            × HasBandRoom shared.now.batch.now shared.now.workers.count above middle upper.now }
        ensures { OnOk result (AreBandNears M.distance shared.entry.now.batch.now
            shared.entry.now.workers.count above middle upper.exit.now) }
    { work_bands::<M, G, R>(rt, shared, above, middle, upper) };
    let mut second = move || -> Result<(), NoMemory>
        requires { IsSync R.row × IsSync G.row × IsSync M.row
            × AreBands shared.now.workers.count middle below
            × HasBandRoom shared.now.batch.now shared.now.workers.count middle below lower.now }
        ensures { OnOk result (AreBandNears M.distance shared.entry.now.batch.now
            shared.entry.now.workers.count middle below lower.exit.now) }
    { work_bands::<M, G, R>(rt, shared, middle, below, lower) };
    let (above_worked, below_worked) = join_mut(rt, &mut first, &mut second);
    above_worked?;
    below_worked
}

/// Enters the gate, and computes the rows of one band, counted from 1.
fn work_band<M: Metric, G: Gate>(
    shared: &Shared<'_, G>,
    band: u8,
    nears: &mut [Option<Near>],
) -> Result<(), NoMemory>
    requires first { 1 ≤ band }
    requires last { band ≤ shared.now.workers.count }
    requires room { HasBandRoom shared.now.batch.now shared.now.workers.count (band - 1) band
        nears.old }
    ensures { OnOk result (AreBandNears M.distance shared.now.batch.now
        shared.now.workers.count (band - 1) band nears.new) }
{
    shared.gate.enter(band);
    let batch = shared.batch;
    let (y0, y1) = shared.workers.band_rows(batch.y0, batch.y1, band);
    let own = Batch {
        bitmap: batch.bitmap,
        edge: batch.edge,
        y0,
        y1,
    };
    fill::<M, Option<Near>>(shared.alloc, &own, nears)
}
