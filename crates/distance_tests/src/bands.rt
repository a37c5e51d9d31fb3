//! Rows computed in bands: each band enters the gate once, at the same time as others, and any
//! number of workers gives the same answer.

use crate::compare::{holds, same};
use crate::draws::Draws;
use crate::gates::{Counts, Meeting};
use bits::Bitmap;
use field::{Batch, Workers, rows, rows_with};
use metric::{Chess, City, Edge, Euclid2, Metric};
use std::alloc::Global;
use std::process::Abort;
use std::test::Fail;
use std::thread::Threads;

#[test]
fn bands_meet(rt: HostRuntime) -> Result<(), Fail> {
    let bitmap = Bitmap::blank(rt.alloc(), 2, 16)?;
    assert!(rt; bitmap.height() == 16);
    for bands in [2, 16] {
        let workers = Workers::new(bands).ok_or("no workers")?;
        let gate = Meeting::of(bands);
        let nears = rows_with::<City, _, _>(
            &rt,
            rt.alloc(),
            &Batch::new(&bitmap, Edge::Open, 0, 16),
            workers,
            &gate,
        )?;
        same(&rt, nears.len(), 32, "answers");
        all_met(&rt, &gate, bands);
    }
    Ok(())
}

/// Checks how the bands of a gate entered: all at the same time, and each once.
pub fn all_met(rt: &impl Abort, gate: &Meeting, bands: u8) {
    holds(rt, !gate.was_alone(), ("all bands enter", bands));
    for band in 0..17 {
        let once = u64::from(1 <= band && band <= usize::from(bands));
        same(
            rt,
            gate.entries(band),
            once,
            ("how often band entered", band),
        );
    }
}

#[test]
fn three_rows_over_four_workers(rt: HostRuntime) -> Result<(), Fail> {
    let workers = Workers::new(4).ok_or("no workers")?;
    assert!(rt; workers.count == 4);
    same(&rt, workers.band_rows(0, 3, 1), (0, 0), "band 1");
    same(&rt, workers.band_rows(0, 3, 2), (0, 1), "band 2");
    same(&rt, workers.band_rows(0, 3, 3), (1, 2), "band 3");
    same(&rt, workers.band_rows(0, 3, 4), (2, 3), "band 4");
    let bitmap = Bitmap::blank(rt.alloc(), 5, 3)?;
    assert!(rt; bitmap.height() == 3);
    let gate = Counts::new();
    let nears = rows_with::<Chess, _, _>(
        &rt,
        rt.alloc(),
        &Batch::new(&bitmap, Edge::Open, 0, 3),
        workers,
        &gate,
    )?;
    same(&rt, nears.len(), 15, "answers");
    for band in 0..17 {
        let once = u64::from(1 <= band && band <= 4);
        same(&rt, gate.of(band), once, ("how often band entered", band));
    }
    Ok(())
}

/// Compares the rows from `y0` on, computed by this many workers, with those of one thread.
pub fn compare<M: Metric + Sync>(
    rt: &(impl Abort + Threads + Sync),
    alloc: Global,
    bitmap: &Bitmap,
    edge: Edge,
    count: u8,
    y0: u16,
) -> Result<(), Fail> {
    let workers = Workers::new(count).ok_or("no workers")?;
    let gate = Counts::new();
    let y1 = bitmap.height();
    assert!(rt; y0 <= y1);
    let batch = Batch::new(bitmap, edge, y0, y1);
    let many = rows_with::<M, _, _>(rt, alloc, &batch, workers, &gate)?;
    let one = rows::<M>(alloc, &batch)?;
    same(rt, many.as_slice(), one.as_slice(), (edge, count, y0, y1));
    Ok(())
}

#[test]
fn as_one_thread(rt: HostRuntime) -> Result<(), Fail> {
    let mut draws = Draws::new(20261123);
    for (width, height) in [(12, 12), (130, 3), (40, 90)] {
        for count in [1, 2, 3, 4, 16] {
            for rare in [2, 20, 200] {
                let (width, height) = (draws.side(width), draws.side(height));
                let bitmap = draws.map(rt.alloc(), width, height, rare)?;
                let edge = draws.edge();
                compare::<Euclid2>(&rt, rt.alloc(), &bitmap, edge, count, 0)?;
                compare::<City>(&rt, rt.alloc(), &bitmap, edge, count, height / 3)?;
                compare::<Chess>(&rt, rt.alloc(), &bitmap, edge, count, height / 2)?;
            }
        }
    }
    Ok(())
}
