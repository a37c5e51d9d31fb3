//! The table that keeps distances alone: that it finds memory, and that it gives those of the
//! nearest obstacles, for any number of workers.

use crate::bands::all_met;
use crate::compare::{holds, same};
use crate::draws::Draws;
use crate::gates::{Meeting, Open};
use bits::Bitmap;
use field::{Batch, DistanceTable, Workers, rows};
use metric::{Chess, City, Edge, Euclid2, Metric, Near};
use std::alloc::Global;
use std::process::Abort;
use std::test::Fail;
use std::thread::Threads;

/// Compares a row of the table with the distances of these obstacles.
fn compare_row(rt: &impl Abort, table: &DistanceTable, y: u16, want: &[Option<Near>]) {
    assert!(rt; table.has_row(y));
    let line = table.row(y);
    same(rt, line.len(), want.len(), ("cells of row", y));
    for (x, (distance, near)) in line.iter().zip(want.iter()).enumerate() {
        let far = near.map_or(u32::MAX, |near| near.dist);
        same(rt, *distance, far, (x, y));
    }
}

/// Compares the table of the rows from `y0` on, computed by this many workers, with what one thread
/// answers.
fn compare<M: Metric + Sync, R: Abort + Threads + Sync>(
    rt: &R,
    alloc: Global,
    bitmap: &Bitmap,
    edge: Edge,
    count: u8,
    y0: u16,
) -> Result<(), Fail> {
    let workers = Workers::new(count).ok_or("no workers")?;
    let (width, y1) = (usize::from(bitmap.width()), bitmap.height());
    assert!(rt; y0 <= y1);
    let batch = Batch::new(bitmap, edge, y0, y1);
    let table = DistanceTable::of::<M, Open, R>(rt, alloc, &batch, workers, &Open)?;
    let nears = rows::<M>(alloc, &batch)?;
    same(rt, usize::from(table.width()), width, "width");
    for (y, want) in (y0..y1).zip(nears.as_slice().chunks_exact(width)) {
        compare_row(rt, &table, y, want);
    }
    holds(rt, !table.has_row(y1), "a row after the last");
    holds(
        rt,
        y0 == 0 || !table.has_row(y0 - 1),
        "a row before the first",
    );
    Ok(())
}

#[test]
fn tells_the_distances_of_the_rows(rt: HostRuntime) -> Result<(), Fail> {
    let mut draws = Draws::new(20261127);
    for (width, height) in [(12, 12), (130, 3), (40, 90)] {
        for count in [1, 2, 16] {
            for rare in [2, 20, 2000] {
                let (width, height) = (draws.side(width), draws.side(height));
                let bitmap = draws.map(rt.alloc(), width, height, rare)?;
                let edge = draws.edge();
                compare::<Euclid2, _>(&rt, rt.alloc(), &bitmap, edge, count, 0)?;
                compare::<City, _>(&rt, rt.alloc(), &bitmap, edge, count, height / 3)?;
                compare::<Chess, _>(&rt, rt.alloc(), &bitmap, edge, count, height / 2)?;
            }
        }
    }
    Ok(())
}

#[test]
fn strips_of_distances_meet(rt: HostRuntime) -> Result<(), Fail> {
    let bitmap = Bitmap::blank(rt.alloc(), 2, 16)?;
    assert!(rt; bitmap.height() == 16);
    for strips in [2, 16] {
        let workers = Workers::new(strips).ok_or("no workers")?;
        let gate = Meeting::of(strips);
        let batch = Batch::new(&bitmap, Edge::Open, 0, 16);
        DistanceTable::of::<City, Meeting, _>(&rt, rt.alloc(), &batch, workers, &gate)?;
        all_met(&rt, &gate, strips);
    }
    Ok(())
}
