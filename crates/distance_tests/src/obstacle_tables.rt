//! The table that keeps only the positions of nearest obstacles: that it finds memory, and that it
//! gives what the rows have, for any number of workers.

use crate::bands::all_met;
use crate::compare::{holds, same};
use crate::draws::Draws;
use crate::gates::{Counts, Meeting, Open};
use bits::Bitmap;
use field::{Batch, ObstacleTable, Workers, rows};
use metric::{Chess, City, Edge, Euclid2, Metric, Near};
use std::alloc::Global;
use std::process::Abort;
use std::test::Fail;
use std::thread::Threads;

/// Compares a row of the table, as a line and cell by cell.
fn compare_row<M: Metric + Sync>(
    rt: &impl Abort,
    alloc: Global,
    table: &ObstacleTable<M>,
    y: u16,
    want: &[Option<Near>],
) -> Result<(), Fail> {
    let width = table.width();
    let mut line = vec![in alloc; None; usize::from(width)]?;
    assert!(rt; table.has_row(y));
    assert!(rt; line.len() == usize::from(width));
    table.fill_row(y, line.as_mut_slice());
    same(rt, line.as_slice(), want, ("line", y));
    for (x, near) in (0..width).zip(want.iter()) {
        assert!(rt; x < width);
        same(rt, table.near(x, y), *near, (x, y));
    }
    Ok(())
}

/// Compares the table of the rows from `y0` on, computed by this many workers, with what one thread
/// answers.
pub fn compare<M: Metric + Sync>(
    rt: &(impl Abort + Threads + Sync),
    alloc: Global,
    bitmap: &Bitmap,
    edge: Edge,
    count: u8,
    y0: u16,
) -> Result<(), Fail> {
    let workers = Workers::new(count).ok_or("no workers")?;
    let (width, y1) = (usize::from(bitmap.width()), bitmap.height());
    assert!(rt; y0 <= y1);
    let batch = Batch::new(bitmap, edge, y0, y1);
    let table = ObstacleTable::<M>::of(rt, alloc, &batch, workers, &Open)?;
    let nears = rows::<M>(alloc, &batch)?;
    same(rt, usize::from(table.width()), width, "width");
    for (y, want) in (y0..y1).zip(nears.as_slice().chunks_exact(width)) {
        compare_row(rt, alloc, &table, y, want)?;
    }
    holds(rt, !table.has_row(y1), "a row after the last");
    holds(
        rt,
        y0 == 0 || !table.has_row(y0 - 1),
        "a row before the first",
    );
    Ok(())
}

#[test]
fn tells_what_the_rows_have(rt: HostRuntime) -> Result<(), Fail> {
    let mut draws = Draws::new(20261124);
    for (width, height) in [(12, 12), (130, 3), (40, 90)] {
        for count in [1, 2, 16] {
            for rare in [2, 20, 2000] {
                let (width, height) = (draws.side(width), draws.side(height));
                let bitmap = draws.map(rt.alloc(), width, height, rare)?;
                let edge = draws.edge();
                compare::<Euclid2>(&rt, rt.alloc(), &bitmap, edge, count, 0)?;
                compare::<City>(&rt, rt.alloc(), &bitmap, edge, count, height / 3)?;
                compare::<Chess>(&rt, rt.alloc(), &bitmap, edge, count, height / 2)?;
            }
        }
    }
    Ok(())
}

#[test]
fn strips_meet(rt: HostRuntime) -> Result<(), Fail> {
    let bitmap = Bitmap::blank(rt.alloc(), 2, 16)?;
    assert!(rt; bitmap.height() == 16);
    for strips in [2, 16] {
        let workers = Workers::new(strips).ok_or("no workers")?;
        let gate = Meeting::of(strips);
        let batch = Batch::new(&bitmap, Edge::Open, 0, 16);
        ObstacleTable::<City>::of(&rt, rt.alloc(), &batch, workers, &gate)?;
        all_met(&rt, &gate, strips);
    }
    Ok(())
}

#[test]
fn each_strip_enters_once(rt: HostRuntime) -> Result<(), Fail> {
    let workers = Workers::new(4).ok_or("no workers")?;
    let bitmap = Bitmap::blank(rt.alloc(), 5, 3)?;
    let gate = Counts::new();
    assert!(rt; bitmap.height() == 3);
    let batch = Batch::new(&bitmap, Edge::Open, 0, 3);
    ObstacleTable::<Chess>::of(&rt, rt.alloc(), &batch, workers, &gate)?;
    for strip in 0..17 {
        let once = u64::from(1 <= strip && strip <= 4);
        same(
            &rt,
            gate.of(strip),
            once,
            ("how often strip entered", strip),
        );
    }
    Ok(())
}
