//! The table with two bytes for a short distance: that it finds memory, and that it gives what the
//! table with four gives, on both sides of the longest short distance, for any number of workers.

use crate::bands::all_met;
use crate::compare::{holds, same};
use crate::draws::Draws;
use crate::gates::{Meeting, Open};
use crate::raised::Raised;
use bits::Bitmap;
use field::{Batch, CompactDistances, DistanceTable, Workers};
use metric::{Cell, Chess, City, Edge, Euclid2, Metric};
use std::alloc::Global;
use std::process::Abort;
use std::test::Fail;
use std::thread::Threads;

/// Compares both tables of the rows from `y0` on, computed by this many workers. Returns the
/// largest distance, 0 where there is none.
fn compare<M: Metric + Sync, R: Abort + Threads + Sync>(
    rt: &R,
    alloc: Global,
    bitmap: &Bitmap,
    edge: Edge,
    count: u8,
    y0: u16,
) -> Result<u32, Fail> {
    let workers = Workers::new(count).ok_or("no workers")?;
    let y1 = bitmap.height();
    assert!(rt; y0 <= y1);
    let batch = Batch::new(bitmap, edge, y0, y1);
    let table = CompactDistances::of::<M, Open, R>(rt, alloc, &batch, workers, &Open)?;
    let other = DistanceTable::of::<M, Open, R>(rt, alloc, &batch, workers, &Open)?;
    same(rt, table.width(), bitmap.width(), "width");
    let mut line = vec![in alloc; 7; usize::from(bitmap.width())]?;
    let mut farthest = 0;
    for y in y0..y1 {
        assert!(rt; table.has_row(y) && other.has_row(y));
        assert!(rt; line.len() == usize::from(table.width()));
        table.fill_row(y, line.as_mut_slice());
        for (x, (got, want)) in line.iter().zip(other.row(y).iter()).enumerate() {
            same(rt, *got, *want, (x, y));
            if *got != u32::MAX {
                farthest = farthest.max(*got);
            }
        }
    }
    holds(rt, !table.has_row(y1), "a row after the last");
    holds(
        rt,
        y0 == 0 || !table.has_row(y0 - 1),
        "a row before the first",
    );
    Ok(farthest)
}

/// A map of this size with one obstacle, in its first cell.
fn one_obstacle(rt: &impl Abort, alloc: Global, width: u16, height: u16) -> Result<Bitmap, Fail> {
    assert!(rt; 1 <= width && width <= 4096 && 1 <= height && height <= 4096);
    let mut bitmap = Bitmap::blank(alloc, width, height)?;
    let cell = Cell { x: 0, y: 0 };
    assert!(rt; bitmap.holds(cell));
    bitmap.set(cell, true);
    Ok(bitmap)
}

#[test]
fn keeps_the_distances_of_the_rows(rt: HostRuntime) -> Result<(), Fail> {
    let mut draws = Draws::new(20261128);
    for (width, height) in [(12, 12), (130, 3), (40, 90)] {
        for count in [1, 2, 16] {
            for rare in [2, 20, 2000] {
                let (width, height) = (draws.side(width), draws.side(height));
                let bitmap = draws.map(rt.alloc(), width, height, rare)?;
                let edge = draws.edge();
                compare::<Euclid2, _>(&rt, rt.alloc(), &bitmap, edge, count, 0)?;
                compare::<City, _>(&rt, rt.alloc(), &bitmap, edge, count, height / 3)?;
                compare::<Chess, _>(&rt, rt.alloc(), &bitmap, edge, count, height / 2)?;
                compare::<Raised, _>(&rt, rt.alloc(), &bitmap, edge, count, height / 4)?;
            }
        }
    }
    Ok(())
}

#[test]
fn keeps_long_distances(rt: HostRuntime) -> Result<(), Fail> {
    for (width, height, want) in [
        (3, 256, 65_029),
        (2, 257, 65_537),
        (1, 257, 65_536),
        (300, 300, 178_802),
    ] {
        let bitmap = one_obstacle(&rt, rt.alloc(), width, height)?;
        for count in [1, 2, 16] {
            let got = compare::<Euclid2, _>(&rt, rt.alloc(), &bitmap, Edge::Open, count, 0)?;
            same(&rt, got, want, (width, height));
        }
    }
    Ok(())
}

#[test]
fn keeps_distances_round_the_longest_short_one(rt: HostRuntime) -> Result<(), Fail> {
    for (width, height) in [(1, 1), (2, 1), (3, 1), (4, 1), (2, 3), (1, 9), (9, 20)] {
        let bitmap = one_obstacle(&rt, rt.alloc(), width, height)?;
        for count in [1, 2, 16] {
            let got = compare::<Raised, _>(&rt, rt.alloc(), &bitmap, Edge::Open, count, 0)?;
            let steps = u32::from(width) + u32::from(height);
            same(&rt, got, 65_531 + steps, (width, height));
        }
        let blank = Bitmap::blank(rt.alloc(), 5, 5)?;
        let got = compare::<Raised, _>(&rt, rt.alloc(), &blank, Edge::Open, 2, 0)?;
        same(&rt, got, 0, "a map without obstacles");
    }
    Ok(())
}

#[test]
fn compact_strips_meet(rt: HostRuntime) -> Result<(), Fail> {
    let bitmap = Bitmap::blank(rt.alloc(), 2, 16)?;
    assert!(rt; bitmap.height() == 16);
    for strips in [2, 16] {
        let workers = Workers::new(strips).ok_or("no workers")?;
        let gate = Meeting::of(strips);
        let batch = Batch::new(&bitmap, Edge::Open, 0, 16);
        CompactDistances::of::<City, Meeting, _>(&rt, rt.alloc(), &batch, workers, &gate)?;
        all_met(&rt, &gate, strips);
    }
    Ok(())
}
