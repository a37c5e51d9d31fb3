//! Rows that find no memory: nothing is answered, and computed again they are what they would have
//! been.

use crate::compare::{holds, same};
use crate::opened::drawn;
use crate::told::{Call, begin, end};
use bits::Bitmap;
use field::{Batch, Workers, rows, rows_with};
use metric::{Cell, Edge, Euclid2, Gate, Near, NoMemory, Spot};
use std::alloc::Global;
use std::process::Abort;
use std::test::Fail;
use std::thread::Threads;

/// The only obstacle of the maps.
const OBSTACLE: Cell = Cell { x: 3, y: 4 };

/// A few rows, computed without a table, and many.
const SIZES: [[u16; 2]; 2] = [[64, 8], [64, 70]];

/// The number of workers, 0 for the call without any, and what is reported of them.
const WORKERS: [(u8, &str); 4] = [
    (0, "rows"),
    (1, "rows_with of 1 worker"),
    (2, "rows_with of 2 workers"),
    (16, "rows_with of 16 workers"),
];

/// A gate that all workers pass.
struct Open;

impl Gate for Open {
    fn enter(&self, _band: u8) {}
}

/// Checks the answers of all cells of a map of 64 columns.
fn look_at(rt: &impl Abort, nears: &[Option<Near>], height: u16) {
    same(
        rt,
        nears.len(),
        usize::from(height).saturating_mul(64),
        "cells",
    );
    for (index, near) in nears.iter().enumerate() {
        let column = ((index % 64) as u32).abs_diff(u32::from(OBSTACLE.x));
        let row = ((index / 64 % 128) as u32).abs_diff(u32::from(OBSTACLE.y));
        let dist = column
            .saturating_mul(column)
            .saturating_add(row.saturating_mul(row));
        let want = Near {
            dist,
            cell: Spot { x: 3, y: 4 },
        };
        same(rt, *near, Some(want), index);
    }
}

/// Computes all rows of a map with this many workers.
fn work<R: Threads + Sync>(
    rt: &R,
    alloc: Global,
    map: &Bitmap,
    workers: Option<Workers>,
) -> Result<Vec<Option<Near>>, NoMemory> {
    let batch = Batch::new(map, Edge::Open, 0, map.height());
    match workers {
        Some(workers) => rows_with::<Euclid2, _, _>(rt, alloc, &batch, workers, &Open),
        None => rows::<Euclid2>(alloc, &batch),
    }
}

#[test]
fn rows_are_worked_again(rt: HostRuntime) -> Result<(), Fail> {
    for size in SIZES {
        let map = drawn(&rt, rt.alloc(), size, OBSTACLE)?;
        for (count, name) in WORKERS {
            let call: Call = ("field", name);
            let workers = Workers::new(count);
            begin(&rt, call);
            let first = work(&rt, rt.alloc(), &map, workers);
            end(&rt, call, first.is_err());
            let nears = match first {
                Ok(nears) => nears,
                Err(_) => work(&rt, rt.alloc(), &map, workers)?,
            };
            look_at(&rt, nears.as_slice(), map.height());
        }
    }
    Ok(())
}
