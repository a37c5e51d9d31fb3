//! Rows computed from bands of 64 rows with carried lines, compared with rows of a table of the
//! whole bitmap, and with the plain minimum.

use crate::compare::same;
use crate::draws::Draws;
use crate::nearest::nearest_obstacle;
use bits::Bitmap;
use column::ColumnTable;
use envelope::{Stack, row};
use field::{Batch, rows};
use metric::{Cell, Chess, City, Edge, Euclid2, Metric, Near};
use std::alloc::Global;
use std::process::Abort;
use std::test::Fail;

/// Compares a row's answers with those of the table, and the first with the plain minimum.
fn compare_row<M: Metric>(
    rt: &impl Abort,
    alloc: Global,
    bitmap: &Bitmap,
    table: &ColumnTable,
    y: u16,
    got: &[Option<Near>],
) -> Result<(), Fail> {
    let edge = table.edge();
    assert!(rt; table.width() <= 4096);
    let mut stack = Stack::new(alloc, table.width() + 2 * edge.shift())?;
    let mut line = vec![in alloc; None; usize::from(table.width())]?;
    assert!(rt; y < table.height());
    assert!(rt; line.len() == usize::from(table.width()));
    row::<M>(table, y, &mut stack, line.as_mut_slice());
    same(rt, got, line.as_slice(), ("row", y));
    let first = Cell { x: 0, y };
    assert!(rt; bitmap.holds(first));
    let least = nearest_obstacle::<M>(bitmap, edge, first);
    same(rt, got.first().copied().flatten(), least, ("first", y));
    Ok(())
}

/// Compares rows `y0` to `y1 - 1`.
fn compare<M: Metric>(
    rt: &impl Abort,
    alloc: Global,
    bitmap: &Bitmap,
    edge: Edge,
    y0: u16,
    y1: u16,
) -> Result<(), Fail> {
    let table = ColumnTable::of(alloc, bitmap, edge)?;
    assert!(rt; y0 <= y1);
    assert!(rt; y1 <= bitmap.height());
    let nears = rows::<M>(alloc, &Batch::new(bitmap, edge, y0, y1))?;
    let width = usize::from(bitmap.width());
    for (y, got) in (y0..y1).zip(nears.as_slice().chunks_exact(width)) {
        compare_row::<M>(rt, alloc, bitmap, &table, y, got)?;
    }
    Ok(())
}

#[test]
fn bands_have_the_rows_of_the_table(rt: HostRuntime) -> Result<(), Fail> {
    let mut draws = Draws::new(20261125);
    for rare in [2, 30, 700] {
        for _ in 0..4 {
            let (width, height) = (draws.side(20), draws.side(140));
            let bitmap = draws.map(rt.alloc(), width, height, rare)?;
            let edge = draws.edge();
            compare::<Euclid2>(&rt, rt.alloc(), &bitmap, edge, 0, height)?;
            compare::<City>(&rt, rt.alloc(), &bitmap, edge, height / 5, height)?;
            compare::<Chess>(&rt, rt.alloc(), &bitmap, edge, 0, height - height / 7)?;
        }
    }
    Ok(())
}
