//! Columns: that the table finds memory, and worked columns, with and without a table.

use crate::compare::{holds, same};
use bits::Bitmap;
use column::{ColumnTable, NONE, nearest_rows};
use metric::{Cell, Edge, NoMemory};
use std::alloc::Global;
use std::process::Abort;
use std::test::Fail;

/// A height, the rows of a column's obstacles, and the nearest of them for each row.
const COLUMNS: [(u16, &[u16], &[u16]); 8] = [
    (1, &[], &[NONE]),
    (1, &[0], &[0]),
    (3, &[], &[NONE, NONE, NONE]),
    (3, &[0, 2], &[0, 0, 2]),
    (4, &[0, 3], &[0, 0, 3, 3]),
    (5, &[0, 4], &[0, 0, 0, 4, 4]),
    (5, &[2], &[2, 2, 2, 2, 2]),
    (6, &[1, 2, 5], &[1, 1, 2, 2, 5, 5]),
];

/// A bitmap of this size with these obstacles in one column.
fn with_column(
    rt: &impl Abort,
    alloc: Global,
    width: u16,
    height: u16,
    x: u16,
    obstacles: &[u16],
) -> Result<Bitmap, NoMemory> {
    assert!(rt; 1 <= width && width <= 4096);
    assert!(rt; 1 <= height && height <= 4096);
    let mut bitmap = Bitmap::blank(alloc, width, height)?;
    for y in obstacles {
        let cell = Cell { x, y: *y };
        holds(rt, bitmap.holds(cell), ("lies outside", x, y));
        bitmap.set(cell, true);
    }
    Ok(bitmap)
}

/// The row of the obstacle of a column of the table that is nearest to row `y`.
fn nearest_row(rt: &impl Abort, table: &ColumnTable, x: i16, y: u16) -> Option<i16> {
    let before = table.edge().shift() as i16;
    assert!(rt; table.width() <= 4096);
    assert!(rt; -before <= x && x < table.width() as i16 + before);
    assert!(rt; y < table.height());
    table.nearest_row(x, y)
}

#[test]
fn worked_columns(rt: HostRuntime) -> Result<(), Fail> {
    for width in [1, 63, 64, 65, 130] {
        for (height, obstacles, want) in COLUMNS {
            let x = width - 1;
            let bitmap = with_column(&rt, rt.alloc(), width, height, x, obstacles)?;
            let table = ColumnTable::of(rt.alloc(), &bitmap, Edge::Open)?;
            assert!(rt; table.width() == width && table.height() == height);
            let mut entries = vec![in rt.alloc(); 0; usize::from(width)]?;
            for (y, want) in (0..height).zip(want) {
                assert!(rt; y < bitmap.height());
                nearest_rows(&bitmap, Edge::Open, y, &mut entries);
                assert!(rt; x < table.width() && y < table.height());
                let row = table.row(y);
                same(
                    &rt,
                    row,
                    entries.as_slice(),
                    ("row, height, width", y, height, width),
                );
                same(
                    &rt,
                    row.last(),
                    Some(want),
                    ("row, height, width", y, height, width),
                );
                let nearest = i16::try_from(*want).ok();
                same(
                    &rt,
                    nearest_row(&rt, &table, x as i16, y),
                    nearest,
                    "nearest row",
                );
                assert!(rt; row.iter().take(usize::from(x)).all(|entry| *entry == NONE));
            }
        }
    }
    Ok(())
}

#[test]
fn the_largest_table(rt: HostRuntime) -> Result<(), Fail> {
    let bitmap = with_column(&rt, rt.alloc(), 4096, 4096, 4095, &[0, 4095])?;
    let table = ColumnTable::of(rt.alloc(), &bitmap, Edge::Open)?;
    for (x, y, want) in [
        (4095, 2047, Some(0)),
        (4095, 2048, Some(4095)),
        (0, 2048, None),
    ] {
        same(
            &rt,
            nearest_row(&rt, &table, x, y),
            want,
            ("nearest row", x, y),
        );
    }
    Ok(())
}

/// A column and a row of a map of 3 columns and 5 rows with a wall and obstacles at (0, 3) and (2,
/// 1), and the row of the column's nearest obstacle.
const WALLED: [(i16, u16, i16); 12] = [
    (-1, 0, 0),
    (-1, 4, 4),
    (3, 0, 0),
    (3, 4, 4),
    (0, 1, -1),
    (0, 2, 3),
    (1, 1, -1),
    (1, 2, -1),
    (1, 3, 5),
    (2, 0, -1),
    (2, 2, 1),
    (2, 3, 1),
];

#[test]
fn columns_with_the_frame(rt: HostRuntime) -> Result<(), Fail> {
    let mut bitmap = with_column(&rt, rt.alloc(), 3, 5, 0, &[3])?;
    let other = Cell { x: 2, y: 1 };
    assert!(rt; bitmap.holds(other));
    bitmap.set(other, true);
    let table = ColumnTable::of(rt.alloc(), &bitmap, Edge::Wall)?;
    for (x, y, want) in WALLED {
        same(
            &rt,
            nearest_row(&rt, &table, x, y),
            Some(want),
            ("nearest row", x, y),
        );
    }
    Ok(())
}
