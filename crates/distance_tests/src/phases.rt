//! Rows at the limit between the two row phases: obstacles about as far off as the columns searched
//! in vectors, and as the gaps that fit 16 bits.

use crate::compare::same;
use crate::nearest::nearest_obstacle;
use bits::Bitmap;
use field::{Batch, rows};
use metric::{Cell, Chess, City, Edge, Euclid2, Metric, NoMemory};
use std::alloc::Global;
use std::process::Abort;
use std::test::Fail;

/// Compares each answer of the first row with the plain minimum.
fn compare<M: Metric>(rt: &impl Abort, alloc: Global, bitmap: &Bitmap) -> Result<(), NoMemory> {
    assert!(rt; 1 <= bitmap.height());
    let nears = rows::<M>(alloc, &Batch::new(bitmap, Edge::Open, 0, 1))?;
    for (x, near) in (0..bitmap.width()).zip(nears.iter()) {
        let cell = Cell { x, y: 0 };
        assert!(rt; bitmap.holds(cell));
        same(
            rt,
            *near,
            nearest_obstacle::<M>(bitmap, Edge::Open, cell),
            x,
        );
    }
    Ok(())
}

/// Compares the first row of the bitmap of this size with these obstacles, by each metric.
fn compare_all(
    rt: &impl Abort,
    alloc: Global,
    (width, height): (u16, u16),
    obstacles: &[(u16, u16)],
) -> Result<(), NoMemory> {
    assert!(rt; 1 <= width && width <= 4096);
    assert!(rt; 1 <= height && height <= 4096);
    let mut bitmap = Bitmap::blank(alloc, width, height)?;
    for (x, y) in obstacles {
        let cell = Cell { x: *x, y: *y };
        assert!(rt; bitmap.holds(cell));
        bitmap.set(cell, true);
    }
    compare::<Euclid2>(rt, alloc, &bitmap)?;
    compare::<City>(rt, alloc, &bitmap)?;
    compare::<Chess>(rt, alloc, &bitmap)
}

#[test]
fn an_obstacle_so_many_columns_away(rt: HostRuntime) -> Result<(), Fail> {
    for column in 93..100 {
        compare_all(&rt, rt.alloc(), (column + 1, 1), &[(column, 0)])?;
        compare_all(&rt, rt.alloc(), (224, 1), &[(column, 0)])?;
        compare_all(&rt, rt.alloc(), (224, 1), &[(0, 0), (2 * column, 0)])?;
    }
    Ok(())
}

#[test]
fn an_obstacle_so_many_rows_away(rt: HostRuntime) -> Result<(), Fail> {
    for row in [94, 95, 96, 97, 98, 178, 179, 180, 181, 182, 183] {
        compare_all(&rt, rt.alloc(), (20, 184), &[(7, row)])?;
        compare_all(&rt, rt.alloc(), (20, 184), &[(3, row), (11, row - 1)])?;
    }
    Ok(())
}

#[test]
fn ties_go_to_the_left(rt: HostRuntime) -> Result<(), Fail> {
    for width in [3, 15, 16, 17, 31, 33] {
        compare_all(&rt, rt.alloc(), (width, 3), &[(0, 1), (width - 1, 1)])?;
        compare_all(
            &rt,
            rt.alloc(),
            (width, 3),
            &[(0, 2), (width / 2, 1), (width - 1, 2)],
        )?;
    }
    Ok(())
}
