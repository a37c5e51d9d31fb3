//! Rows of answers: that calls find memory, worked rows of nearest obstacles and of distances, and
//! that large maps are computed in time.

use crate::compare::{holds, same};
use crate::draws::Draws;
use crate::nearest::nearest_obstacle;
use crate::quadrupled::Quadrupled;
use bits::Bitmap;
use field::{Batch, rows};
use metric::{Cell, Chess, City, Edge, Euclid2, Metric, MetricKind, Near, NoMemory, Rect, Spot};
use std::alloc::Global;
use std::process::Abort;
use std::test::Fail;

/// A distance, the width and the height of a bitmap, its obstacles, and for each cell of its first
/// rows the distance, the column and the row of the nearest obstacle.
const NEARS: [(MetricKind, u16, u16, &[(u16, u16)], &[(u32, u16, u16)]); 9] = [
    (
        MetricKind::City,
        5,
        1,
        &[(0, 0), (4, 0)],
        &[(0, 0, 0), (1, 0, 0), (2, 0, 0), (1, 4, 0), (0, 4, 0)],
    ),
    (
        MetricKind::Euclid2,
        3,
        2,
        &[(0, 0)],
        &[
            (0, 0, 0),
            (1, 0, 0),
            (4, 0, 0),
            (1, 0, 0),
            (2, 0, 0),
            (5, 0, 0),
        ],
    ),
    (
        MetricKind::City,
        3,
        2,
        &[(0, 0)],
        &[
            (0, 0, 0),
            (1, 0, 0),
            (2, 0, 0),
            (1, 0, 0),
            (2, 0, 0),
            (3, 0, 0),
        ],
    ),
    (
        MetricKind::Chess,
        3,
        2,
        &[(0, 0)],
        &[
            (0, 0, 0),
            (1, 0, 0),
            (2, 0, 0),
            (1, 0, 0),
            (1, 0, 0),
            (2, 0, 0),
        ],
    ),
    (
        MetricKind::Chess,
        3,
        2,
        &[(0, 0), (0, 1)],
        &[
            (0, 0, 0),
            (1, 0, 0),
            (2, 0, 0),
            (0, 0, 1),
            (1, 0, 1),
            (2, 0, 1),
        ],
    ),
    (
        MetricKind::Euclid2,
        7,
        2,
        &[(0, 0), (6, 0), (3, 1)],
        &[
            (0, 0, 0),
            (1, 0, 0),
            (2, 3, 1),
            (1, 3, 1),
            (2, 3, 1),
            (1, 6, 0),
            (0, 6, 0),
            (1, 0, 0),
            (2, 0, 0),
            (1, 3, 1),
            (0, 3, 1),
            (1, 3, 1),
            (2, 6, 0),
            (1, 6, 0),
        ],
    ),
    (
        MetricKind::City,
        7,
        2,
        &[(0, 0), (6, 0), (3, 1)],
        &[
            (0, 0, 0),
            (1, 0, 0),
            (2, 0, 0),
            (1, 3, 1),
            (2, 3, 1),
            (1, 6, 0),
            (0, 6, 0),
            (1, 0, 0),
            (2, 0, 0),
            (1, 3, 1),
            (0, 3, 1),
            (1, 3, 1),
            (2, 3, 1),
            (1, 6, 0),
        ],
    ),
    (
        MetricKind::Chess,
        7,
        2,
        &[(0, 0), (6, 0), (3, 1)],
        &[
            (0, 0, 0),
            (1, 0, 0),
            (1, 3, 1),
            (1, 3, 1),
            (1, 3, 1),
            (1, 6, 0),
            (0, 6, 0),
            (1, 0, 0),
            (1, 0, 0),
            (1, 3, 1),
            (0, 3, 1),
            (1, 3, 1),
            (1, 6, 0),
            (1, 6, 0),
        ],
    ),
    (
        MetricKind::City,
        1,
        3,
        &[(0, 0), (0, 2)],
        &[(0, 0, 0), (1, 0, 0), (0, 0, 2)],
    ),
];

/// A bitmap of this size with these obstacles.
fn drawn(
    rt: &impl Abort,
    alloc: Global,
    width: u16,
    height: u16,
    obstacles: &[(u16, u16)],
) -> Result<Bitmap, NoMemory> {
    assert!(rt; 1 <= width && width <= 4096);
    assert!(rt; 1 <= height && height <= 4096);
    let mut bitmap = Bitmap::blank(alloc, width, height)?;
    for (x, y) in obstacles {
        let cell = Cell { x: *x, y: *y };
        holds(rt, bitmap.holds(cell), ("lies outside", x, y));
        bitmap.set(cell, true);
    }
    Ok(bitmap)
}

/// The nearest obstacles of all cells.
fn all_rows(
    alloc: Global,
    bitmap: &Bitmap,
    kind: MetricKind,
) -> Result<Vec<Option<Near>>, NoMemory> {
    let batch = Batch::new(bitmap, Edge::Open, 0, bitmap.height());
    match kind {
        MetricKind::Euclid2 => rows::<Euclid2>(alloc, &batch),
        MetricKind::City => rows::<City>(alloc, &batch),
        MetricKind::Chess => rows::<Chess>(alloc, &batch),
    }
}

#[test]
fn worked_rows(rt: HostRuntime) -> Result<(), Fail> {
    for (number, (kind, width, height, obstacles, want)) in NEARS.iter().enumerate() {
        let bitmap = drawn(&rt, rt.alloc(), *width, *height, obstacles)?;
        let nears = all_rows(rt.alloc(), &bitmap, *kind)?;
        assert!(rt; want.len() <= nears.len());
        for (place, ((dist, x, y), near)) in want.iter().zip(nears.iter()).enumerate() {
            let cell = Edge::Open.spot((*x).min(4095), (*y).min(4095));
            same(
                &rt,
                *near,
                Some(Near { dist: *dist, cell }),
                ("place, bitmap", place, number),
            );
        }
    }
    Ok(())
}

/// Compares each cell's answer with the plain minimum.
fn compare<M: Metric>(rt: &impl Abort, alloc: Global, bitmap: &Bitmap) -> Result<(), NoMemory> {
    let nears = rows::<M>(alloc, &Batch::new(bitmap, Edge::Open, 0, bitmap.height()))?;
    let mut answers = nears.iter();
    for y in 0..bitmap.height() {
        for x in 0..bitmap.width() {
            let cell = Cell { x, y };
            assert!(rt; bitmap.holds(cell));
            let want = nearest_obstacle::<M>(bitmap, Edge::Open, cell);
            same(rt, answers.next(), Some(&want), (x, y));
        }
    }
    assert!(rt; answers.next().is_none());
    Ok(())
}

#[test]
fn as_the_plain_minimum(rt: HostRuntime) -> Result<(), Fail> {
    let mut draws = Draws::new(20261122);
    for (width, height) in [(12, 12), (70, 4), (4, 70), (130, 3)] {
        for rare in [1, 2, 5, 20, 200] {
            for _ in 0..4 {
                let (width, height) = (draws.side(width), draws.side(height));
                let bitmap = draws.map(rt.alloc(), width, height, rare)?;
                compare::<Euclid2>(&rt, rt.alloc(), &bitmap)?;
                compare::<City>(&rt, rt.alloc(), &bitmap)?;
                compare::<Chess>(&rt, rt.alloc(), &bitmap)?;
                compare::<Quadrupled>(&rt, rt.alloc(), &bitmap)?;
            }
        }
    }
    Ok(())
}

#[test]
fn each_sixteenth_column_is_free(rt: HostRuntime) -> Result<(), Fail> {
    let mut bitmap = Draws::new(16).map(rt.alloc(), 720, 3, 2)?;
    for x in (0..bitmap.width()).step_by(16) {
        for y in 0..bitmap.height() {
            let cell = Cell { x, y };
            if bitmap.holds(cell) {
                bitmap.set(cell, false);
            }
        }
    }
    compare::<Euclid2>(&rt, rt.alloc(), &bitmap)?;
    compare::<Chess>(&rt, rt.alloc(), &bitmap)?;
    Ok(())
}

#[test]
fn the_largest_distance(rt: HostRuntime) -> Result<(), Fail> {
    let bitmap = drawn(&rt, rt.alloc(), 4096, 4096, &[(0, 0)])?;
    assert!(rt; bitmap.height() == 4096);
    let nears = rows::<Euclid2>(rt.alloc(), &Batch::new(&bitmap, Edge::Open, 4095, 4096))?;
    let last = nears.last().ok_or("no answer")?;
    let cell = Spot { x: 0, y: 0 };
    same(
        &rt,
        *last,
        Some(Near {
            dist: 33_538_050,
            cell,
        }),
        "last",
    );
    Ok(())
}

#[test]
fn full_map(rt: HostRuntime) -> Result<(), Fail> {
    let mut bitmap = Bitmap::blank(rt.alloc(), 1024, 1024)?;
    let all = Rect::new(0, 0, 1024, 1024).ok_or("a rectangle without cells")?;
    assert!(rt; bitmap.holds_rect(all));
    bitmap.fill(all, true);
    let nears = rows::<Euclid2>(
        rt.alloc(),
        &Batch::new(&bitmap, Edge::Open, 0, bitmap.height()),
    )?;
    same(&rt, nears.len(), 1 << 20, "len");
    assert!(rt;
        nears
            .iter()
            .all(|near| near.map(|near| near.dist) == Some(0))
    );
    Ok(())
}
