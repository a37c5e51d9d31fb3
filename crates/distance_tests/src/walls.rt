//! Maps with a wall: worked rows and answers, and all cells of small maps compared with the plain
//! minimum.

use crate::compare::same;
use crate::draws::Draws;
use crate::nearest::nearest_obstacle;
use bits::Bitmap;
use clearance::at;
use field::{Batch, rows};
use metric::{Cell, Chess, City, Edge, Euclid2, Metric, Near, Refusal, Spot};
use std::alloc::Global;
use std::process::Abort;
use std::test::Fail;

/// The square distances of a blank map of 5 columns and 3 rows.
const DISTANCES: [u32; 15] = [1, 1, 1, 1, 1, 1, 4, 4, 4, 1, 1, 1, 1, 1, 1];

/// The nearest obstacles of its middle row: the distance, the column and the row.
const MIDDLE: [(u32, i16, i16); 5] = [(1, -1, 1), (4, -1, 1), (4, 2, -1), (4, 3, -1), (1, 5, 1)];

/// Those of the first two cells and of the last one of its first row.
const FIRST: [(usize, (u32, i16, i16)); 3] = [(0, (1, -1, 0)), (1, (1, 1, -1)), (4, (1, 4, -1))];

/// The near obstacle of this distance, column and row.
fn near_at((dist, x, y): (u32, i16, i16)) -> Near {
    Near {
        dist,
        cell: Spot { x, y },
    }
}

#[test]
fn a_blank_map_is_walled(rt: HostRuntime) -> Result<(), Fail> {
    let blank = Bitmap::blank(rt.alloc(), 5, 3)?;
    assert!(rt; blank.height() == 3);
    let nears = rows::<Euclid2>(rt.alloc(), &Batch::new(&blank, Edge::Wall, 0, 3))?;
    assert!(rt; nears.len() == 15);
    for (place, dist) in DISTANCES.iter().enumerate() {
        same(&rt, nears[place].map(|near| near.dist), Some(*dist), place);
    }
    for (x, want) in MIDDLE.iter().enumerate() {
        same(&rt, nears[5 + x], Some(near_at(*want)), ("middle", x));
    }
    for (x, want) in FIRST {
        same(&rt, nears[x], Some(near_at(want)), ("first", x));
    }
    let answer = at::<Chess, &Bitmap>(&mut &blank, Edge::Wall, Cell { x: 2, y: 1 });
    same(&rt, answer, Ok(Some(near_at((2, 0, -1)))), "at");
    Ok(())
}

/// A cell of a map of 7 columns and 5 rows, its only obstacle, which is as far from the cell as the
/// frame, and the nearest of all by the square of the distance.
const TIES: [((u16, u16), (u16, u16), (u32, i16, i16)); 4] = [
    ((3, 1), (3, 3), (4, 3, -1)),
    ((3, 3), (3, 1), (4, 3, 1)),
    ((3, 1), (1, 1), (4, 1, 1)),
    ((3, 1), (5, 1), (4, 3, -1)),
];

/// The same by the greater difference, which ties with five cells of the frame's first row.
const CHESS_TIES: [((u16, u16), (u16, u16), (u32, i16, i16)); 5] = [
    ((3, 1), (3, 3), (2, 1, -1)),
    ((3, 1), (1, 1), (2, 1, 1)),
    ((3, 1), (1, 2), (2, 1, 2)),
    ((3, 1), (1, 3), (2, 1, -1)),
    ((3, 1), (5, 1), (2, 1, -1)),
];

/// Compares a cell's answer, in rows and as a query, on the map of 7 columns and 5 rows with this
/// obstacle.
fn expect_tie<M: Metric>(
    rt: &impl Abort,
    alloc: Global,
    ((x, y), obstacle, want): ((u16, u16), (u16, u16), (u32, i16, i16)),
) -> Result<(), Refusal> {
    let mut bitmap = Bitmap::blank(alloc, 7, 5)?;
    let (cell, near) = (Cell { x, y }, Some(near_at(want)));
    let obstacle = Cell {
        x: obstacle.0,
        y: obstacle.1,
    };
    assert!(rt; bitmap.holds(obstacle));
    bitmap.set(obstacle, true);
    same(
        rt,
        at::<M, &Bitmap>(&mut &bitmap, Edge::Wall, cell)?,
        near,
        ("query", cell, obstacle),
    );
    assert!(rt; bitmap.height() == 5);
    let nears = rows::<M>(alloc, &Batch::new(&bitmap, Edge::Wall, 0, 5))?;
    let place = usize::from(y) * 7 + usize::from(x);
    same(rt, nears.get(place), Some(&near), ("row", cell, obstacle));
    Ok(())
}

#[test]
fn obstacles_tie_with_the_frame(rt: HostRuntime) -> Result<(), Fail> {
    for (cell, obstacle, (square, x, y)) in TIES {
        expect_tie::<Euclid2>(&rt, rt.alloc(), (cell, obstacle, (square, x, y)))?;
        expect_tie::<City>(&rt, rt.alloc(), (cell, obstacle, (2, x, y)))?;
    }
    for tie in CHESS_TIES {
        expect_tie::<Chess>(&rt, rt.alloc(), tie)?;
    }
    Ok(())
}

/// Compares each cell's answer, in rows and as a query, with the plain minimum.
fn compare<M: Metric>(rt: &impl Abort, alloc: Global, bitmap: &Bitmap) -> Result<(), Refusal> {
    let nears = rows::<M>(alloc, &Batch::new(bitmap, Edge::Wall, 0, bitmap.height()))?;
    let mut answers = nears.iter();
    for y in 0..bitmap.height() {
        for x in 0..bitmap.width() {
            let cell = Cell { x, y };
            assert!(rt; bitmap.holds(cell));
            let want = nearest_obstacle::<M>(bitmap, Edge::Wall, cell);
            same(rt, answers.next(), Some(&want), ("row", x, y));
            let answer = at::<M, &Bitmap>(&mut &*bitmap, Edge::Wall, cell)?;
            same(rt, answer, want, ("query", x, y));
        }
    }
    Ok(())
}

#[test]
fn as_the_plain_minimum(rt: HostRuntime) -> Result<(), Fail> {
    let mut draws = Draws::new(20261124);
    for (width, height) in [(12, 12), (70, 4), (4, 70), (130, 3)] {
        for rare in [1, 2, 5, 20, 200] {
            for _ in 0..2 {
                let (width, height) = (draws.side(width), draws.side(height));
                let bitmap = draws.map(rt.alloc(), width, height, rare)?;
                compare::<Euclid2>(&rt, rt.alloc(), &bitmap)?;
                compare::<City>(&rt, rt.alloc(), &bitmap)?;
                compare::<Chess>(&rt, rt.alloc(), &bitmap)?;
            }
        }
    }
    Ok(())
}
