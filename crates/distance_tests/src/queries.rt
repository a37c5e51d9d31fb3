//! Queries: that calls answer, and worked answers.

mod compared;
mod limits;
mod slow;

use crate::compare::{holds, same};
use bits::Bitmap;
use clearance::{along, at, clear_of, least_in};
use metric::{Cell, Chess, City, Edge, Euclid2, Near, NoMemory, Rect, Refusal, Spot};
use std::alloc::{AllocError, Global};
use std::process::Abort;
use std::test::Fail;

/// A column and a row.
type Place = (u16, u16);

/// The path around the obstacle (2, 1) of a bitmap of 6 columns and 4 rows.
const ROUND: [Place; 3] = [(0, 0), (5, 0), (5, 3)];

/// Paths on that bitmap, and the cell with the least distance, in steps to four neighbours, with
/// that distance, or the refusal.
const PATHS: [(&[Place], Result<(Place, u32), Refusal>); 10] = [
    (&ROUND, Ok(((2, 0), 1))),
    (&[(0, 0), (0, 0)], Ok(((0, 0), 3))),
    (&[(4, 3)], Ok(((4, 3), 4))),
    (&[(1, 1), (1, 0), (3, 0), (3, 1)], Ok(((1, 1), 1))),
    (&[(3, 1), (3, 0), (1, 0), (1, 1)], Ok(((3, 1), 1))),
    (&[(0, 0), (1, 1)], Err(Refusal::Crooked { index: 1 })),
    (
        &[(0, 0), (0, 0), (5, 0), (4, 1), (3, 2)],
        Err(Refusal::Crooked { index: 3 }),
    ),
    (&[], Err(Refusal::BadPath)),
    (&[(0, 0), (0, 4)], Err(Refusal::OutOfRange)),
    (&[(0, 0), (1, 1), (6, 1)], Err(Refusal::OutOfRange)),
];

/// A bitmap of this size with these obstacles.
fn drawn(
    rt: &impl Abort,
    alloc: Global,
    width: u16,
    height: u16,
    obstacles: &[Place],
) -> Result<Bitmap, NoMemory> {
    assert!(rt; 1 <= width && width <= 4096);
    assert!(rt; 1 <= height && height <= 4096);
    let mut bitmap = Bitmap::blank(alloc, width, height)?;
    for (x, y) in obstacles {
        let cell = Cell { x: *x, y: *y };
        holds(rt, bitmap.holds(cell), ("lies outside", x, y));
        bitmap.set(cell, true);
    }
    Ok(bitmap)
}

/// The cells at these places.
fn cells(alloc: Global, places: &[Place]) -> Result<Vec<Cell>, AllocError> {
    places.iter().map(|&(x, y)| Cell { x, y }).collect(alloc)
}

/// A cell with its distance to the obstacle (2, 1).
fn beside((place, dist): (Place, u32)) -> (Cell, Near) {
    beside_at(place, dist, (2, 1))
}

/// A cell with its distance to an obstacle.
fn beside_at((x, y): Place, dist: u32, obstacle: Place) -> (Cell, Near) {
    let cell = Edge::Open.spot(obstacle.0.min(4095), obstacle.1.min(4095));
    (Cell { x, y }, Near { dist, cell })
}

#[test]
fn paths_are_answered(rt: HostRuntime) -> Result<(), Fail> {
    let bitmap = drawn(&rt, rt.alloc(), 6, 4, &[(2, 1)])?;
    for (number, (places, want)) in PATHS.iter().enumerate() {
        let points = cells(rt.alloc(), places)?;
        let answer = along::<City, &Bitmap>(&mut &bitmap, Edge::Open, &points);
        match want {
            Ok(found) => same(&rt, answer, Ok(Some(beside(*found))), ("path", number)),
            Err(refusal) => same(&rt, answer, Err(*refusal), ("path", number)),
        }
        let clear = clear_of::<City, &Bitmap>(&mut &bitmap, Edge::Open, &points, 0);
        match want {
            Ok(_) => same(&rt, clear, Ok(None), ("path", number)),
            Err(refusal) => same(&rt, clear, Err(*refusal), ("path", number)),
        }
    }
    Ok(())
}

/// Obstacles of a bitmap of 300 columns and rows, all as far from the cell (150, 150), and the one
/// that comes first: that of the least column, then the nearest row, then the upper one.
#[test]
fn ties_over_tiles_are_answered(rt: HostRuntime) -> Result<(), Fail> {
    let alloc = rt.alloc();
    let cell = Cell { x: 150, y: 150 };
    let square = drawn(
        &rt,
        alloc,
        300,
        300,
        &[(250, 50), (50, 250), (250, 250), (50, 100)],
    )?;
    let answer = at::<Chess, &Bitmap>(&mut &square, Edge::Open, cell);
    let want = beside_at((150, 150), 100, (50, 100)).1;
    same(&rt, answer, Ok(Some(want)), "chess");
    let round = drawn(
        &rt,
        alloc,
        300,
        300,
        &[(230, 90), (210, 70), (70, 210), (70, 90)],
    )?;
    let answer = at::<Euclid2, &Bitmap>(&mut &round, Edge::Open, cell);
    let want = beside_at((150, 150), 10000, (70, 90)).1;
    same(&rt, answer, Ok(Some(want)), "euclid2");
    let tilted = drawn(
        &rt,
        alloc,
        300,
        300,
        &[(180, 80), (120, 220), (80, 180), (80, 120)],
    )?;
    let answer = at::<City, &Bitmap>(&mut &tilted, Edge::Open, cell);
    let want = beside_at((150, 150), 100, (80, 120)).1;
    same(&rt, answer, Ok(Some(want)), "city");
    Ok(())
}

#[test]
fn cells_are_answered(rt: HostRuntime) -> Result<(), Fail> {
    let row = drawn(&rt, rt.alloc(), 3, 1, &[(0, 0), (2, 0)])?;
    let left = Near {
        dist: 1,
        cell: Spot { x: 0, y: 0 },
    };
    let answer = at::<Euclid2, &Bitmap>(&mut &row, Edge::Open, Cell { x: 1, y: 0 });
    same(&rt, answer, Ok(Some(left)), "answer");
    let answer = at::<Euclid2, &Bitmap>(&mut &row, Edge::Open, Cell { x: 3, y: 0 });
    same(&rt, answer, Err(Refusal::OutOfRange), "answer");

    let column = drawn(&rt, rt.alloc(), 3, 2, &[(0, 0), (0, 1)])?;
    let lower = Near {
        dist: 2,
        cell: Spot { x: 0, y: 1 },
    };
    let answer = at::<Chess, &Bitmap>(&mut &column, Edge::Open, Cell { x: 2, y: 1 });
    same(&rt, answer, Ok(Some(lower)), "answer");
    Ok(())
}
