//! Queries at the limits: the largest map and its last cell, the longest path, and heights around
//! one where an implementation might change its way.

use super::{beside_at, drawn};
use crate::compare::same;
use bits::Bitmap;
use clearance::{along, at, clear_of, least_in};
use metric::{Cell, Chess, City, Edge, Euclid2, Metric, Rect};
use std::alloc::Global;
use std::process::Abort;
use std::test::Fail;

/// The last row and the last column of the largest map.
const LAST: u16 = 4095;

/// Heights where an implementation might give up, or change its way.
const HEIGHTS: [u16; 6] = [1, 31, 32, 33, 129, 4096];

/// Each call at the last cell of a map whose only obstacle is its first cell, at this distance.
fn ask_at_last<M: Metric>(
    rt: &impl Abort,
    alloc: Global,
    bitmap: &Bitmap,
    last: Cell,
    dist: u32,
) -> Result<(), Fail> {
    let (cell, near) = beside_at((last.x, last.y), dist, (0, 0));
    same(
        rt,
        at::<M, &Bitmap>(&mut &*bitmap, Edge::Open, last),
        Ok(Some(near)),
        "at",
    );
    assert!(rt; last.x < 4096 && last.y < 4096);
    let corner = Rect::new(last.x, last.y, last.x + 1, last.y + 1).expect(rt, "it has a cell");
    same(
        rt,
        least_in::<M, &Bitmap>(&mut &*bitmap, Edge::Open, corner),
        Ok(Some((cell, near))),
        "least in",
    );
    let stay = [last; 1000];
    same(
        rt,
        along::<M, &Bitmap>(&mut &*bitmap, Edge::Open, &stay),
        Ok(Some((cell, near))),
        "along",
    );
    let found = clear_of::<M, &Bitmap>(&mut &*bitmap, Edge::Open, &stay, dist.saturating_add(1));
    same(rt, found, Ok(Some((cell, near))), "found");
    same(
        rt,
        clear_of::<M, &Bitmap>(&mut &*bitmap, Edge::Open, &stay, dist),
        Ok(None),
        "clear of",
    );
    Ok(())
}

#[test]
fn the_last_cell_of_the_largest_map_is_answered(rt: HostRuntime) -> Result<(), Fail> {
    let bitmap = drawn(&rt, rt.alloc(), 4096, 4096, &[(0, 0)])?;
    let last = Cell { x: LAST, y: LAST };
    ask_at_last::<Euclid2>(&rt, rt.alloc(), &bitmap, last, 33_538_050)?;
    ask_at_last::<City>(&rt, rt.alloc(), &bitmap, last, 8190)?;
    ask_at_last::<Chess>(&rt, rt.alloc(), &bitmap, last, 4095)
}

#[test]
fn the_first_cell_is_answered_from_the_last(rt: HostRuntime) -> Result<(), Fail> {
    let bitmap = drawn(&rt, rt.alloc(), 4096, 4096, &[(LAST, LAST)])?;
    let whole = Rect::new(0, 0, 4096, 4096).expect(&rt, "it has a cell");
    let found = beside_at((LAST, LAST), 0, (LAST, LAST));
    same(
        &rt,
        least_in::<City, &Bitmap>(&mut &bitmap, Edge::Open, whole),
        Ok(Some(found)),
        "least in",
    );
    let (_, near) = beside_at((0, 0), 8190, (LAST, LAST));
    let first = Cell { x: 0, y: 0 };
    same(
        &rt,
        at::<City, &Bitmap>(&mut &bitmap, Edge::Open, first),
        Ok(Some(near)),
        "at",
    );
    Ok(())
}

#[test]
fn heights_are_answered_alike(rt: HostRuntime) -> Result<(), Fail> {
    for height in HEIGHTS {
        let bitmap = drawn(&rt, rt.alloc(), 2, height, &[(0, 0)])?;
        assert!(rt; 1 <= height);
        let last = Cell {
            x: 1,
            y: height - 1,
        };
        ask_at_last::<City>(&rt, rt.alloc(), &bitmap, last, u32::from(height))?;
        ask_at_last::<Chess>(&rt, rt.alloc(), &bitmap, last, u32::from(last.y).max(1))?;
    }
    Ok(())
}

#[test]
fn the_longest_path_is_answered(rt: HostRuntime) -> Result<(), Fail> {
    let bitmap = drawn(&rt, rt.alloc(), 4096, 4096, &[(LAST, 0)])?;
    let mut points = [Cell { x: 0, y: LAST }; 1000];
    for (index, point) in points.iter_mut().enumerate() {
        if index % 2 == 1 {
            point.x = LAST - 1;
        }
    }
    let found = beside_at((LAST - 1, LAST), 4096, (LAST, 0));
    let answer = along::<City, &Bitmap>(&mut &bitmap, Edge::Open, &points);
    same(&rt, answer, Ok(Some(found)), "answer");
    let answer = clear_of::<City, &Bitmap>(&mut &bitmap, Edge::Open, &points, 4097);
    same(&rt, answer, Ok(Some(found)), "answer");
    Ok(())
}
