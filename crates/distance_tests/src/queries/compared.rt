//! The search compared with the plain program, on random maps.

use super::slow::{Answers, cells_of_path, cells_of_rect};
use crate::compare::same;
use crate::draws::Draws;
use bits::Bitmap;
use clearance::{along, at, clear_of, least_in};
use metric::{Cell, Chess, City, Edge, Euclid2, Metric, Rect};
use std::alloc::Global;
use std::process::Abort;
use std::test::Fail;

/// Sides of maps: small ones, and those around the ends of one and of two words.
const SIDES: [u16; 12] = [1, 2, 3, 7, 20, 62, 63, 64, 65, 66, 127, 129];

/// Widths and heights at both ends of the range, and heights beyond the rows that are searched one
/// by one.
const LONG: [(u16, u16); 7] = [
    (1, 1),
    (4096, 1),
    (1, 4096),
    (4096, 3),
    (3, 4096),
    (65, 700),
    (700, 300),
];

/// One cell in this many is an obstacle.
const RARE: [u16; 8] = [1, 2, 4, 15, 60, 300, 2000, 20000];

/// A bitmap with the answers of all its cells.
#[derive(Drop)]
struct Case<'a> {
    bitmap: &'a Bitmap,
    answers: &'a Answers,
}

/// Cells, one by one.
fn compare_cells<M: Metric>(
    rt: &impl Abort,
    alloc: Global,
    case: &Case<'_>,
    draws: &mut Draws,
) -> Result<(), Fail> {
    for _ in 0..12 {
        let cell = draws.cell(case.bitmap);
        let answer = at::<M, &Bitmap>(&mut &*case.bitmap, Edge::Open, cell)?;
        same(rt, answer, case.answers.at(cell), cell);
    }
    Ok(())
}

/// A rectangle.
fn compare_rect<M: Metric>(
    rt: &impl Abort,
    alloc: Global,
    case: &Case<'_>,
    rect: Rect,
) -> Result<(), Fail> {
    let cells = cells_of_rect(alloc, rect)?;
    let answer = least_in::<M, &Bitmap>(&mut &*case.bitmap, Edge::Open, rect)?;
    same(rt, answer, case.answers.least(&cells), rect);
    Ok(())
}

/// A path, by its least distance, and by limits below, at and above the distance of one of its
/// cells.
fn compare_path<M: Metric>(
    rt: &impl Abort,
    alloc: Global,
    case: &Case<'_>,
    draws: &mut Draws,
) -> Result<(), Fail> {
    let count = draws.below(7) + 1;
    let points = draws.path(alloc, case.bitmap, count)?;
    let cells = cells_of_path(alloc, &points)?;
    let answer = along::<M, &Bitmap>(&mut &*case.bitmap, Edge::Open, &points)?;
    same(rt, answer, case.answers.least(&cells), &points);
    let some = draws.cell(case.bitmap);
    let dist = case.answers.at(some).map_or(3, |near| near.dist);
    for d in [0, dist, dist.saturating_add(1), u32::MAX] {
        let answer = clear_of::<M, &Bitmap>(&mut &*case.bitmap, Edge::Open, &points, d)?;
        let want = case.answers.first_below(&cells, d);
        same(rt, answer, want, ("clear of", &points, d));
    }
    Ok(())
}

/// All queries on one map by one metric.
fn compare<M: Metric>(
    rt: &impl Abort,
    alloc: Global,
    bitmap: &Bitmap,
    draws: &mut Draws,
) -> Result<(), Fail> {
    let answers = Answers::of::<M>(alloc, bitmap)?;
    let case = Case {
        bitmap,
        answers: &answers,
    };
    compare_cells::<M>(rt, alloc, &case, draws)?;
    if let Some(whole) = Rect::new(0, 0, bitmap.width(), bitmap.height()) {
        compare_rect::<M>(rt, alloc, &case, whole)?;
    }
    for _ in 0..2 {
        if let Some(rect) = draws.rect(bitmap) {
            compare_rect::<M>(rt, alloc, &case, rect)?;
        }
        compare_path::<M>(rt, alloc, &case, draws)?;
    }
    Ok(())
}

/// All queries on a map of this size, by each metric.
fn compare_map(
    rt: &impl Abort,
    alloc: Global,
    (width, height): (u16, u16),
    draws: &mut Draws,
) -> Result<(), Fail> {
    let rare = u64::from(draws.one_of(&RARE));
    assert!(rt; 0 < rare);
    assert!(rt; 1 <= width && width <= 4096);
    assert!(rt; 1 <= height && height <= 4096);
    let bitmap = draws.map(alloc, width, height, rare)?;
    compare::<Euclid2>(rt, alloc, &bitmap, draws)?;
    compare::<City>(rt, alloc, &bitmap, draws)?;
    compare::<Chess>(rt, alloc, &bitmap, draws)
}

#[test]
fn maps_are_answered_as_by_all_cells(rt: HostRuntime) -> Result<(), Fail> {
    let mut draws = Draws::new(20261123);
    for _ in 0..1200 {
        let size = (draws.one_of(&SIDES), draws.one_of(&SIDES));
        compare_map(&rt, rt.alloc(), size, &mut draws)?;
    }
    Ok(())
}

/// Marks each tile of the map as one that may have an obstacle. Its cells stay as they are.
fn mark_all(bitmap: &mut Bitmap) {
    for y in (0..bitmap.height()).step_by(64) {
        for x in (0..bitmap.width()).step_by(64) {
            let cell = Cell { x, y };
            let black = bitmap.holds(cell) && bitmap.get(cell);
            for value in [true, black] {
                if bitmap.holds(cell) {
                    bitmap.set(cell, value);
                }
            }
        }
    }
}

#[test]
fn stale_marks_hide_nothing(rt: HostRuntime) -> Result<(), Fail> {
    let mut draws = Draws::new(64);
    for (width, height) in [(130, 130), (65, 200), (300, 129)] {
        for rare in [300, 20000] {
            let mut bitmap = draws.map(rt.alloc(), width, height, rare)?;
            mark_all(&mut bitmap);
            compare::<Euclid2>(&rt, rt.alloc(), &bitmap, &mut draws)?;
            compare::<City>(&rt, rt.alloc(), &bitmap, &mut draws)?;
            compare::<Chess>(&rt, rt.alloc(), &bitmap, &mut draws)?;
        }
    }
    Ok(())
}

#[test]
fn long_maps_are_answered_as_by_all_cells(rt: HostRuntime) -> Result<(), Fail> {
    let mut draws = Draws::new(4096);
    for _ in 0..4 {
        for size in LONG {
            compare_map(&rt, rt.alloc(), size, &mut draws)?;
        }
    }
    Ok(())
}
