//! Maps with a wall at the limits: thin maps and the largest one, blank and full, by each number of
//! workers.

use crate::compare::{holds, same};
use crate::nearest::nearest_obstacle;
use crate::{bands, obstacle_tables};
use bits::Bitmap;
use clearance::at;
use field::{Batch, rows};
use metric::{Cell, Chess, City, Edge, Euclid2, Metric, Near, Rect, Refusal, Spot};
use std::alloc::Global;
use std::process::Abort;
use std::test::Fail;
use std::thread::Threads;

/// The sides of thin maps.
const THIN: [(u16, u16); 3] = [(1, 1), (1, 4096), (4096, 1)];

/// One cell in this many of a thin map is compared with the plain minimum.
const STRIDE: usize = 315;

/// A map of this size without obstacles, or with all cells obstacles.
fn map_of(
    rt: &impl Abort,
    alloc: Global,
    (width, height): (u16, u16),
    full: bool,
) -> Result<Bitmap, Fail> {
    assert!(rt; 1 <= width && width <= 4096);
    assert!(rt; 1 <= height && height <= 4096);
    let mut bitmap = Bitmap::blank(alloc, width, height)?;
    let all = Rect::new(0, 0, width, height).ok_or("a rectangle without cells")?;
    assert!(rt; bitmap.holds_rect(all));
    bitmap.fill(all, full);
    Ok(bitmap)
}

/// Compares some cells of a map with the plain minimum, and each number of workers with one.
fn compare<M: Metric + Sync>(
    rt: &(impl Abort + Threads + Sync),
    alloc: Global,
    bitmap: &Bitmap,
) -> Result<(), Fail> {
    let nears = rows::<M>(alloc, &Batch::new(bitmap, Edge::Wall, 0, bitmap.height()))?;
    let mut answers = nears.iter();
    for y in 0..bitmap.height() {
        for x in 0..bitmap.width() {
            let (cell, near) = (Cell { x, y }, answers.next());
            if (usize::from(x) + usize::from(y)) % STRIDE == 0 {
                assert!(rt; bitmap.holds(cell));
                let want = nearest_obstacle::<M>(bitmap, Edge::Wall, cell);
                same(rt, near, Some(&want), cell);
            }
        }
    }
    for count in [1, 2, 16] {
        bands::compare::<M>(rt, alloc, bitmap, Edge::Wall, count, 0)?;
        obstacle_tables::compare::<M>(rt, alloc, bitmap, Edge::Wall, count, 0)?;
    }
    Ok(())
}

#[test]
fn thin_maps_are_walled(rt: HostRuntime) -> Result<(), Fail> {
    for size in THIN {
        for full in [false, true] {
            let bitmap = map_of(&rt, rt.alloc(), size, full)?;
            compare::<Euclid2>(&rt, rt.alloc(), &bitmap)?;
            compare::<City>(&rt, rt.alloc(), &bitmap)?;
            compare::<Chess>(&rt, rt.alloc(), &bitmap)?;
        }
    }
    Ok(())
}

/// A cell of the largest map without obstacles, how far the frame is from it, and where: by the
/// square of the distance, and by the greater difference.
const MIDDLE: [((u16, u16), u32, (i16, i16), (i16, i16)); 4] = [
    ((2047, 2047), 2048, (-1, 2047), (-1, 2047)),
    ((2048, 2047), 2048, (2048, -1), (0, -1)),
    ((2047, 2048), 2048, (-1, 2048), (-1, 2048)),
    ((2048, 2048), 2048, (2048, 4096), (0, 4096)),
];

/// Compares a cell of two rows in the middle of the largest map, and its query.
fn expect_middle<M: Metric>(
    rt: &impl Abort,
    alloc: Global,
    bitmap: &Bitmap,
    nears: &[Option<Near>],
    (x, y): (u16, u16),
    near: Near,
) -> Result<(), Refusal> {
    assert!(rt; 2047 <= y && y <= 2048);
    let place = usize::from(y - 2047) * 4096 + usize::from(x);
    same(rt, nears.get(place), Some(&Some(near)), ("row", x, y));
    let cell = Cell { x, y };
    same(
        rt,
        at::<M, &Bitmap>(&mut &*bitmap, Edge::Wall, cell)?,
        Some(near),
        ("query", x, y),
    );
    Ok(())
}

#[test]
fn the_largest_map_is_walled(rt: HostRuntime) -> Result<(), Fail> {
    let bitmap = map_of(&rt, rt.alloc(), (4096, 4096), false)?;
    assert!(rt; bitmap.height() == 4096);
    let squares = rows::<Euclid2>(rt.alloc(), &Batch::new(&bitmap, Edge::Wall, 2047, 2049))?;
    let chess = rows::<Chess>(rt.alloc(), &Batch::new(&bitmap, Edge::Wall, 2047, 2049))?;
    for (cell, dist, (x, y), (left, top)) in MIDDLE {
        let square = Near {
            dist: 4_194_304,
            cell: Spot { x, y },
        };
        expect_middle::<Euclid2>(&rt, rt.alloc(), &bitmap, &squares, cell, square)?;
        let near = Near {
            dist,
            cell: Spot { x: left, y: top },
        };
        expect_middle::<Chess>(&rt, rt.alloc(), &bitmap, &chess, cell, near)?;
    }
    Ok(())
}

#[test]
fn the_largest_maps_are_shared(rt: HostRuntime) -> Result<(), Fail> {
    for full in [false, true] {
        let bitmap = map_of(&rt, rt.alloc(), (4096, 4096), full)?;
        for count in [1, 2, 16] {
            bands::compare::<Euclid2>(&rt, rt.alloc(), &bitmap, Edge::Wall, count, 4032)?;
            obstacle_tables::compare::<Chess>(&rt, rt.alloc(), &bitmap, Edge::Wall, count, 4080)?;
        }
        assert!(rt; bitmap.height() == 4096);
        let nears = rows::<City>(rt.alloc(), &Batch::new(&bitmap, Edge::Wall, 0, 1))?;
        same(&rt, nears.len(), 4096, "answers");
        let dist = u32::from(!full);
        let is_same = nears
            .iter()
            .all(|near| near.map(|near| near.dist) == Some(dist));
        holds(&rt, is_same, ("the first row", full));
    }
    Ok(())
}
