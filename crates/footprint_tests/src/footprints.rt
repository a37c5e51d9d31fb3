//! Footprints: worked polygons on a map with one obstacle, and rings that aren't polygons.

use bits::Bitmap;
use footprint::{Corner, PolygonFault, fault_of, hits};
use metric::{Cell, Edge};
use std::process::Abort;
use std::test::Fail;

/// Steps of a cell.
const CELL: i32 = 65536;

/// Polygons, in steps, and whether they hit the obstacle, without a wall and with one.
const POLYGONS: [(&[(i32, i32)], bool, bool); 9] = [
    // To touch the obstacle's left side isn't to hit it; to reach a step farther is.
    (
        &[(0, 0), (2 * CELL, 0), (2 * CELL, 2 * CELL), (0, 2 * CELL)],
        false,
        false,
    ),
    (
        &[
            (0, 0),
            (2 * CELL + 1, 0),
            (2 * CELL + 1, 2 * CELL),
            (0, 2 * CELL),
        ],
        true,
        true,
    ),
    // A slanted side that touches its lower left corner, and one that is a step farther right.
    (
        &[(CELL, CELL), (3 * CELL, 3 * CELL), (CELL, 3 * CELL)],
        false,
        false,
    ),
    (
        &[
            (CELL + 1, CELL),
            (3 * CELL + 1, 3 * CELL),
            (CELL + 1, 3 * CELL),
        ],
        true,
        true,
    ),
    // A polygon in the obstacle's square, and one around the map.
    (
        &[(150_000, 80_000), (160_000, 80_000), (155_000, 90_000)],
        true,
        true,
    ),
    (
        &[
            (-CELL, -CELL),
            (6 * CELL, -CELL),
            (6 * CELL, 5 * CELL),
            (-CELL, 5 * CELL),
        ],
        true,
        true,
    ),
    // The last row of the map, up to its edge, and a step over it.
    (
        &[
            (0, 3 * CELL),
            (5 * CELL, 3 * CELL),
            (5 * CELL, 4 * CELL),
            (0, 4 * CELL),
        ],
        false,
        false,
    ),
    (
        &[
            (0, 3 * CELL),
            (5 * CELL, 3 * CELL),
            (5 * CELL, 4 * CELL + 1),
            (0, 4 * CELL),
        ],
        false,
        true,
    ),
    // Off the map.
    (&[(-900, -900), (-800, -900), (-800, -800)], false, true),
];

/// Rings, and what is wrong with them.
const RINGS: [(&[(i32, i32)], Option<PolygonFault>); 7] = [
    (&[(0, 0), (9, 0), (9, 9)], None),
    (&[(0, 0), (9, 0)], Some(PolygonFault::Number)),
    (
        &[(0, 0), (1_073_741_824, 0), (9, 9)],
        Some(PolygonFault::Far),
    ),
    // Turned the other way, flat, with a corner on a side, twice round.
    (&[(9, 9), (9, 0), (0, 0)], Some(PolygonFault::Bent)),
    (&[(0, 0), (9, 0), (3, 0)], Some(PolygonFault::Bent)),
    (&[(0, 0), (5, 0), (9, 0), (9, 9)], Some(PolygonFault::Bent)),
    (
        &[(0, -100), (59, 81), (-95, -31), (95, -31), (-59, 81)],
        Some(PolygonFault::Bent),
    ),
];

/// The corners of these points.
fn corners_of(rt: HostRuntime, points: &[(i32, i32)]) -> Result<Vec<Corner>, Fail> {
    let mut corners = Vec::new(rt.alloc());
    for (x, y) in points {
        corners.push(Corner { x: *x, y: *y })?;
    }
    Ok(corners)
}

#[test]
fn polygons_hit_what_they_meet(rt: HostRuntime) -> Result<(), Fail> {
    let mut map = Bitmap::blank(rt.alloc(), 5, 4)?;
    map.set(Cell { x: 2, y: 1 }, true);
    for (place, (points, open, wall)) in POLYGONS.iter().enumerate() {
        let corners = corners_of(rt, points)?;
        let ring = corners.as_slice();
        assert!(rt; fault_of(ring).is_none());
        let hit_open = hits::<&Bitmap>(&mut &map, Edge::Open, ring);
        let hit_wall = hits::<&Bitmap>(&mut &map, Edge::Wall, ring);
        assert!(rt; hit_open == *open, "polygon {place} on an open map");
        assert!(rt; hit_wall == *wall, "polygon {place} with a wall");
    }
    Ok(())
}

#[test]
fn rings_are_polygons(rt: HostRuntime) -> Result<(), Fail> {
    for (place, (points, fault)) in RINGS.iter().enumerate() {
        let corners = corners_of(rt, points)?;
        assert!(rt; fault_of(corners.as_slice()) == *fault, "ring {place}");
    }
    Ok(())
}
