//! The versions that a collect keeps, at values from outside.

use crate::compare::same;
use epoch::kept_after;
use map_core::{Kept, Seen};

/// The first four slots, the newest version, what readers have announced, and the slots after a
/// collect. A slot has its version plus 1, or 0.
const SETS: [([u32; 4], u32, &[Option<Seen>], [u32; 4]); 10] = [
    ([3, 4, 0, 2], 3, &[], [0, 4, 0, 0]),
    ([1, 0, 0, 0], 0, &[None, None, None], [1, 0, 0, 0]),
    ([1, 2, 3, 4], 3, &[None, None, None], [0, 0, 0, 4]),
    (
        [1, 2, 3, 4],
        3,
        &[Some(Seen::Exact(0)), None, None],
        [1, 0, 0, 4],
    ),
    (
        [1, 2, 3, 4],
        3,
        &[None, Some(Seen::From(1)), None],
        [0, 2, 3, 4],
    ),
    (
        [1, 2, 3, 4],
        3,
        &[Some(Seen::From(2)), None, Some(Seen::Exact(0))],
        [1, 0, 3, 4],
    ),
    (
        [1, 2, 3, 4],
        3,
        &[Some(Seen::Exact(1)), Some(Seen::Exact(1)), None],
        [0, 2, 0, 4],
    ),
    (
        [9, 0, 3, 6],
        8,
        &[Some(Seen::From(3)), None, None],
        [9, 0, 0, 6],
    ),
    (
        [9, 0, 3, 6],
        8,
        &[Some(Seen::Exact(2)), None, Some(Seen::From(8))],
        [9, 0, 3, 0],
    ),
    (
        [9, 0, 3, 6],
        8,
        &[Some(Seen::Exact(8)), Some(Seen::From(0)), None],
        [9, 0, 3, 6],
    ),
];

/// The versions in these first slots; the others are free.
pub const fn kept(first: [u32; 4]) -> Kept {
    let mut slots = [0; 64];
    slots[0] = first[0];
    slots[1] = first[1];
    slots[2] = first[2];
    slots[3] = first[3];
    Kept { slots }
}

#[test]
fn a_collect_keeps_what_is_asked_for(rt: HostRuntime) {
    for (old, newest, announced, new) in SETS {
        let found = kept_after(&kept(old), newest, announced);
        same(&rt, found, kept(new), (old, newest));
    }
}
