//! Calls that take no memory, since capacity was reserved before: of an arena, of a row of
//! distances, and of the versions that a collect keeps.

ghost use Rattle.std.specs.Prelude.{◌≡◌, ◌∷◌, IfOk};
ghost use Rattle.std.specs.List.{range_with_len};

use crate::compare::{holds, same};
use crate::opened::drawn;
use crate::told::{Call, begin, end};
use arena::{Arena, Tile};
use bits::Bitmap;
use column::ColumnTable;
use envelope::{Stack, row};
use epoch::kept_after;
use map_core::{Kept, Seen};
use metric::{Cell, Edge, Euclid2, Near, NoMemory, Spot};
use std::alloc::Global;
use std::process::Abort;
use std::test::Fail;

/// Takes the front block, whose number is known.
fn take<R: Abort + Print>(rt: &R, arena: &mut Arena, number: u32) -> Tile
    ensures homes { (result.home ≡ arena.old.home) × (arena.new.home ≡ arena.old.home) }
    ensures free { arena.old.free ≡ result.number ∷ arena.new.free }
{
    let call: Call = ("Arena", "take");
    begin(rt, call);
    let front = arena.take();
    end(rt, call, false);
    match front {
        Some(tile) => {
            same(rt, tile.number(), number, "the front");
            tile
        }
        None => panic!(rt; "no free block"),
    }
}

/// Gives a block back.
fn give(rt: &impl Print, arena: &mut Arena, tile: Tile)
    requires { tile.home ≡ arena.old.home }
    ensures { (arena.new.home ≡ arena.old.home) × (arena.new.free ≡ tile.number ∷ arena.old.free) }
{
    let call: Call = ("Arena", "give");
    begin(rt, call);
    arena.give(tile);
    end(rt, call, false);
}

/// An arena of three blocks, retried if there was no memory.
fn three(alloc: Global) -> Result<Arena, NoMemory>
    ensures { IfOk result (λ a. (a.home.count ≡ 3) × (a.free ≡ range_with_len 0 3)) }
{
    match Arena::new(alloc, 3) {
        Ok(arena) => Ok(arena),
        Err(_) => Arena::new(alloc, 3),
    }
}

#[test]
fn blocks_are_taken_and_given_without_memory(rt: HostRuntime) -> Result<(), Fail> {
    let mut arena = three(rt.alloc())?;
    let zero = take(&rt, &mut arena, 0);
    let one = take(&rt, &mut arena, 1);
    give(&rt, &mut arena, zero);
    let zero = take(&rt, &mut arena, 0);
    let two = take(&rt, &mut arena, 2);
    match arena.take() {
        None => {}
        Some(_) => panic!(rt; "a fourth block"),
    }
    give(&rt, &mut arena, one);
    give(&rt, &mut arena, zero);
    give(&rt, &mut arena, two);
    holds(&rt, arena.free_len() == 3, "all are back");
    let two = take(&rt, &mut arena, 2);
    let zero = take(&rt, &mut arena, 0);
    let one = take(&rt, &mut arena, 1);
    give(&rt, &mut arena, one);
    give(&rt, &mut arena, zero);
    give(&rt, &mut arena, two);
    arena.end();
    Ok(())
}

#[test]
fn a_collect_keeps_without_memory(rt: HostRuntime) {
    let call: Call = ("epoch", "kept_after");
    let mut kept = Kept { slots: [0; 64] };
    kept.slots[0] = 1;
    kept.slots[1] = 2;
    kept.slots[2] = 3;
    begin(&rt, call);
    let found = kept_after(&kept, 2, &[Some(Seen::Exact(0)), None]);
    end(&rt, call, false);
    kept.slots[1] = 0;
    same(&rt, found, kept, "an exact pin and newest");
}

/// For each edge the nearest obstacle of the map's first cell.
const NEARS: [(Edge, Near); 2] = [
    (
        Edge::Open,
        Near {
            dist: 25,
            cell: Spot { x: 3, y: 4 },
        },
    ),
    (
        Edge::Wall,
        Near {
            dist: 1,
            cell: Spot { x: -1, y: 0 },
        },
    ),
];

#[test]
fn a_row_is_worked_without_memory(rt: HostRuntime) -> Result<(), Fail> {
    let map = drawn(&rt, rt.alloc(), [64, 64], Cell { x: 3, y: 4 })?;
    for (edge, near) in NEARS {
        works(&rt, rt.alloc(), &map, edge, near)?;
    }
    Ok(())
}

/// Computes the first row of a map whose first cell has this nearest obstacle. What the call is
/// given is retried if there was no memory.
fn works<R: Abort + Print>(
    rt: &R,
    alloc: Global,
    map: &Bitmap,
    edge: Edge,
    near: Near,
) -> Result<(), Fail> {
    let call: Call = ("envelope", "row");
    let table = match ColumnTable::of(alloc, map, edge) {
        Ok(table) => table,
        Err(_) => ColumnTable::of(alloc, map, edge)?,
    };
    // Two more than a row has cells, for those of the frame.
    let width = table.width();
    let mut stack = match Stack::new(alloc, width + 2) {
        Ok(stack) => stack,
        Err(_) => Stack::new(alloc, width + 2)?,
    };
    let mut line = match vec![in alloc; None; usize::from(width)] {
        Ok(line) => line,
        Err(_) => vec![in alloc; None; usize::from(width)]?,
    };
    assert!(rt; line.len() == usize::from(width));
    assert!(rt; 0 < table.height());
    begin(rt, call);
    row::<Euclid2>(&table, 0, &mut stack, line.as_mut_slice());
    end(rt, call, false);
    let first = line.first().copied();
    same(rt, first, Some(Some(near)), edge);
    Ok(())
}
