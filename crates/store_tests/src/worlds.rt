//! The core over events, where no clause says it: that memory is found, and worked runs of events
//! with answers from outside.

use crate::compare::same;
use crate::keeping::kept;
use crate::opened::{Spotted, rect, spotted};
use map_core::{Command, Event, Reply, Setting, StepReply, World};
use metric::Edge;
use std::alloc::Global;
use std::process::Abort;
use std::test::Fail;

/// Three blocks, two versions, one reader and ten entries.
pub const SMALL: Setting = Setting {
    blocks: 3,
    versions: 2,
    sessions: 1,
    log: 10,
    edge: Edge::Open,
};

/// What happens in a run.
#[derive(Clone, Copy)]
enum Step {
    /// This reader announces, and the version.
    Announces(u32, u32),
    /// It loads NOW: the entries and the newest version.
    Loads(u32, u32, u32),
    /// It reads a position: its block.
    Finds(u32, u32, u32),
    /// It reads a row of a block: its word.
    Reads(u32, u32, u32, u64),
    Leaves(u32),
    /// A paint of the rectangle with these corners, its place, and how many cells change.
    Paints([u16; 4], u32, u32),
    /// A stamp of this map with its first cell here, its place, and how many cells change.
    Stamps(u16, u16, Spotted, u32, u32),
    /// A publish with this many steps, its place, and the version.
    Publishes(u32, u32, u32),
    /// A collect with this many steps, which scans these words; its place, the least version kept,
    /// how many blocks came back, and the first slots.
    Collects(u32, (u64, u64), (u32, u32, u32), [u32; 4]),
    /// A revert, and its place.
    Reverts(u32),
}

/// A map with obstacles at `(17, 0)` and `(64, 1)`, just opened.
const OPENED: [Step; 10] = [
    Step::Announces(0, 0),
    Step::Loads(0, 0, 0),
    Step::Finds(0, 0, 0),
    Step::Reads(0, 0, 0, 1 << 17),
    Step::Reads(0, 0, 1, 0),
    Step::Finds(0, 1, 1),
    Step::Reads(0, 1, 0, 0),
    Step::Reads(0, 1, 1, 1),
    Step::Reads(0, 1, 63, 0),
    Step::Publishes(3, 1, 1),
];

/// Blocks are freed to the front, and a held version stays.
const GIVEN: [Step; 19] = [
    Step::Paints([0, 0, 192, 1], 1, 192),
    Step::Reverts(2),
    Step::Paints([0, 0, 1, 1], 3, 1),
    Step::Publishes(68, 4, 1),
    Step::Loads(0, 4, 1),
    Step::Announces(0, 1),
    Step::Loads(0, 4, 1),
    Step::Finds(0, 0, 5),
    Step::Finds(0, 1, 1),
    Step::Collects(2, (3, 0), (5, 1, 1), [0, 2, 0, 0]),
    Step::Paints([191, 0, 192, 1], 6, 1),
    Step::Publishes(68, 7, 2),
    Step::Finds(0, 2, 2),
    Step::Leaves(0),
    Step::Loads(0, 7, 2),
    Step::Announces(0, 2),
    Step::Loads(0, 7, 2),
    Step::Finds(0, 2, 0),
    Step::Reads(0, 0, 0, 1 << 63),
];

/// A stamp sets cells and clears them.
const STAMPED: [Step; 8] = [
    Step::Stamps(62, 62, ([2, 2], 1), 1, 4),
    Step::Stamps(61, 61, ([2, 2], 0), 2, 1),
    Step::Publishes(66, 3, 1),
    Step::Loads(0, 3, 1),
    Step::Announces(0, 1),
    Step::Loads(0, 3, 1),
    Step::Reads(0, 1, 63, 3 << 62),
    Step::Reads(0, 1, 62, 1 << 63),
];

/// A collect scans two readers, the second of which has announced version 0.
const SCANNED: [Step; 2] = [
    Step::Announces(1, 0),
    Step::Collects(3, (0, 1), (1, 0, 0), [1, 0, 0, 0]),
];

/// The last cell of the largest map, and the last reader of the most.
const LARGEST: [Step; 6] = [
    Step::Paints([4_095, 4_095, 4_096, 4_096], 1, 1),
    Step::Publishes(4_161, 2, 1),
    Step::Announces(63, 0),
    Step::Loads(63, 2, 1),
    Step::Finds(63, 4_095, 4_096),
    Step::Reads(63, 4_096, 63, 1 << 63),
];

/// A map, a setting for it, and a run.
const RUNS: [(Spotted, Setting, &[Step]); 5] = [
    (([65, 2], 80), SMALL, &OPENED),
    (([192, 1], 0), Setting { blocks: 6, ..SMALL }, &GIVEN),
    (([64, 64], 0), SMALL, &STAMPED),
    (
        ([64, 64], 0),
        Setting {
            sessions: 2,
            ..SMALL
        },
        &SCANNED,
    ),
    (
        ([4_096, 4_096], 0),
        Setting {
            blocks: 4_097,
            sessions: 64,
            ..SMALL
        },
        &LARGEST,
    ),
];

/// A reader's act in a step of a run, with its answer; or a command's order, its number of steps,
/// the words that these scan, and its answer.
enum Turn {
    Read(Event, StepReply),
    Ordered(Command, u32, Option<(u64, u64)>, Reply),
}

/// What happens in a step of a run.
fn turn_of(rt: &impl Abort, alloc: Global, step: Step) -> Result<Turn, Fail> {
    Ok(match step {
        Step::Announces(reader, version) => Turn::Read(
            Event::Announce { reader },
            StepReply::Announced { version },
        ),
        Step::Loads(reader, place, version) => Turn::Read(
            Event::Load { reader },
            StepReply::Now { place, version },
        ),
        Step::Finds(reader, position, block) => Turn::Read(
            Event::LookMap { reader, position },
            StepReply::Block { block },
        ),
        Step::Reads(reader, block, row, word) => Turn::Read(
            Event::LookTile { reader, block, row },
            StepReply::Word { word },
        ),
        Step::Leaves(reader) => Turn::Read(Event::Leave { reader }, StepReply::Left),
        Step::Paints(corners, place, changed) => {
            let rect = rect(rt, corners);
            Turn::Ordered(
                Command::Paint { rect, black: true },
                1,
                None,
                Reply::Painted { place, changed },
            )
        }
        Step::Stamps(x, y, map, place, changed) => {
            let bitmap = spotted(rt, alloc, map)?;
            Turn::Ordered(
                Command::Stamp { x, y, bitmap },
                1,
                None,
                Reply::Painted { place, changed },
            )
        }
        Step::Publishes(steps, place, version) => Turn::Ordered(
            Command::Publish,
            steps,
            None,
            Reply::Published { place, version },
        ),
        Step::Collects(steps, words, (place, floor, freed), slots) => {
            let kept = kept(slots);
            Turn::Ordered(
                Command::Collect,
                steps,
                Some(words),
                Reply::Collected {
                    place,
                    floor,
                    freed,
                    kept,
                },
            )
        }
        Step::Reverts(place) => Turn::Ordered(Command::Revert, 1, None, Reply::Reverted { place }),
    })
}

/// Makes it happen in a world.
fn play(rt: &impl Abort, alloc: Global, world: &mut World, turn: Turn, case: (usize, usize)) {
    let (command, steps, words, reply) = match turn {
        Turn::Read(event, reply) => return same(rt, world.step(alloc, &event), Ok(reply), case),
        Turn::Ordered(command, steps, words, reply) => (command, steps, words, reply),
    };
    let ordered = world.step(alloc, &Event::Order { command });
    same(rt, ordered, Ok(StepReply::Ordered { steps }), case);
    for number in 1..steps {
        same(rt, world.steps_left(), steps - number + 1, case);
        let want = match words {
            Some((first, second)) => StepReply::Scanned {
                reader: number - 1,
                word: if number == 1 { first } else { second },
            },
            None => StepReply::Written,
        };
        same(rt, world.step(alloc, &Event::Keep), Ok(want), case);
    }
    same(rt, world.steps_left(), 1, case);
    let last = world.step(alloc, &Event::Keep);
    same(rt, last, Ok(StepReply::Committed { reply }), case);
    same(rt, world.steps_left(), 0, case);
}

#[test]
fn worked_runs(rt: HostRuntime) -> Result<(), Fail> {
    for (run, (map, setting, steps)) in RUNS.iter().enumerate() {
        let bitmap = spotted(&rt, rt.alloc(), *map)?;
        let mut world = World::open(rt.alloc(), *setting, &bitmap)?;
        for (number, step) in steps.iter().enumerate() {
            let turn = turn_of(&rt, rt.alloc(), *step)?;
            play(&rt, rt.alloc(), &mut world, turn, (run, number));
        }
    }
    Ok(())
}
