//! Commands of a session and of a pin that find no memory for their entry.

ghost use Rattle.std.specs.Prelude.{◌≡◌};

use crate::acts::{Act, Row, Told};
use crate::compare::same;
use crate::opened::{blank, close, hand_back, next, open, pin, unpin};
use crate::seat::Seat;
use clearance::Queried;
use map_core::Setting;
use metric::{Cell, City, Edge, Near, Refusal, Spot};
use session::Blank;
use shelf::StoreName;
use std::alloc::Global;
use std::marker::Brand;
use std::process::Abort;
use std::sync::Wait;
use std::test::Fail;

/// A map of four tiles, and three blocks more.
const SIZE: [u16; 2] = [256, 64];

const SETTING: Setting = Setting {
    blocks: 7,
    versions: 8,
    sessions: 1,
    log: 100,
    edge: Edge::Open,
};

/// The obstacle that the map opens with.
const FIRST: Cell = Cell { x: 0, y: 63 };

/// Four commands fill the capacity that the first one has reserved, so the fifth one asks for more.
/// It is a paint.
const PAINT: [Row; 6] = [
    (Act::Paint([0, 0, 1, 1]), Told::Painted(1, 1), [4, 3]),
    (Act::Publish, Told::Published(2, 1), [3, 2]),
    (Act::Paint([64, 0, 65, 1]), Told::Painted(3, 1), [4, 2]),
    (Act::Publish, Told::Published(4, 2), [3, 1]),
    (Act::Paint([128, 0, 129, 1]), Told::Painted(5, 1), [4, 1]),
    (Act::Publish, Told::Published(6, 3), [3, 0]),
];

/// The fifth one is a stamp.
const STAMP: [Row; 6] = [
    (Act::Stamp(0, 0), Told::Painted(1, 2), [4, 3]),
    (Act::Publish, Told::Published(2, 1), [3, 2]),
    (Act::Paint([64, 0, 65, 1]), Told::Painted(3, 1), [4, 2]),
    (Act::Publish, Told::Published(4, 2), [3, 1]),
    (Act::Stamp(130, 1), Told::Painted(5, 2), [4, 1]),
    (Act::Publish, Told::Published(6, 3), [3, 0]),
];

/// The first one and the fifth one are publishes.
const PUBLISH: [Row; 5] = [
    (Act::Publish, Told::Published(1, 1), [4, 3]),
    (Act::Paint([0, 0, 1, 1]), Told::Painted(2, 1), [4, 3]),
    (Act::Paint([64, 0, 65, 1]), Told::Painted(3, 1), [3, 2]),
    (Act::Paint([66, 0, 67, 1]), Told::Painted(4, 1), [2, 1]),
    (Act::Publish, Told::Published(5, 2), [2, 1]),
];

/// The first one and the fifth one are reverts.
const REVERT: [Row; 6] = [
    (Act::Revert, Told::Reverted(1), [4, 3]),
    (Act::Paint([0, 0, 1, 1]), Told::Painted(2, 1), [4, 3]),
    (Act::Publish, Told::Published(3, 1), [3, 2]),
    (Act::Paint([64, 0, 65, 1]), Told::Painted(4, 1), [4, 2]),
    (Act::Revert, Told::Reverted(5), [3, 1]),
    (Act::Publish, Told::Published(6, 2), [4, 2]),
];

/// The fifth one is a collect. No pin is held: the replaced tiles come back.
const COLLECT: [Row; 6] = [
    (Act::Paint([0, 0, 1, 1]), Told::Painted(1, 1), [4, 3]),
    (Act::Publish, Told::Published(2, 1), [3, 2]),
    (Act::Paint([64, 0, 65, 1]), Told::Painted(3, 1), [4, 2]),
    (Act::Publish, Told::Published(4, 2), [3, 1]),
    (Act::Collect, Told::Collected(5, 2, 2), [4, 1]),
    (Act::Publish, Told::Published(6, 3), [4, 3]),
];

/// The fifth one is a collect while version 0 is pinned: its tiles stay.
const COLLECT_BESIDE: [Row; 6] = [
    (Act::Paint([0, 0, 1, 1]), Told::Painted(1, 1), [4, 3]),
    (Act::Publish, Told::Published(2, 1), [3, 2]),
    (Act::Paint([64, 0, 65, 1]), Told::Painted(3, 1), [4, 2]),
    (Act::Publish, Told::Published(4, 2), [3, 1]),
    (Act::Collect, Told::Collected(5, 0, 0), [4, 1]),
    (Act::Publish, Told::Published(6, 3), [4, 1]),
];

/// A checkpoint after four entries takes no memory, and no memory is requested after it.
const CHECKPOINT: [Row; 6] = [
    (Act::Collect, Told::Collected(1, 0, 0), [4, 3]),
    (Act::Paint([0, 0, 1, 1]), Told::Painted(2, 1), [4, 3]),
    (Act::Paint([64, 0, 65, 1]), Told::Painted(3, 1), [3, 2]),
    (Act::Publish, Told::Published(4, 1), [2, 1]),
    (Act::Checkpoint, Told::Checkpointed(5), [4, 1]),
    (Act::Publish, Told::Published(6, 2), [4, 1]),
];

/// A paint that needs more blocks than are free is refused for that, whether or not there is
/// memory.
const TOO_MANY: [Row; 2] = [
    (
        Act::PaintAll,
        Told::Refused(Refusal::BlocksFull { needed: 4, free: 3 }),
        [4, 3],
    ),
    (Act::Publish, Told::Published(1, 1), [4, 3]),
];

/// Whether a pin is held meanwhile, the commands, the newest version after them, the nearest
/// obstacle of the last cell in the map's first row, and what is kept of the log.
type Game = (bool, &'static [Row], u32, u32, [i16; 2], (u32, usize));

const GAMES: [Game; 14] = [
    (false, &PAINT, 3, 127, [128, 0], (0, 6)),
    (false, &STAMP, 3, 124, [132, 1], (0, 6)),
    (false, &PUBLISH, 2, 189, [66, 0], (0, 5)),
    (false, &REVERT, 2, 255, [0, 0], (0, 6)),
    (false, &COLLECT, 3, 191, [64, 0], (0, 6)),
    (false, &CHECKPOINT, 2, 191, [64, 0], (5, 1)),
    (false, &TOO_MANY, 1, 318, [0, 63], (0, 1)),
    (true, &TOO_MANY, 1, 318, [0, 63], (0, 1)),
    (true, &PAINT, 3, 127, [128, 0], (0, 6)),
    (true, &STAMP, 3, 124, [132, 1], (0, 6)),
    (true, &PUBLISH, 2, 189, [66, 0], (0, 5)),
    (true, &REVERT, 2, 255, [0, 0], (0, 6)),
    (true, &COLLECT_BESIDE, 3, 191, [64, 0], (0, 6)),
    (true, &CHECKPOINT, 2, 191, [64, 0], (5, 1)),
];

#[test]
fn commands_are_made_again(rt: HostRuntime) -> Result<(), Fail> {
    for game in &GAMES {
        let blank = blank(&rt, rt.alloc(), SETTING, SIZE, FIRST)?;
        plays_in::<Brand, _>(&rt, rt.alloc(), blank, *game)?;
    }
    Ok(())
}

/// Plays a game on a store opened from this.
fn plays_in<Id: StoreName, R: Wait + Abort + Print>(
    rt: &R,
    alloc: Global,
    blank: Blank,
    game: Game,
) -> Result<(), Fail>
    requires { blank ≡ Id.store }
{
    let (is_held, rows, version, dist, [x, y], left) = game;
    let (store, mut sessions) = open::<Id, R>(rt, alloc, blank)?;
    let mut seat = Seat::take(rt, alloc, next(rt, &mut sessions), is_held);
    seat.play(rt, alloc, &store, rows);
    let mut pinned = pin(rt, alloc, seat.leave(rt));
    let near = Near {
        dist,
        cell: Spot { x, y },
    };
    same(rt, pinned.version(), version, "the newest version");
    let last = pinned.at::<City>(alloc, Cell { x: 255, y: 0 });
    same(rt, last, Ok(Some(near)), "the nearest obstacle");
    hand_back(rt, &mut sessions, unpin(rt, pinned));
    same(rt, close(rt, store, sessions), left, "the log");
    Ok(())
}
