//! Worked runs of sessions whose blocks are counted after each command. The maps have more tiles
//! than free blocks, so that a paint of the whole map is refused, and reports how many are free.

use crate::sessions::acts::{A, Act, B, Row, Told};
use crate::sessions::players::Game;
use map_core::Setting;
use metric::{Edge, Refusal};

/// A map of two tiles with one free block.
const SPARE: Setting = Setting {
    blocks: 3,
    versions: 2,
    sessions: 3,
    log: 10,
    edge: Edge::Open,
};

/// A paint finds no block until a collect gives one back.
const FREED: [Row; 5] = [
    (A, Act::Paint([0, 0, 1, 1]), Told::Painted(1, 1)),
    (A, Act::Publish, Told::Published(2, 1)),
    (A, Act::Paint([1, 0, 2, 1]), Told::Full(1, 0)),
    (A, Act::Collect, Told::Collected(3, 1, 1)),
    (A, Act::Paint([1, 0, 2, 1]), Told::Painted(4, 1)),
];

/// The tiles that a command needs are counted, without those that the draft has already.
const POSITIONS: [Row; 6] = [
    (A, Act::Paint([0, 0, 128, 1]), Told::Full(2, 1)),
    (A, Act::Paint([0, 0, 1, 1]), Told::Painted(1, 1)),
    (A, Act::Paint([0, 0, 2, 1]), Told::Painted(2, 1)),
    (A, Act::Paint([64, 0, 65, 1]), Told::Full(1, 0)),
    (A, Act::Revert, Told::Reverted(3)),
    (A, Act::Paint([64, 0, 65, 1]), Told::Painted(4, 1)),
];

/// Three versions in two slots.
const AGAIN: [Row; 9] = [
    (A, Act::Paint([0, 0, 1, 1]), Told::Painted(1, 1)),
    (A, Act::Publish, Told::Published(2, 1)),
    (A, Act::Collect, Told::Collected(3, 1, 1)),
    (A, Act::Clear([0, 0, 1, 1]), Told::Painted(4, 1)),
    (A, Act::Publish, Told::Published(5, 2)),
    (A, Act::Collect, Told::Collected(6, 2, 1)),
    (A, Act::Paint([0, 0, 1, 1]), Told::Painted(7, 1)),
    (A, Act::Publish, Told::Published(8, 3)),
    (A, Act::Collect, Told::Collected(9, 3, 1)),
];

/// Of four tiles the first changes before version 1, the next two before version 2, and the third
/// again after that. Meanwhile another session has version 1 pinned.
const TAKEN: [Row; 12] = [
    (A, Act::Paint([0, 0, 2, 1]), Told::Painted(1, 2)),
    (A, Act::Publish, Told::Published(2, 1)),
    (B, Act::Pin, Told::Version(1)),
    (A, Act::Paint([100, 0, 130, 1]), Told::Painted(3, 30)),
    (A, Act::Publish, Told::Published(4, 2)),
    (A, Act::Paint([191, 0, 192, 1]), Told::Full(1, 0)),
    (A, Act::Publish, Told::Refused(Refusal::VersionsFull)),
    (A, Act::Collect, Told::Collected(5, 1, 1)),
    (A, Act::Paint([191, 0, 192, 1]), Told::Painted(6, 1)),
    (B, Act::Unpin, Told::Nothing),
    (A, Act::Collect, Told::Collected(7, 2, 2)),
    (A, Act::Revert, Told::Reverted(8)),
];

/// A session that has done nothing collects.
const UNSEEN: [Row; 3] = [
    (A, Act::Paint([0, 0, 1, 1]), Told::Painted(1, 1)),
    (A, Act::Publish, Told::Published(2, 1)),
    (B, Act::Collect, Told::Collected(3, 1, 1)),
];

/// A map whose only block is version 0's.
const CLEARED: [Row; 2] = [
    (A, Act::Clear([0, 0, 64, 64]), Told::Painted(1, 0)),
    (
        A,
        Act::Paint([63, 63, 65, 64]),
        Told::Refused(Refusal::OutOfRange),
    ),
];

/// What a publish after refused commands shows: none of their cells.
const REFUSED: [Row; 9] = [
    (A, Act::Paint([0, 0, 1, 1]), Told::Painted(1, 1)),
    (A, Act::Paint([1, 0, 65, 1]), Told::Full(1, 0)),
    (
        A,
        Act::Clear([0, 0, 129, 1]),
        Told::Refused(Refusal::OutOfRange),
    ),
    (A, Act::Stamp(63, 0), Told::Full(1, 0)),
    (A, Act::Publish, Told::Published(2, 1)),
    (A, Act::Publish, Told::Refused(Refusal::VersionsFull)),
    (A, Act::Pin, Told::Version(1)),
    (A, Act::Near([127, 0]), Told::Near(1, 16_129, [0, 0])),
    (A, Act::Unpin, Told::Nothing),
];

/// A map of four tiles. A tile that a stamp touches is counted, one that clearing leaves as it was
/// isn't.
const CORNERS: [Row; 8] = [
    (A, Act::Paint([0, 0, 70, 66]), Told::Full(4, 2)),
    (A, Act::Paint([64, 0, 70, 1]), Told::Painted(1, 6)),
    (
        A,
        Act::Paint([0, 0, 71, 1]),
        Told::Refused(Refusal::OutOfRange),
    ),
    (A, Act::Stamp(62, 63), Told::Painted(2, 3)),
    (A, Act::Stamp(68, 0), Told::Refused(Refusal::OutOfRange)),
    (A, Act::Stamp(66, 65), Told::Full(1, 0)),
    (A, Act::Clear([0, 64, 70, 66]), Told::Painted(3, 0)),
    (A, Act::Revert, Told::Reverted(4)),
];

/// The smallest map and its only block.
const SMALLEST: [Row; 3] = [
    (A, Act::Paint([0, 0, 1, 1]), Told::Full(1, 0)),
    (A, Act::Clear([0, 0, 1, 1]), Told::Painted(1, 0)),
    (A, Act::Publish, Told::Published(2, 1)),
];

/// The games.
pub const COUNTED: [Game<'static>; 9] = [
    Game {
        name: "blocks come back by a collect",
        setting: SPARE,
        size: [128, 64],
        rows: &FREED,
        free: &[0, 0, 0, 1, 0],
        left_out: 0,
        log: (0, 4),
    },
    Game {
        name: "positions are counted",
        setting: SPARE,
        size: [128, 1],
        rows: &POSITIONS,
        free: &[1, 0, 0, 0, 1, 0],
        left_out: 0,
        log: (0, 4),
    },
    Game {
        name: "slots and blocks are used again",
        setting: SPARE,
        size: [128, 64],
        rows: &AGAIN,
        free: &[0, 0, 1, 0, 0, 1, 0, 0, 1],
        left_out: 0,
        log: (0, 9),
    },
    Game {
        name: "a collect frees what its versions took",
        setting: Setting {
            blocks: 7,
            versions: 3,
            ..SPARE
        },
        size: [256, 1],
        rows: &TAKEN,
        free: &[2, 2, 2, 0, 0, 0, 0, 1, 0, 0, 2, 3],
        left_out: 0,
        log: (0, 8),
    },
    Game {
        name: "a session that has seen nothing collects",
        setting: Setting { blocks: 4, ..SPARE },
        size: [192, 64],
        rows: &UNSEEN,
        free: &[0, 0, 1],
        left_out: 0,
        log: (0, 3),
    },
    Game {
        name: "clearing free cells takes no block",
        setting: Setting { blocks: 1, ..SPARE },
        size: [64, 64],
        rows: &CLEARED,
        free: &[0, 0],
        left_out: 0,
        log: (0, 1),
    },
    Game {
        name: "a refused command leaves the draft",
        setting: SPARE,
        size: [128, 1],
        rows: &REFUSED,
        free: &[0, 0, 0, 0],
        left_out: 0,
        log: (0, 2),
    },
    Game {
        name: "four tiles",
        setting: Setting { blocks: 6, ..SPARE },
        size: [70, 66],
        rows: &CORNERS,
        free: &[2, 1, 1, 0, 0, 0, 0, 2],
        left_out: 0,
        log: (0, 4),
    },
    Game {
        name: "the smallest map",
        setting: Setting { blocks: 1, ..SPARE },
        size: [1, 1],
        rows: &SMALLEST,
        free: &[0, 0, 0],
        left_out: 0,
        log: (0, 2),
    },
];
