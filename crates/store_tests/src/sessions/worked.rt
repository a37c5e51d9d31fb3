//! Worked runs of sessions, row by row, with answers from outside.

use crate::sessions::acts::{A, Act, B, C, Row, Told};
use crate::sessions::counted::COUNTED;
use crate::sessions::players::{Game, play};
use map_core::Setting;
use metric::{Edge, Refusal};
use std::test::Fail;

/// Three blocks, two versions, three sessions and ten entries.
const SMALL: Setting = Setting {
    blocks: 3,
    versions: 2,
    sessions: 3,
    log: 10,
    edge: Edge::Open,
};

/// One more block and version, and two sessions.
const WIDER: Setting = Setting {
    blocks: 4,
    versions: 3,
    sessions: 2,
    log: 10,
    edge: Edge::Open,
};

/// A game on a map of one tile, whose blocks aren't counted, and whose sessions all go to the
/// close.
const GAME: Game<'static> = Game {
    name: "",
    setting: SMALL,
    size: [64, 64],
    rows: &[],
    free: &[],
    left_out: 0,
    log: (0, 0),
};

/// One session pins, another publishes and collects, and a third pins what was published.
const KEPT: [Row; 14] = [
    (A, Act::Pin, Told::Version(0)),
    (B, Act::Paint([0, 0, 1, 1]), Told::Painted(1, 1)),
    (B, Act::Publish, Told::Published(2, 1)),
    (A, Act::Near([3, 4]), Told::Free(0)),
    (C, Act::Pin, Told::Version(1)),
    (C, Act::Near([3, 4]), Told::Near(1, 25, [0, 0])),
    (B, Act::Collect, Told::Collected(3, 0, 0)),
    (B, Act::Publish, Told::Refused(Refusal::VersionsFull)),
    (A, Act::Unpin, Told::Nothing),
    (B, Act::Collect, Told::Collected(4, 1, 1)),
    (B, Act::Publish, Told::Published(5, 2)),
    (C, Act::Near([3, 4]), Told::Near(1, 25, [0, 0])),
    (C, Act::Near([64, 0]), Told::Refused(Refusal::OutOfRange)),
    (C, Act::Unpin, Told::Nothing),
];

/// A pin of version 0 keeps only that version: a collect drops version 1, which came after it, and
/// frees its block.
const ALONE: [Row; 12] = [
    (A, Act::Pin, Told::Version(0)),
    (B, Act::Paint([0, 0, 1, 1]), Told::Painted(1, 1)),
    (B, Act::Publish, Told::Published(2, 1)),
    (B, Act::Paint([1, 0, 2, 1]), Told::Painted(3, 1)),
    (B, Act::Publish, Told::Published(4, 2)),
    (B, Act::Paint([2, 0, 3, 1]), Told::Full(1, 0)),
    (B, Act::Publish, Told::Refused(Refusal::VersionsFull)),
    (B, Act::Collect, Told::Collected(5, 0, 1)),
    (B, Act::Paint([2, 0, 3, 1]), Told::Painted(6, 1)),
    (B, Act::Publish, Told::Published(7, 3)),
    (A, Act::Near([3, 4]), Told::Free(0)),
    (A, Act::Unpin, Told::Nothing),
];

/// The log has capacity for two entries. Each further command is refused for that, except one
/// outside the map. A ticket covers both entries, and a pin sees the version that the second one
/// published, as it was.
const FULL: [Row; 13] = [
    (A, Act::Paint([0, 0, 1, 1]), Told::Painted(1, 1)),
    (A, Act::Publish, Told::Published(2, 1)),
    (A, Act::Ticket, Told::Nothing),
    (A, Act::Paint([1, 0, 2, 1]), Told::Refused(Refusal::LogFull)),
    (
        A,
        Act::Paint([63, 63, 65, 64]),
        Told::Refused(Refusal::OutOfRange),
    ),
    (A, Act::Clear([0, 0, 1, 1]), Told::Refused(Refusal::LogFull)),
    (A, Act::Publish, Told::Refused(Refusal::LogFull)),
    (A, Act::Revert, Told::Refused(Refusal::LogFull)),
    (A, Act::Collect, Told::Refused(Refusal::LogFull)),
    (B, Act::Learn, Told::Nothing),
    (B, Act::Pin, Told::Version(1)),
    (B, Act::Near([3, 4]), Told::Near(1, 25, [0, 0])),
    (B, Act::Unpin, Told::Nothing),
];

/// The log has capacity for two entries. A checkpoint drops those in it, so that the next two are
/// accepted, and places go on counting. An earlier pin answers the same after it.
const DROPPED: [Row; 17] = [
    (A, Act::Paint([0, 0, 1, 1]), Told::Painted(1, 1)),
    (A, Act::Publish, Told::Published(2, 1)),
    (A, Act::Collect, Told::Refused(Refusal::LogFull)),
    (A, Act::Checkpoint, Told::Checkpointed(3)),
    (A, Act::Collect, Told::Collected(4, 1, 1)),
    (B, Act::Pin, Told::Version(1)),
    (B, Act::Near([3, 4]), Told::Near(1, 25, [0, 0])),
    (A, Act::Paint([1, 0, 2, 1]), Told::Painted(5, 1)),
    (A, Act::Publish, Told::Refused(Refusal::LogFull)),
    (B, Act::Checkpoint, Told::Checkpointed(6)),
    (A, Act::Checkpoint, Told::Checkpointed(7)),
    (A, Act::Publish, Told::Published(8, 2)),
    (B, Act::Near([3, 4]), Told::Near(1, 25, [0, 0])),
    (B, Act::Unpin, Told::Nothing),
    (B, Act::Pin, Told::Version(2)),
    (B, Act::Near([3, 4]), Told::Near(2, 20, [1, 0])),
    (B, Act::Unpin, Told::Nothing),
];

/// One block is free. A paint finds none until a collect gives one back.
const FREED: [Row; 5] = [
    (A, Act::Paint([0, 0, 1, 1]), Told::Painted(1, 1)),
    (A, Act::Publish, Told::Published(2, 1)),
    (A, Act::Paint([1, 0, 2, 1]), Told::Full(1, 0)),
    (A, Act::Collect, Told::Collected(3, 1, 1)),
    (A, Act::Paint([1, 0, 2, 1]), Told::Painted(4, 1)),
];

/// The log has capacity for two entries. A paint that finds it full leaves the draft: what is
/// published after a checkpoint has none of its cells.
const LEFT: [Row; 14] = [
    (A, Act::Paint([0, 0, 1, 1]), Told::Painted(1, 1)),
    (A, Act::Publish, Told::Published(2, 1)),
    (A, Act::Ticket, Told::Nothing),
    (A, Act::Paint([1, 0, 2, 1]), Told::Refused(Refusal::LogFull)),
    (B, Act::Learn, Told::Nothing),
    (B, Act::Pin, Told::Version(1)),
    (B, Act::Unpin, Told::Nothing),
    (A, Act::Checkpoint, Told::Checkpointed(3)),
    (A, Act::Collect, Told::Collected(4, 1, 1)),
    (A, Act::Publish, Told::Published(5, 2)),
    (B, Act::Pin, Told::Version(2)),
    (B, Act::Near([1, 0]), Told::Near(2, 1, [0, 0])),
    (B, Act::Near([3, 4]), Told::Near(2, 25, [0, 0])),
    (B, Act::Unpin, Told::Nothing),
];

/// Two checkpoints of a log with capacity for two entries.
const CHECKED: [Row; 9] = [
    (A, Act::Paint([0, 0, 1, 1]), Told::Painted(1, 1)),
    (A, Act::Publish, Told::Published(2, 1)),
    (A, Act::Collect, Told::Refused(Refusal::LogFull)),
    (A, Act::Checkpoint, Told::Checkpointed(3)),
    (A, Act::Collect, Told::Collected(4, 1, 1)),
    (A, Act::Paint([1, 0, 2, 1]), Told::Painted(5, 1)),
    (A, Act::Publish, Told::Refused(Refusal::LogFull)),
    (A, Act::Checkpoint, Told::Checkpointed(6)),
    (A, Act::Publish, Told::Published(7, 2)),
];

/// A session stamps and publishes, pins, and runs each command with its pin, whose version stays.
const COMMANDS: [Row; 16] = [
    (A, Act::Stamp(62, 0), Told::Refused(Refusal::OutOfRange)),
    (A, Act::Paint([0, 0, 1, 1]), Told::Painted(1, 1)),
    (A, Act::Publish, Told::Published(2, 1)),
    (A, Act::Pin, Told::Version(1)),
    (A, Act::Near([3, 4]), Told::Near(1, 25, [0, 0])),
    (A, Act::Stamp(62, 0), Told::Refused(Refusal::OutOfRange)),
    (A, Act::Stamp(0, 0), Told::Painted(3, 2)),
    (A, Act::Clear([0, 0, 1, 1]), Told::Painted(4, 1)),
    (A, Act::Publish, Told::Published(5, 2)),
    (A, Act::Paint([0, 0, 4, 1]), Told::Painted(6, 2)),
    (A, Act::Revert, Told::Reverted(7)),
    (A, Act::Collect, Told::Collected(8, 1, 1)),
    (A, Act::Near([3, 4]), Told::Near(1, 25, [0, 0])),
    (A, Act::Unpin, Told::Nothing),
    (A, Act::Pin, Told::Version(2)),
    (A, Act::Unpin, Told::Nothing),
];

/// A pin learns a ticket of a later version, before and after it has read its bitmap: the version
/// and the answers stay. The session's next pin has what the ticket brought.
const LEARNED: [Row; 18] = [
    (A, Act::Pin, Told::Version(0)),
    (B, Act::Pin, Told::Version(0)),
    (B, Act::Near([3, 4]), Told::Free(0)),
    (A, Act::Paint([0, 0, 1, 1]), Told::Painted(1, 1)),
    (A, Act::Publish, Told::Published(2, 1)),
    (A, Act::Ticket, Told::Nothing),
    (A, Act::Learn, Told::Nothing),
    (A, Act::Ticket, Told::Nothing),
    (B, Act::Learn, Told::Nothing),
    (A, Act::Near([3, 4]), Told::Free(0)),
    (B, Act::Near([3, 4]), Told::Free(0)),
    (A, Act::Unpin, Told::Nothing),
    (B, Act::Unpin, Told::Nothing),
    (A, Act::Ticket, Told::Nothing),
    (A, Act::Discard, Told::Nothing),
    (B, Act::Pin, Told::Version(1)),
    (B, Act::Near([3, 4]), Told::Near(1, 25, [0, 0])),
    (B, Act::Unpin, Told::Nothing),
];

/// Two entries are by the first session, one by the second.
const WHOLE: [Row; 3] = [
    (A, Act::Paint([0, 0, 1, 1]), Told::Painted(1, 1)),
    (B, Act::Publish, Told::Published(2, 1)),
    (A, Act::Paint([1, 0, 2, 1]), Told::Painted(3, 1)),
];

/// The second entry is a checkpoint, and an entry follows.
const CUT: [Row; 3] = [
    (A, Act::Paint([0, 0, 1, 1]), Told::Painted(1, 1)),
    (B, Act::Checkpoint, Told::Checkpointed(2)),
    (A, Act::Paint([1, 0, 2, 1]), Told::Painted(3, 1)),
];

/// The last entry is a checkpoint.
const EMPTIED: [Row; 2] = [
    (A, Act::Paint([0, 0, 1, 1]), Told::Painted(1, 1)),
    (B, Act::Checkpoint, Told::Checkpointed(2)),
];

/// The last five are closed without some of their sessions, or with all: a close returns the
/// entries of all of them after the last checkpoint.
const GAMES: [Game<'static>; 14] = [
    Game {
        name: "a pin keeps its version",
        setting: SMALL,
        rows: &KEPT,
        log: (0, 5),
        ..GAME
    },
    Game {
        name: "a pin keeps its version alone",
        setting: Setting {
            versions: 3,
            ..SMALL
        },
        rows: &ALONE,
        log: (0, 7),
        ..GAME
    },
    Game {
        name: "a full log refuses all",
        setting: Setting { log: 2, ..SMALL },
        rows: &FULL,
        log: (0, 2),
        ..GAME
    },
    Game {
        name: "a checkpoint makes room",
        setting: Setting {
            blocks: 2,
            log: 2,
            ..SMALL
        },
        rows: &DROPPED,
        log: (7, 1),
        ..GAME
    },
    Game {
        name: "a collect gives a block back",
        setting: Setting { blocks: 2, ..SMALL },
        rows: &FREED,
        log: (0, 4),
        ..GAME
    },
    Game {
        name: "a full log leaves the draft",
        setting: Setting {
            sessions: 2,
            log: 2,
            ..SMALL
        },
        rows: &LEFT,
        log: (3, 2),
        ..GAME
    },
    Game {
        name: "two checkpoints",
        setting: Setting {
            blocks: 2,
            log: 2,
            ..SMALL
        },
        rows: &CHECKED,
        log: (6, 1),
        ..GAME
    },
    Game {
        name: "a pin commands and asks",
        setting: WIDER,
        rows: &COMMANDS,
        log: (0, 8),
        ..GAME
    },
    Game {
        name: "a pin learns a ticket",
        setting: WIDER,
        rows: &LEARNED,
        log: (0, 2),
        ..GAME
    },
    Game {
        name: "no session is given",
        setting: WIDER,
        rows: &WHOLE,
        left_out: 2,
        log: (0, 3),
        ..GAME
    },
    Game {
        name: "one session is given",
        setting: WIDER,
        rows: &WHOLE,
        left_out: 1,
        log: (0, 3),
        ..GAME
    },
    Game {
        name: "no session is given after a checkpoint",
        setting: WIDER,
        rows: &CUT,
        left_out: 2,
        log: (2, 1),
        ..GAME
    },
    Game {
        name: "each session is given",
        setting: WIDER,
        rows: &CUT,
        log: (2, 1),
        ..GAME
    },
    Game {
        name: "a checkpoint at the end",
        setting: WIDER,
        rows: &EMPTIED,
        log: (2, 0),
        ..GAME
    },
];

#[test]
fn games_are_played(rt: HostRuntime) -> Result<(), Fail> {
    for game in GAMES {
        play(&rt, rt.alloc(), game)?;
    }
    for game in COUNTED {
        play(&rt, rt.alloc(), game)?;
    }
    Ok(())
}
