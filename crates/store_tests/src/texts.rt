//! Lines and replies, where no clause says it: that lines from outside mean what they should, and
//! the texts of replies.

use crate::compare::{holds, same};
use map_core::{Command, Kept, Reply};
use metric::{Cell, MetricKind, Near, Rect, Refusal, Spot};
use proto::{Answer, Line, Query, Text, parse_line, reply_text};
use std::test::Fail;

/// The meaning of a line. Rectangles have corners, paths have points.
#[derive(Clone, Copy)]
enum Meant {
    At(MetricKind, u16, u16),
    Rect(MetricKind, [u16; 4]),
    Path(MetricKind, &'static [(u16, u16)]),
    ClearOf(MetricKind, u32, &'static [(u16, u16)]),
    Paint([u16; 4], bool),
    Stamp(u16, u16, u32),
    Publish,
    Revert,
    Collect,
    Checkpoint,
    Pin,
    Unpin,
    Dump,
    Quit,
}

/// Lines, and their meanings.
const LINES: [(&[u8], Meant); 28] = [
    (b"AT euclid2 1 0", Meant::At(MetricKind::Euclid2, 1, 0)),
    (b"AT chess 2 1", Meant::At(MetricKind::Chess, 2, 1)),
    (b"AT city 0000000007 07", Meant::At(MetricKind::City, 7, 7)),
    (
        b"AT euclid2 4096 0",
        Meant::At(MetricKind::Euclid2, 4096, 0),
    ),
    (
        b"AT city 4294967295 65535",
        Meant::At(MetricKind::City, 65535, 65535),
    ),
    (
        b"AT city 65534 65536",
        Meant::At(MetricKind::City, 65534, 65535),
    ),
    (
        b"RECT euclid2 0 2 6 4",
        Meant::Rect(MetricKind::Euclid2, [0, 2, 6, 4]),
    ),
    (
        b"RECT city 4095 0 4096 4096",
        Meant::Rect(MetricKind::City, [4095, 0, 4096, 4096]),
    ),
    (
        b"RECT chess 0 0 1 1",
        Meant::Rect(MetricKind::Chess, [0, 0, 1, 1]),
    ),
    (
        b"PATH city 0 0 5 0 5 3",
        Meant::Path(MetricKind::City, &[(0, 0), (5, 0), (5, 3)]),
    ),
    (
        b"PATH euclid2 70000 1",
        Meant::Path(MetricKind::Euclid2, &[(65535, 1)]),
    ),
    (
        b"CLEAROF city 1 0 0 5 0 5 3",
        Meant::ClearOf(MetricKind::City, 1, &[(0, 0), (5, 0), (5, 3)]),
    ),
    (
        b"CLEAROF chess 4294967295 1 2",
        Meant::ClearOf(MetricKind::Chess, 4294967295, &[(1, 2)]),
    ),
    (b"PAINT 0 0 1 1", Meant::Paint([0, 0, 1, 1], true)),
    (b"CLEAR 0 0 64 64", Meant::Paint([0, 0, 64, 64], false)),
    (b"PAINT 63 63 65 64", Meant::Paint([63, 63, 65, 64], true)),
    (
        b"CLEAR 4095 0 4096 4096",
        Meant::Paint([4095, 0, 4096, 4096], false),
    ),
    (b"STAMP 2 1 11", Meant::Stamp(2, 1, 11)),
    (b"STAMP 0 4096 17100001", Meant::Stamp(0, 4096, 17100001)),
    (
        b"STAMP 65536 4294967295 4294967295",
        Meant::Stamp(65535, 65535, 4294967295),
    ),
    (b"PUBLISH", Meant::Publish),
    (b"REVERT", Meant::Revert),
    (b"COLLECT", Meant::Collect),
    (b"CHECKPOINT", Meant::Checkpoint),
    (b"PIN", Meant::Pin),
    (b"UNPIN", Meant::Unpin),
    (b"DUMP", Meant::Dump),
    (b"QUIT", Meant::Quit),
];

/// Lines whose first word isn't a command.
const UNKNOWN: [&[u8]; 13] = [
    b"",
    b" ",
    b" AT city 0 0",
    b"AT2 city 0 0",
    b"at city 0 0",
    b"QUITS",
    b"AT\tcity 0 0",
    b"CLEARO city 1 0 0",
    b" PIN",
    b"paint 0 0 1 1",
    b"PIN\0",
    b"CHECKPOINTS",
    b"PIN\r",
];

/// Lines with arguments of the wrong number or form.
const BAD_ARGUMENTS: [&[u8]; 64] = [
    b"AT",
    b"AT ",
    b"AT  city 0 0",
    b"AT euclid 0 0",
    b"AT City 0 0",
    b"AT city",
    b"AT city 0",
    b"AT city 0 0 0",
    b"AT city 0 0 0 0",
    b"AT city 0  0",
    b"AT city 0 0 ",
    b"AT city 00000000001 0",
    b"AT city 4294967296 0",
    b"AT city 9999999999 0",
    b"AT city -1 0",
    b"AT city +1 0",
    b"AT city x 0",
    b"AT city 0 0x0",
    b"AT city 0 0\r",
    b"AT city 0 0/",
    b"AT city 0 0:",
    b"RECT city 0 0 0 5",
    b"RECT city 0 0 5 0",
    b"RECT city 3 0 2 1",
    b"RECT city 0 0 4097 1",
    b"RECT city 0 0 1 4097",
    b"RECT city 0 0 70000 1",
    b"RECT city 0 0 1",
    b"RECT city 0 0 1 1 2 2",
    b"PATH",
    b"PATH city 0",
    b"PATH city 0 0 1",
    b"CLEAROF city",
    b"CLEAROF city x",
    b"STAMP",
    b"STAMP 0 0",
    b"STAMP 0 0 1 ",
    b"STAMP 0 0 1 1",
    b"STAMP 0 0 4294967296",
    b"PIN 1",
    b"PIN ",
    b"UNPIN 0",
    b"DUMP 15",
    b"QUIT ",
    b"PAINT 4294967296 0 1 1",
    b"PAINT",
    b"PAINT ",
    b"PAINT 0 0 1",
    b"PAINT 0 0 1 1 1",
    b"PAINT 0 0 0 5",
    b"PAINT 0 0 5 0",
    b"PAINT 0 0 4097 1",
    b"PAINT 0 0 1 70000",
    b"PAINT 0  0 1 1",
    b"PAINT 0 0  1 1",
    b"PAINT 0 0 1 1 ",
    b"CLEAR city 0 0 1 1",
    b"CLEAR 0 0 1 -1",
    b"PUBLISH ",
    b"REVERT 1",
    b"COLLECT now",
    b"CHECKPOINT ",
    b"CHECKPOINT 3",
    b"PAINT 00000000000 0 1 1",
];

/// Lines of paths without points.
const BAD_PATHS: [&[u8]; 2] = [b"PATH city", b"CLEAROF city 5"];

/// Whether these are the points, in this order.
fn are_points(cells: &[Cell], points: &[(u16, u16)]) -> bool {
    for (cell, (x, y)) in cells.iter().zip(points) {
        if cell.x != *x || cell.y != *y {
            return false;
        }
    }
    cells.len() == points.len()
}

/// Whether a rectangle has these corners.
fn are_corners(rect: &Rect, corners: [u16; 4]) -> bool {
    [rect.x0, rect.y0, rect.x1, rect.y1] == corners
}

/// Whether this is the line's meaning.
fn is_meant(line: &Line, meant: Meant) -> bool {
    match (line, meant) {
        (Line::Query(Query::At { metric, cell }), Meant::At(kind, x, y)) => *metric == kind
            && (cell.x, cell.y) == (x, y),
        (Line::Query(Query::Rect { metric, rect }), Meant::Rect(kind, corners)) => *metric == kind
            && are_corners(rect, corners),
        (Line::Query(Query::Path { metric, points }), Meant::Path(kind, want)) => *metric == kind
            && are_points(points, want),
        (Line::Query(Query::ClearOf { metric, d, points }), Meant::ClearOf(kind, least, want)) => {
            *metric == kind && *d == least && are_points(points, want)
        }
        (Line::Command(Command::Paint { rect, black }), Meant::Paint(corners, value)) => *black
            == value
            && are_corners(rect, corners),
        (Line::Stamp { x, y, length }, Meant::Stamp(column, row, bytes)) => (*x, *y, *length)
            == (column, row, bytes),
        (Line::Command(Command::Publish), Meant::Publish)
        | (Line::Command(Command::Revert), Meant::Revert)
        | (Line::Command(Command::Collect), Meant::Collect)
        | (Line::Command(Command::Checkpoint), Meant::Checkpoint)
        | (Line::Pin, Meant::Pin)
        | (Line::Unpin, Meant::Unpin)
        | (Line::Dump, Meant::Dump)
        | (Line::Quit, Meant::Quit) => true,
        _ => false,
    }
}

#[test]
fn lines_are_told(rt: HostRuntime) {
    for (number, (bytes, meant)) in LINES.iter().enumerate() {
        match parse_line(rt.alloc(), bytes) {
            Ok(line) => holds(&rt, is_meant(&line, *meant), ("line", number)),
            Err(refusal) => holds(&rt, false, ("line", number, refusal)),
        }
    }
}

/// Lines that are refused, and their refusals.
const REFUSED: [(&[&[u8]], Refusal); 3] = [
    (&UNKNOWN, Refusal::UnknownCommand),
    (&BAD_ARGUMENTS, Refusal::BadArguments),
    (&BAD_PATHS, Refusal::BadPath),
];

#[test]
fn lines_are_refused(rt: HostRuntime) {
    for (lines, refusal) in REFUSED {
        for (number, line) in lines.iter().enumerate() {
            let told = parse_line(rt.alloc(), line).err();
            same(&rt, told, Some(refusal), number);
        }
    }
}

/// Paths of this many points, all `(3, 4)`, more bytes at the end, and the refusal.
const PATHS: [(u32, &[u8], Option<Refusal>); 3] = [
    (1000, b"", None),
    (1001, b"", Some(Refusal::BadPath)),
    (1001, b" 5", Some(Refusal::BadArguments)),
];

#[test]
fn a_path_has_a_thousand_points(rt: HostRuntime) -> Result<(), Fail> {
    for (count, end, refusal) in PATHS {
        let mut line = Vec::from_slice(rt.alloc(), b"PATH chess")?;
        for _ in 0..count {
            line.extend_from_slice(b" 3 4")?;
        }
        line.extend_from_slice(end)?;
        match parse_line(rt.alloc(), &line) {
            Ok(line) => {
                let meant = Meant::Path(MetricKind::Chess, &[(3, 4); 1000]);
                holds(&rt, is_meant(&line, meant) && refusal.is_none(), count);
            }
            Err(told) => same(&rt, Some(told), refusal, count),
        }
    }
    Ok(())
}

/// No version: a reply's text doesn't say which are kept.
const NONE: Kept = Kept { slots: [0; 64] };

/// Answers, and their reply lines.
const REPLIES: [(Answer, &[u8]); 27] = [
    (Answer::Version(0), b"OK 0\n"),
    (Answer::Version(4294967295), b"OK 4294967295\n"),
    (Answer::Dumped(15), b"OK 15\n"),
    (Answer::Bye, b"BYE\n"),
    (
        Answer::Near(Some(Near {
            dist: 1,
            cell: Spot { x: 0, y: 0 },
        })),
        b"OK 1 0 0\n",
    ),
    (
        Answer::Near(Some(Near {
            dist: 33538050,
            cell: Spot { x: 0, y: 0 },
        })),
        b"OK 33538050 0 0\n",
    ),
    (
        Answer::Near(Some(Near {
            dist: 1,
            cell: Spot { x: -1, y: 0 },
        })),
        b"OK 1 -1 0\n",
    ),
    (Answer::Near(None), b"NONE\n"),
    (
        Answer::Found(Some((
            Cell { x: 2, y: 0 },
            Near {
                dist: 1,
                cell: Spot { x: 2, y: 1 },
            },
        ))),
        b"OK 1 2 0 2 1\n",
    ),
    (
        Answer::Found(Some((
            Cell { x: 65535, y: 10000 },
            Near {
                dist: 4294967295,
                cell: Spot {
                    x: 32767,
                    y: -32768,
                },
            },
        ))),
        b"OK 4294967295 65535 10000 32767 -32768\n",
    ),
    (Answer::Found(None), b"NONE\n"),
    (Answer::Clear(None), b"OK CLEAR\n"),
    (
        Answer::Clear(Some((
            Cell { x: 1, y: 0 },
            Near {
                dist: 2,
                cell: Spot { x: 2, y: 1 },
            },
        ))),
        b"OK 2 1 0 2 1\n",
    ),
    (
        Answer::Refused(Refusal::Crooked { index: 1 }),
        b"ERR 9 Crooked 1\n",
    ),
    (Answer::Refused(Refusal::BadPath), b"ERR 8 BadPath\n"),
    (
        Answer::Refused(Refusal::UnknownCommand),
        b"ERR 11 UnknownCommand\n",
    ),
    (
        Answer::Refused(Refusal::BadArguments),
        b"ERR 12 BadArguments\n",
    ),
    (Answer::Refused(Refusal::OutOfRange), b"ERR 1 OutOfRange\n"),
    (Answer::Refused(Refusal::Memory), b"ERR 5 Memory\n"),
    (
        Answer::Refused(Refusal::BlocksFull { needed: 1, free: 0 }),
        b"ERR 2 BlocksFull 1 0\n",
    ),
    (Answer::Refused(Refusal::NotPinned), b"ERR 6 NotPinned\n"),
    (
        Answer::Done(Reply::Painted {
            place: 1,
            changed: 1,
        }),
        b"OK 1 1\n",
    ),
    (
        Answer::Done(Reply::Published {
            place: 2,
            version: 1,
        }),
        b"OK 2 1\n",
    ),
    (Answer::Done(Reply::Reverted { place: 3 }), b"OK 3\n"),
    (
        Answer::Done(Reply::Checkpointed { place: 4294967295 }),
        b"OK 4294967295\n",
    ),
    (
        Answer::Done(Reply::Collected {
            place: 4,
            floor: 1,
            freed: 2,
            kept: NONE,
        }),
        b"OK 4 1 2\n",
    ),
    (
        Answer::Done(Reply::Collected {
            place: 4294967295,
            floor: 4294967294,
            freed: 4294967293,
            kept: NONE,
        }),
        b"OK 4294967295 4294967294 4294967293\n",
    ),
];

#[test]
fn replies_are_written(rt: HostRuntime) -> Result<(), Fail> {
    let mut text = Text::new(rt.alloc())?;
    for (number, (answer, want)) in REPLIES.iter().enumerate() {
        reply_text(answer, &mut text);
        same(&rt, text.as_bytes(), *want, number);
    }
    Ok(())
}
