//! The worked rows through `dist`, and failed writes.

use crate::compare::{holds, same};
use command_line::DistOptions;
use engines::dist_run;
use field::Workers;
use memory_streams::{MemorySink, MemorySource};
use metric::{Edge, MetricKind, Sink, Source};
use std::process::Abort;
use std::thread::Threads;

/// The options of `dist` without flags.
const DEFAULT: DistOptions = DistOptions {
    metric: MetricKind::Euclid2,
    edge: Edge::Open,
    nearest: false,
    query: None,
    workers: Workers { count: 1 },
};

/// One worker, two, and as many as there may be.
const COUNTS: [Workers; 3] = [
    Workers { count: 1 },
    Workers { count: 2 },
    Workers { count: 16 },
];

/// Images, what is written for them, and the status.
static ANSWERS: [(&[u8], &str, u8); 18] = [
    (b"P1\n3 2\n100\n000\n", "0 1 4\n1 2 5\n", 0),
    (b"P1\n3 2\n000\n000\n", "- - -\n- - -\n", 0),
    (b"P1 5 1 1 0 0 0 1", "0 1 4 1 0\n", 0),
    (
        b"P1\n12 1\n100000000000 and anything",
        "0 1 4 9 16 25 36 49 64 81 100 121\n",
        0,
    ),
    (b"P4\n10 1\n\x80\x7f", "0 1 4 9 16 16 9 4 1 0\n", 0),
    (b"P1\n# made by hand\n3 1\n101 anything", "0 1 0\n", 0),
    (b"P1\n1 1\n11", "ERR 15 BadImage JunkNotSpaced\n", 1),
    (b"P4\n8 2\n\xff", "ERR 15 BadImage Truncated\n", 1),
    (b"P1\n0 1\n", "ERR 15 BadImage ZeroSize\n", 1),
    (b"P1\n3#c\n1\n000", "ERR 15 BadImage BadComment\n", 1),
    (b"P1\n4097 1\n", "ERR 15 BadImage TooLarge\n", 1),
    (b"P4\n4097 1\n", "ERR 15 BadImage TooLarge\n", 1),
    (b"P1\n2 1\n1", "ERR 15 BadImage Truncated\n", 1),
    (b"P1\n2 1\n1x", "ERR 15 BadImage BadPixel\n", 1),
    (b"P1\nx", "ERR 15 BadImage BadNumber\n", 1),
    (b"P1x", "ERR 15 BadImage MissingSpace\n", 1),
    (b"GIF89a", "ERR 15 BadImage BadMagic\n", 1),
    (b"", "ERR 15 BadImage Truncated\n", 1),
];

/// Images with flags, and what is written for them.
static CHOSEN: [(&[u8], MetricKind, bool, &str); 9] = [
    (ROOM, MetricKind::Euclid2, false, "0 1 4\n1 2 5\n"),
    (ROOM, MetricKind::City, false, "0 1 2\n1 2 3\n"),
    (ROOM, MetricKind::Chess, false, "0 1 2\n1 1 2\n"),
    (BLANK, MetricKind::City, false, "- - -\n- - -\n"),
    (BLANK, MetricKind::Chess, false, "- - -\n- - -\n"),
    (BLANK, MetricKind::City, true, "- - -\n- - -\n"),
    (
        b"P1\n5 1\n10001",
        MetricKind::City,
        true,
        "0/0/0 1/0/0 2/0/0 1/4/0 0/4/0\n",
    ),
    (
        ROOM,
        MetricKind::Euclid2,
        true,
        "0/0/0 1/0/0 4/0/0\n1/0/0 2/0/0 5/0/0\n",
    ),
    (
        b"P1\n7 2\n1000001\n0001000\n",
        MetricKind::Chess,
        true,
        "0/0/0 1/0/0 1/3/1 1/3/1 1/3/1 1/6/0 0/6/0\n1/0/0 1/0/0 1/3/1 0/3/1 1/3/1 1/6/0 1/6/0\n",
    ),
];

/// Images and query lines, what is written for them, and the status.
static QUERIES: [(&[u8], &str, &str, u8); 18] = [
    (
        b"P1\n# made by hand\n3 1\n101 anything",
        "AT euclid2 1 0",
        "OK 1 0 0\n",
        0,
    ),
    (b"P1\n3 2\n100\n100\n", "AT chess 2 1", "OK 2 0 1\n", 0),
    (b"P1\n3 2\n000\n000\n", "AT city 0 0", "NONE\n", 0),
    (POST, "PATH city 0 0 5 0 5 3", "OK 1 2 0 2 1\n", 0),
    (POST, "PATH city 0 0 0 0", "OK 3 0 0 2 1\n", 0),
    (POST, "PATH city 0 0 1 1", "ERR 9 Crooked 1\n", 1),
    (POST, "PATH city", "ERR 8 BadPath\n", 1),
    (POST, "CLEAROF city 1 0 0 5 0 5 3", "OK CLEAR\n", 0),
    (POST, "CLEAROF city 2 0 0 5 0 5 3", "OK 1 2 0 2 1\n", 0),
    (POST, "CLEAROF city 3 0 0 5 0 5 3", "OK 2 1 0 2 1\n", 0),
    (POST, "RECT euclid2 0 2 6 4", "OK 1 2 2 2 1\n", 0),
    (POST, "RECT euclid2 0 0 7 4", "ERR 1 OutOfRange\n", 1),
    (POST, "AT euclid2 6 0", "ERR 1 OutOfRange\n", 1),
    (POST, "AT euclid 0 0", "ERR 12 BadArguments\n", 1),
    (POST, "WHERE 0 0", "ERR 11 UnknownCommand\n", 1),
    (POST, "", "ERR 11 UnknownCommand\n", 1),
    (
        b"P1\n6 4\n00",
        "WHERE 0 0",
        "ERR 15 BadImage Truncated\n",
        1,
    ),
    (
        b"P4\n4097 1\n",
        "AT city 0 0",
        "ERR 15 BadImage TooLarge\n",
        1,
    ),
];

/// Images with a wall, with flags, and what is written for them.
static WALLED: [(&[u8], MetricKind, bool, &str); 7] = [
    (
        FIELD,
        MetricKind::Euclid2,
        false,
        "1 1 1 1 1\n1 4 4 4 1\n1 1 1 1 1\n",
    ),
    (
        FIELD,
        MetricKind::Euclid2,
        true,
        "1/-1/0 1/1/-1 1/2/-1 1/3/-1 1/4/-1\n1/-1/1 4/-1/1 4/2/-1 4/3/-1 1/5/1\n1/-1/2 1/1/3 1/2/3 1/3/3 1/4/3\n",
    ),
    (
        FIELD,
        MetricKind::Chess,
        true,
        "1/-1/0 1/0/-1 1/1/-1 1/2/-1 1/3/-1\n1/-1/1 2/-1/1 2/0/-1 2/1/-1 1/5/1\n1/-1/2 1/0/3 1/1/3 1/2/3 1/3/3\n",
    ),
    (b"P1\n1 1\n0", MetricKind::City, true, "1/-1/0\n"),
    (b"P1\n1 1\n1", MetricKind::City, true, "0/0/0\n"),
    (
        b"P1\n5 1\n00100",
        MetricKind::Euclid2,
        true,
        "1/-1/0 1/1/-1 0/2/0 1/2/0 1/4/-1\n",
    ),
    (
        b"P1\n5 3\n000000000100000",
        MetricKind::City,
        false,
        "1 1 1 1 1\n1 2 2 1 0\n1 1 1 1 1\n",
    ),
];

/// Query lines on an image with a wall and without obstacles, and what is written for them.
static SEEN_FROM_WITHIN: [(&str, &str); 6] = [
    ("AT chess 2 1", "OK 2 0 -1\n"),
    ("AT euclid2 4 2", "OK 1 4 3\n"),
    ("AT city 0 0", "OK 1 -1 0\n"),
    ("RECT city 1 1 4 2", "OK 2 1 1 -1 1\n"),
    ("CLEAROF euclid2 4 1 1 3 1", "OK CLEAR\n"),
    ("CLEAROF euclid2 5 3 1 1 1", "OK 4 3 1 3 -1\n"),
];

/// A map of five columns and three rows without obstacles.
const FIELD: &[u8] = b"P1\n5 3\n000000000000000";

/// The worked map of six columns and four rows.
const POST: &[u8] = b"P1\n6 4\n000000\n001000\n000000\n000000\n";

/// A map of the same size without obstacles.
const BLANK: &[u8] = b"P1\n3 2\n000\n000\n";

/// The worked map of three columns and two rows.
const ROOM: &[u8] = b"P1\n3 2\n100\n000\n";

/// Answers an image, and compares what is written and the status. All of the image is read.
fn answers<R: Abort + AllocGlobal + Threads + Sync>(
    rt: &R,
    options: &DistOptions<'_>,
    image: &[u8],
    want: &str,
    status: u8,
) {
    let mut reader = MemorySource::new(image);
    let mut writer = MemorySink::new(rt.alloc());
    let got = dist_run(rt, rt.alloc(), options, &mut reader, &mut writer);
    same(rt, (got, reader.left().len()), (status, 0), image);
    same(rt, writer.bytes(), want.as_bytes(), image);
}

#[test]
fn images_are_answered(rt: HostRuntime) {
    for (image, want, status) in &ANSWERS {
        answers(&rt, &DEFAULT, image, want, *status);
    }
}

#[test]
fn flags_are_heeded_by_each_number_of_workers(rt: HostRuntime) {
    for (image, metric, nearest, want) in &CHOSEN {
        for workers in COUNTS {
            let options = DistOptions {
                metric: *metric,
                nearest: *nearest,
                workers,
                ..DEFAULT
            };
            answers(&rt, &options, image, want, 0);
        }
    }
}

#[test]
fn queries_are_answered(rt: HostRuntime) {
    for (image, line, want, status) in &QUERIES {
        let options = DistOptions {
            query: Some(*line),
            ..DEFAULT
        };
        answers(&rt, &options, image, want, *status);
    }
}

#[test]
fn a_wall_round_the_image_is_answered(rt: HostRuntime) {
    for (image, metric, nearest, want) in &WALLED {
        for workers in COUNTS {
            let options = DistOptions {
                metric: *metric,
                edge: Edge::Wall,
                nearest: *nearest,
                workers,
                ..DEFAULT
            };
            answers(&rt, &options, image, want, 0);
        }
    }
}

#[test]
fn queries_see_the_wall(rt: HostRuntime) {
    for (line, want) in &SEEN_FROM_WITHIN {
        let options = DistOptions {
            edge: Edge::Wall,
            query: Some(*line),
            ..DEFAULT
        };
        answers(&rt, &options, FIELD, want, 0);
    }
}

#[test]
fn a_failed_read_writes_nothing(rt: HostRuntime) {
    for call in 1..=3 {
        let mut reader = MemorySource::new(ROOM).failing_at(call);
        let mut writer = MemorySink::new(rt.alloc());
        let status = dist_run(&rt, rt.alloc(), &DEFAULT, &mut reader, &mut writer);
        let failed = u8::from(reader.failed_reads() == 1);
        same(&rt, status, failed, ("at call", call));
        holds(
            &rt,
            writer.bytes().is_empty() == (failed == 1),
            ("at call", call),
        );
    }
}

/// Answers the worked map where this call of the writer fails, and compares what is written.
fn fails_at_call<R: Abort + AllocGlobal + Threads + Sync>(
    rt: &R,
    options: &DistOptions<'_>,
    call: u64,
    want: &str,
) {
    let mut reader = MemorySource::new(ROOM);
    let mut writer = MemorySink::new(rt.alloc()).failing_at(call);
    let status = dist_run(rt, rt.alloc(), options, &mut reader, &mut writer);
    let case = (options.nearest, options.workers, call);
    same(rt, (status, writer.failed_writes()), (1, 1), case);
    same(rt, writer.bytes(), want.as_bytes(), case);
}

#[test]
fn a_failed_write_ends_the_run(rt: HostRuntime) {
    // Each worker's lines are written at once, and then all is flushed. The first worker has all
    // lines of a small image. A failing write leaves half of them.
    for (nearest, half, whole) in [
        (false, "0 1 4\n", "0 1 4\n1 2 5\n"),
        (
            true,
            "0/0/0 1/0/0 4/0/0\n",
            "0/0/0 1/0/0 4/0/0\n1/0/0 2/0/0 5/0/0\n",
        ),
    ] {
        for (workers, calls) in [(Workers { count: 1 }, 2), (Workers { count: 3 }, 4)] {
            let options = DistOptions {
                nearest,
                workers,
                ..DEFAULT
            };
            fails_at_call(&rt, &options, 1, half);
            for call in 2..=calls {
                fails_at_call(&rt, &options, call, whole);
            }
        }
    }
}
