//! Whole runs by their words: the stream that a text goes to, its status, and failed writes.

use crate::compare::{holds, same};
use engines::run_words;
use memory_streams::{MemorySink, MemorySource};
use metric::Sink;
use std::process::Abort;
use std::thread::Threads;

/// The text of help.
const HELP: &str =
    "Exact distances to the nearest obstacle of an occupancy grid\n\nUsage: clearmap <COMMAND>\n\nCommands:\n  dist   Print each cell's distance to the nearest obstacle of the image on standard input\n  serve  Serve the map on standard input to connections on 127.0.0.1, line by line\n  ask    Send the lines on standard input to a server, and print each reply\n  steps  Do the events on standard input in a map with numbered versions, one word at a time\n  help   Print this message or the help of the given subcommand(s)\n\nOptions:\n  -h, --help     Print help\n  -V, --version  Print version\n\nAn image is PBM, plain (P1) or raw (P4), 1 to 4096 pixels a side; a black pixel is an obstacle. A robot's map\nhas unknown cells too: whoever makes the image makes each an obstacle or a free cell.\n\nOther programs are clearmap-ros (maps of robots), clearmap-view (a page), clearmap-backup, and for more\nclients and machines clearmap-gateway and clearmap-publish.\n\nAnswers and refusals go to standard output. The exit status is 0 where all was done, 1 where the\ninput or the network was refused or a standard stream failed, and 2 where the command line was.\n\nExamples:\n  clearmap dist < map.pbm\n  clearmap serve --connections 2 < map.pbm\n";

/// The text of help for `dist`.
const DIST_HELP: &str =
    "Print each cell's distance to the nearest obstacle of the image on standard input\n\nUsage: clearmap dist [OPTIONS] < IMAGE\n\nOptions:\n      --metric <METRIC>   The distance, in cells: euclid2 (straight, squared), city or chess [default: euclid2]\n      --nearest           Print each entry as distance/x/y, with its nearest obstacle\n      --query <LINE>      Print only the answer to LINE, as 'AT city 3 4'; there are AT, RECT, PATH and CLEAROF\n      --workers <NUMBER>  Workers that share the rows of 4194304 cells or more, 1 to 16 [default: 1]\n      --edge <EDGE>       What the border is: open, or a wall, of obstacles one cell outside [default: open]\n  -h, --help              Print help\n\nStandard input is an image, PBM plain (P1) or raw (P4), 1 to 4096 pixels a side; a black pixel is an\nobstacle. Each line of the answer is a row of distances, and '-' stands where there is no obstacle.\nStatus 1: a fault of the image or the line is one line in its place, as 'ERR 15 BadImage BadMagic', or a\nstandard stream failed. Status 2: the command line was refused.\n\nExamples:\n  clearmap dist --metric chess < map.pbm\n  clearmap dist --query 'AT euclid2 3 4' < map.pbm\n  clearmap dist --edge wall --nearest < map.pbm\n  clearmap dist --workers 4 < map.pbm\n";

/// What words that name no run write to standard output and to standard error, and their status.
static TOLD: [(&[&str], &str, &str, u8); 22] = [
    (
        &["clearmap", "serve"],
        "",
        "error: the following required arguments were not provided:\n  --connections <NUMBER>\n\nUsage: clearmap serve [OPTIONS] --connections <NUMBER> < IMAGE\n\nFor more information, try '--help'.\n",
        2,
    ),
    (
        &["clearmap", "serve", "--connections", "1000001"],
        "",
        "clearmap: --connections is a number from 1 to 1000000\n",
        2,
    ),
    (
        &["clearmap", "serve", "--connections", "1", "--workers=0"],
        "",
        "clearmap: --workers is a number from 1 to 16\n",
        2,
    ),
    (
        &["clearmap", "serve", "--connections", "1", "--port", "65536"],
        "",
        "clearmap: --port is a number from 0 to 65535\n",
        2,
    ),
    (
        &["clearmap", "ask", "--port", "0"],
        "",
        "clearmap: --port is a number from 1 to 65535\n",
        2,
    ),
    (&["clearmap", "--version"], "clearmap 0.4.0\n", "", 0),
    (&["clearmap", "-V"], "clearmap 0.4.0\n", "", 0),
    (
        &["clearmap"],
        "",
        "error: 'clearmap' requires a subcommand but one was not provided\n  [subcommands: dist, serve, ask, steps, help]\n\nUsage: clearmap <COMMAND>\n\nFor more information, try '--help'.\n",
        2,
    ),
    (
        &["clearmap", "dits"],
        "",
        "error: unrecognized subcommand 'dits'\n\n  tip: a similar subcommand exists: 'dist'\n\nUsage: clearmap <COMMAND>\n\nFor more information, try '--help'.\n",
        2,
    ),
    (
        &["clearmap", "dist", "map.pbm"],
        "",
        "error: unexpected argument 'map.pbm' found\n\nUsage: clearmap dist [OPTIONS] < IMAGE\n\nFor more information, try '--help'.\n",
        2,
    ),
    (
        &["clearmap", "dist", "--fast"],
        "",
        "error: unexpected argument '--fast' found\n\nUsage: clearmap dist [OPTIONS] < IMAGE\n\nFor more information, try '--help'.\n",
        2,
    ),
    (
        &["clearmap", "dist", "--metric", "taxi"],
        "",
        "clearmap: --metric is one of euclid2, city and chess, not 'taxi'\n",
        2,
    ),
    (
        &["clearmap", "dist", "--metric"],
        "",
        "error: a value is required for '--metric <METRIC>' but none was supplied\n\nFor more information, try '--help'.\n",
        2,
    ),
    (
        &["clearmap", "dist", "--workers", "17"],
        "",
        "clearmap: --workers is a number from 1 to 16\n",
        2,
    ),
    (
        &["clearmap", "dist", "--edge", "fence"],
        "",
        "clearmap: --edge is one of open and wall, not 'fence'\n",
        2,
    ),
    (
        &["clearmap", "dist", "--edge", ""],
        "",
        "clearmap: --edge is one of open and wall, not ''\n",
        2,
    ),
    (
        &["clearmap", "serve", "--connections", "1", "--edge", "Wall"],
        "",
        "clearmap: --edge is one of open and wall, not 'Wall'\n",
        2,
    ),
    (
        &["clearmap", "dist", "--workers", "0"],
        "",
        "clearmap: --workers is a number from 1 to 16\n",
        2,
    ),
    (
        &["clearmap", "dist", "--workers", "4294967296"],
        "",
        "clearmap: --workers is a number from 1 to 16\n",
        2,
    ),
    (
        &["clearmap", "dist", "--workers", "two"],
        "",
        "clearmap: --workers is a number from 1 to 16\n",
        2,
    ),
    (
        &["clearmap", "dist", "--workers", ""],
        "",
        "clearmap: --workers is a number from 1 to 16\n",
        2,
    ),
    (
        &["clearmap", "steps", "now"],
        "",
        "error: unexpected argument 'now' found\n\nUsage: clearmap steps < EVENTS\n\nFor more information, try '--help'.\n",
        2,
    ),
];

/// The worked map of three columns and two rows.
const ROOM: &str = "P1\n3 2\n100\n000\n";

/// Words that run, their input, their output and their status.
static DONE: [(&[&str], &str, &str, u8); 7] = [
    (&["clearmap", "dist"], ROOM, "0 1 4\n1 2 5\n", 0),
    (
        &["clearmap", "dist", "--query=AT city 2 1", "--metric=chess"],
        ROOM,
        "OK 3 0 0\n",
        0,
    ),
    (
        &["clearmap", "dist", "--query", "AT city 3 0"],
        ROOM,
        "ERR 1 OutOfRange\n",
        1,
    ),
    (
        &["clearmap", "dist"],
        "P1\n1 1\n11",
        "ERR 15 BadImage JunkNotSpaced\n",
        1,
    ),
    (
        &["clearmap", "steps"],
        "OPEN 64 64 3 2 1 10\nL 0\n",
        "OPENED 1\nNOW 0 0\n",
        0,
    ),
    (&["clearmap", "steps"], "L 0\n", "ERR 12 BadArguments\n", 1),
    (
        &["clearmap", "steps"],
        "OPEN 128 1 1 2 1 10\n",
        "ERR 16 BadSetting Blocks\n",
        1,
    ),
];

/// Runs words, and compares what they write, their status, and how much of the input is left to
/// read.
fn runs<R: Abort + AllocGlobal + Threads + Sync>(
    rt: &R,
    words: &[&str],
    input: &str,
    (text, mistake, status, left): (&str, &str, u8, usize),
) {
    let mut reader = MemorySource::new(input.as_bytes());
    let mut writer = MemorySink::new(rt.alloc());
    let mut errors = MemorySink::new(rt.alloc());
    let got = run_words(rt, rt.alloc(), words, &mut reader, &mut writer, &mut errors);
    same(rt, (got, reader.left().len()), (status, left), words);
    same(rt, writer.bytes(), text.as_bytes(), words);
    same(rt, errors.bytes(), mistake.as_bytes(), words);
}

#[test]
fn refused_words_are_told(rt: HostRuntime) {
    for (words, text, mistake, status) in &TOLD {
        runs(&rt, words, "P1\n1 1\n0", (text, mistake, *status, 8));
    }
}

#[test]
fn help_is_told(rt: HostRuntime) {
    runs(&rt, &["clearmap", "--help"], "P1", (HELP, "", 0, 2));
    runs(&rt, &["clearmap", "help"], "P1", (HELP, "", 0, 2));
    runs(
        &rt,
        &["clearmap", "dist", "--help"],
        "P1",
        (DIST_HELP, "", 0, 2),
    );
}

#[test]
fn words_are_done(rt: HostRuntime) {
    for (words, input, text, status) in &DONE {
        runs(&rt, words, input, (text, "", *status, 0));
    }
}

/// Runs words with each of the first calls of either stream failing in turn. A prefix of the text
/// is written, and the status is 1.
fn fails_at_each<R: Abort + AllocGlobal + Threads + Sync>(
    rt: &R,
    words: &[&str],
    input: &str,
    (text, mistake): (&str, &str),
) {
    for call in 1..3u64 {
        let mut reader = MemorySource::new(input.as_bytes());
        let mut writer = MemorySink::new(rt.alloc()).failing_at(call);
        let mut errors = MemorySink::new(rt.alloc()).failing_at(call);
        let status = run_words(rt, rt.alloc(), words, &mut reader, &mut writer, &mut errors);
        same(rt, status, 1, (call, words));
        holds(
            rt,
            text.as_bytes().starts_with(writer.bytes())
                && mistake.as_bytes().starts_with(errors.bytes()),
            (call, words),
        );
        same(
            rt,
            (writer.failed_writes(), errors.failed_writes()),
            (u64::from(mistake.is_empty()), u64::from(text.is_empty())),
            (call, words),
        );
    }
}

#[test]
fn a_text_is_written_and_flushed(rt: HostRuntime) {
    for (words, input, text, _) in &DONE {
        fails_at_each(&rt, words, input, (text, ""));
    }
    for (words, text, mistake, _) in &TOLD {
        fails_at_each(&rt, words, ROOM, (text, mistake));
    }
}
