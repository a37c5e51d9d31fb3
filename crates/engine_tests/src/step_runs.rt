//! Worked texts through the engine, lines of other forms, and failed writes.

use crate::compare::{holds, same};
use memory_streams::{MemorySink, MemorySource};
use metric::{Sink, Source};
use std::alloc::Global;
use std::process::Abort;
use std::test::Fail;
use steps::steps_run;

/// Texts whose first line opens a world, each line with its answer.
static RUNS: [&[(&str, &str)]; 7] = [
    // A collect has scanned a reader that then announces a version that the collect drops.
    &[
        ("OPEN 64 64 3 2 1 10", "OPENED 1"),
        ("C PAINT 0 0 1 1", "ORDERED 1"),
        ("K 1", "OK 1 1"),
        ("C PUBLISH", "ORDERED 66"),
        ("K 66", "OK 2 1"),
        ("C COLLECT", "ORDERED 2"),
        ("K 1", "SCAN 0 0"),
        ("A 0", "PIN 0"),
        ("K 1", "OK 3 1 1"),
        ("A 0", "NOT ENABLED"),
        ("L 0", "NOW 3 1"),
        ("M 0 0", "BLOCK 1"),
        ("T 0 1 0", "WORD 0000000000000001"),
        ("T 0 0 0", "NOT ENABLED"),
        ("V 0", "LEFT"),
    ],
    &[
        ("OPEN 64 64 3 2 1 10", "OPENED 1"),
        ("L 0", "NOW 0 0"),
        ("M 0 0", "NOT ENABLED"),
        ("A 0", "PIN 0"),
        ("C PAINT 0 0 65 1", "ERR 1 OutOfRange"),
        ("C COLLECT", "ORDERED 2"),
        ("C REVERT", "NOT ENABLED"),
        ("C PAINT 0 0 0 5", "ERR 12 BadArguments"),
        ("K 3", "NOT ENABLED"),
        ("K 1", "SCAN 0 1"),
        ("K 1", "OK 1 0 0"),
        ("L 0", "NOW 1 0"),
        ("M 0 0", "BLOCK 0"),
        ("Z", "BAD LINE"),
    ],
    // A reader announces what it holds exactly, once.
    &[
        ("OPEN 64 64 3 3 1 10", "OPENED 1"),
        ("L 0", "NOW 0 0"),
        ("A 0", "PIN 0"),
        ("L 0", "NOW 0 0"),
        ("E 0", "EXACT 0"),
        ("E 0", "NOT ENABLED"),
        ("C COLLECT", "ORDERED 2"),
        ("K 1", "SCAN 0 2"),
        ("K 1", "OK 1 0 0"),
    ],
    // A publish word by word, and a row of its tile.
    &[
        ("OPEN 65 2 4 2 2 9", "OPENED 2"),
        ("C PAINT 60 1 65 2", "ORDERED 1"),
        ("K 1", "OK 1 5"),
        ("C CLEAR 60 1 61 2", "ORDERED 1"),
        ("K 1", "OK 2 1"),
        ("C PUBLISH", "ORDERED 131"),
        ("K 129", "WRITE"),
        ("K 1", "WRITE"),
        ("K 2", "NOT ENABLED"),
        ("K 1", "OK 3 1"),
        ("K 1", "NOT ENABLED"),
        ("A 1", "PIN 0"),
        ("L 1", "NOW 3 1"),
        ("M 1 0", "BLOCK 2"),
        ("M 1 1", "BLOCK 3"),
        ("M 1 2", "NOT ENABLED"),
        ("T 1 2 1", "WORD e000000000000000"),
        ("T 1 3 1", "WORD 0000000000000001"),
        ("T 1 3 63", "WORD 0000000000000000"),
        ("T 1 3 64", "NOT ENABLED"),
        ("L 2", "NOT ENABLED"),
        ("C COLLECT", "ORDERED 3"),
        ("K 1", "SCAN 0 0"),
        ("K 1", "SCAN 1 1"),
        ("K 1", "OK 4 0 0"),
    ],
    // Each refusal of a command that is an order.
    &[
        ("OPEN 64 64 1 2 1 2", "OPENED 1"),
        ("C PAINT 0 0 1 1", "ERR 2 BlocksFull 1 0"),
        ("C PUBLISH", "ORDERED 2"),
        ("K 2", "OK 1 1"),
        ("C PUBLISH", "ERR 3 VersionsFull"),
        ("C REVERT", "ORDERED 1"),
        ("K 1", "OK 2"),
        ("C COLLECT", "ERR 4 LogFull"),
    ],
    // Forms of a line.
    &[
        ("OPEN 0064 64 3 2 1 10", "OPENED 1"),
        ("", "BAD LINE"),
        (" L 0", "BAD LINE"),
        ("L 0 ", "BAD LINE"),
        ("L  0", "BAD LINE"),
        ("L", "BAD LINE"),
        ("L 0 0", "BAD LINE"),
        ("l 0", "BAD LINE"),
        ("LL 0", "BAD LINE"),
        ("L -1", "BAD LINE"),
        ("L 0000000000", "NOW 0 0"),
        ("L 00000000000", "BAD LINE"),
        ("L 4294967295", "NOT ENABLED"),
        ("L 4294967296", "BAD LINE"),
        ("L 0\r", "NOW 0 0"),
        ("L 0\r\r", "BAD LINE"),
        ("M 0", "BAD LINE"),
        ("M 0 0 0", "BAD LINE"),
        ("T 0 0", "BAD LINE"),
        ("T 0 0 0 0", "BAD LINE"),
        ("E 0", "NOT ENABLED"),
        ("E", "BAD LINE"),
        ("OPEN 64 64 3 2 1 10", "BAD LINE"),
        ("V 0", "NOT ENABLED"),
    ],
    // Forms of a command, and counts of steps.
    &[
        ("OPEN 64 64 3 2 1 10", "OPENED 1"),
        ("C", "BAD LINE"),
        ("C ", "BAD LINE"),
        ("C  PUBLISH", "BAD LINE"),
        ("C publish", "BAD LINE"),
        ("C CHECKPOINT now", "ERR 12 BadArguments"),
        ("C STAMP 0 0 11", "BAD LINE"),
        ("C AT city 0 0", "BAD LINE"),
        ("C PUBLISH ", "ERR 12 BadArguments"),
        ("C PAINT 0 0 1", "ERR 12 BadArguments"),
        ("C CLEAR 0 0 4097 1", "ERR 12 BadArguments"),
        ("K 0", "NOT ENABLED"),
        ("K 1", "NOT ENABLED"),
        ("C REVERT", "ORDERED 1"),
        ("C PUBLISH ", "ERR 12 BadArguments"),
        ("C CHECKPOINT", "NOT ENABLED"),
        ("K 0", "NOT ENABLED"),
        ("K 4294967295", "NOT ENABLED"),
        ("K 4294967296", "BAD LINE"),
        ("K", "BAD LINE"),
        ("K 1", "OK 1"),
        ("C CHECKPOINT", "ORDERED 1"),
        ("K 1", "OK 2"),
        ("L 0", "NOW 2 0"),
    ],
];

/// Texts whose first line opens no world, and their only line.
static REFUSED: [(&str, &str); 24] = [
    ("OPEN 128 1 1 2 1 10\nL 0\n", "ERR 16 BadSetting Blocks\n"),
    ("OPEN 64 64 16385 2 1 10\n", "ERR 16 BadSetting Blocks\n"),
    ("OPEN 64 64 0 0 0 0\n", "ERR 16 BadSetting Blocks\n"),
    ("OPEN 64 64 3 1 1 10\n", "ERR 16 BadSetting Versions\n"),
    ("OPEN 64 64 3 65 0 0\n", "ERR 16 BadSetting Versions\n"),
    ("OPEN 64 64 3 2 0 10\n", "ERR 16 BadSetting Sessions\n"),
    ("OPEN 64 64 3 2 65 10\n", "ERR 16 BadSetting Sessions\n"),
    ("OPEN 64 64 3 2 1 0\n", "ERR 16 BadSetting Log\n"),
    ("OPEN 64 64 3 2 1 1048577\n", "ERR 16 BadSetting Log\n"),
    ("OPEN 64 64 3 2 1 4294967295\n", "ERR 16 BadSetting Log\n"),
    ("OPEN 64 64 3 2 1 4294967296\n", "ERR 12 BadArguments\n"),
    ("", "ERR 12 BadArguments\n"),
    ("\n", "ERR 12 BadArguments\n"),
    ("OPEN 64 64 3 2 1 10", "ERR 12 BadArguments\n"),
    ("OPEN 64 64 3 2 1 10 \n", "ERR 12 BadArguments\n"),
    ("OPEN 64 64 3 2 1\n", "ERR 12 BadArguments\n"),
    ("OPEN 64 64 3 2 1 10 0\n", "ERR 12 BadArguments\n"),
    ("open 64 64 3 2 1 10\n", "ERR 12 BadArguments\n"),
    ("L 0\nOPEN 64 64 3 2 1 10\n", "ERR 12 BadArguments\n"),
    ("OPEN 0 64 3 2 1 10\n", "ERR 12 BadArguments\n"),
    ("OPEN 64 0 3 2 1 10\n", "ERR 12 BadArguments\n"),
    ("OPEN 4097 1 3 2 1 10\n", "ERR 12 BadArguments\n"),
    ("OPEN 1 4097 3 2 1 10\n", "ERR 12 BadArguments\n"),
    ("OPEN 65600 1 3 2 1 10\n", "ERR 12 BadArguments\n"),
];

/// Writes a text and its answers from their lines.
fn joined(alloc: Global, lines: &[(&str, &str)]) -> Result<(String, String), Fail> {
    let mut text = String::new(alloc);
    let mut answers = String::new(alloc);
    for (line, answer) in lines {
        text.push_str(line)?;
        text.push('\n')?;
        answers.push_str(answer)?;
        answers.push('\n')?;
    }
    Ok((text, answers))
}

/// Does the lines of a text, and compares what is written and the status. All of the text is read.
fn answers<R: Abort + AllocGlobal>(rt: &R, text: &str, want: &str, status: u8) {
    let mut reader = MemorySource::new(text.as_bytes());
    let mut writer = MemorySink::new(rt.alloc());
    let got = steps_run(rt.alloc(), &mut reader, &mut writer);
    same(rt, writer.bytes(), want.as_bytes(), text);
    same(rt, (got, reader.left().len()), (status, 0), text);
}

#[test]
fn lines_are_answered(rt: HostRuntime) -> Result<(), Fail> {
    for lines in &RUNS {
        let (text, want) = joined(rt.alloc(), lines)?;
        answers(&rt, text.as_str(), want.as_str(), 0);
    }
    Ok(())
}

#[test]
fn first_lines_are_refused(rt: HostRuntime) {
    for (text, want) in &REFUSED {
        answers(&rt, text, want, 1);
    }
}

/// A text of two lines, and what follows its last LF.
const SHORT: &str = "OPEN 64 64 3 2 1 10\nL 0\nA 0";

#[test]
fn what_no_line_feed_ends_is_no_line(rt: HostRuntime) {
    answers(&rt, SHORT, "OPENED 1\nNOW 0 0\n", 0);
}

#[test]
fn a_failed_read_writes_nothing(rt: HostRuntime) {
    for call in 1..=3 {
        let mut reader = MemorySource::new(SHORT.as_bytes()).failing_at(call);
        let mut writer = MemorySink::new(rt.alloc());
        let status = steps_run(rt.alloc(), &mut reader, &mut writer);
        let failed = u8::from(reader.failed_reads() == 1);
        same(&rt, status, failed, ("at call", call));
        holds(
            &rt,
            writer.bytes().is_empty() == (failed == 1),
            ("at call", call),
        );
    }
}

#[test]
fn a_failed_write_ends_the_run(rt: HostRuntime) {
    // Two lines are written, and then all is flushed. A failing write leaves half of its line.
    let beginnings: [&[u8]; 3] = [b"OPEN", b"OPENED 1\nNOW ", b"OPENED 1\nNOW 0 0\n"];
    for (call, want) in (1u64..).zip(beginnings) {
        let mut reader = MemorySource::new(SHORT.as_bytes());
        let mut writer = MemorySink::new(rt.alloc()).failing_at(call);
        let status = steps_run(rt.alloc(), &mut reader, &mut writer);
        same(
            &rt,
            (status, writer.failed_writes()),
            (1, 1),
            ("at call", call),
        );
        same(&rt, writer.bytes(), want, ("at call", call));
    }
}
