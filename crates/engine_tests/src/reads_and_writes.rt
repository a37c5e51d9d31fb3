//! Streams in memory and of std: the calls at which they fail, and what they hold then.

use crate::compare::same;
use memory_streams::{MemorySink, MemorySource, MemoryStream};
use metric::{ReadFault, Sink, Source, WriteFault};
use std::cell::Cell;
use std::io;
use std::test::Fail;
use streams::{ReaderSource, WriterSink};

/// The read that fails, and what each read of `ab` gives.
const READS: [(u64, [Result<Option<u8>, ReadFault>; 5]); 3] = [
    (
        1,
        [
            Err(ReadFault),
            Ok(Some(b'a')),
            Ok(Some(b'b')),
            Ok(None),
            Ok(None),
        ],
    ),
    (
        2,
        [
            Ok(Some(b'a')),
            Err(ReadFault),
            Ok(Some(b'b')),
            Ok(None),
            Ok(None),
        ],
    ),
    (
        3,
        [
            Ok(Some(b'a')),
            Ok(Some(b'b')),
            Err(ReadFault),
            Ok(None),
            Ok(None),
        ],
    ),
];

#[test]
fn a_source_fails_at_one_read(rt: HostRuntime) {
    for (failing, wanted) in READS {
        let mut source = MemorySource::new(b"ab").failing_at(failing);
        for want in wanted {
            assert!(rt; source.failed_reads() <= 1);
            same(&rt, source.next_byte(), want, ("failing read", failing));
        }
        assert!(rt; source.failed_reads() == 1);
        assert!(rt; source.left().is_empty());
    }
}

#[test]
fn a_source_is_read_by_blocks(rt: HostRuntime) {
    let mut source = MemorySource::new(b"ab").failing_at(2);
    let mut block = [b'-'; 2];
    for want in [Ok(1), Err(ReadFault), Ok(1), Ok(0)] {
        assert!(rt; source.failed_reads() <= 1);
        same(&rt, source.next_block(&mut []), Ok(0), "next block");
        same(
            &rt,
            source.next_block(block.as_mut_slice()),
            want,
            "next block",
        );
    }
    same(&rt, &block, b"b-", "block");
}

/// Of a write of `abcd`, a flush and a write of `efg`, the call that fails, and what the sink holds
/// then.
const WRITES: [(u64, &[u8]); 4] = [
    (1, b"abefg"),
    (2, b"abcdefg"),
    (3, b"abcde"),
    (4, b"abcdefg"),
];

#[test]
fn a_sink_fails_at_one_call(rt: HostRuntime) {
    for (failing, held) in WRITES {
        let mut sink = MemorySink::new(rt.alloc()).failing_at(failing);
        for call in 1..=3 {
            assert!(rt; sink.failed_writes() <= 1);
            let done = match call {
                1 => sink.write_all(b"abcd"),
                2 => sink.flush(),
                _ => sink.write_all(b"efg"),
            };
            same(
                &rt,
                done.is_err(),
                call == failing,
                ("call, failing call", call, failing),
            );
        }
        same(&rt, sink.bytes(), held, ("failing call", failing));
        same(
            &rt,
            sink.failed_writes(),
            u64::from(failing <= 3),
            "failed writes",
        );
    }
}

#[test]
fn a_stream_reads_and_writes_apart(rt: HostRuntime) {
    let source = MemorySource::new(b"abc").failing_at(2);
    let sink = MemorySink::new(rt.alloc()).failing_at(3);
    let mut stream = MemoryStream::new(source, sink);
    for want in [Ok(Some(b'a')), Err(ReadFault), Ok(Some(b'b'))] {
        assert!(rt; stream.failed_reads() <= 1 && stream.failed_writes() <= 1);
        same(&rt, stream.next_byte(), want, "next byte");
        same(
            &rt,
            stream.write_all(b"xy").is_ok(),
            want != Ok(Some(b'b')),
            "is ok",
        );
    }
    assert!(rt; stream.failed_writes() <= 1);
    assert!(rt; stream.flush().is_ok());
    same(
        &rt,
        (stream.failed_reads(), stream.failed_writes()),
        (1, 1),
        "failed reads and failed writes",
    );
    same(&rt, stream.left(), b"c".as_slice(), "left");
    same(&rt, stream.bytes(), b"xyxyx".as_slice(), "bytes");
}

/// A reader or a writer that fails at its second call, and counts the bytes that have passed.
#[derive(Drop)]
struct Halting<'a> {
    calls: u64,
    passed: &'a Cell<usize>,
}

impl Halting<'_> {
    fn pass(&mut self, count: usize) -> io::Result<()> {
        self.calls = self.calls.saturating_add(1);
        if self.calls == 2 {
            return Err(io::Error::from(io::ErrorKind::ConnectionReset));
        }
        self.passed.set(self.passed.get().saturating_add(count));
        Ok(())
    }
}

impl io::Read for Halting<'_> {
    fn read(&mut self, buffer: &mut [u8]) -> io::Result<usize> {
        match buffer.first_mut() {
            Some(byte) => {
                self.pass(1)?;
                *byte = b'a';
                Ok(1)
            }
            None => Ok(0),
        }
    }
}

impl io::Write for Halting<'_> {
    fn write(&mut self, bytes: &[u8]) -> io::Result<usize> {
        self.pass(bytes.len())?;
        Ok(bytes.len())
    }

    fn flush(&mut self) -> io::Result<()> {
        Ok(())
    }
}

#[test]
fn a_reader_is_read_to_its_end(rt: HostRuntime) -> Result<(), Fail> {
    let mut source = ReaderSource::new(rt.alloc(), b"abc".as_slice())?;
    for want in [Some(b'a'), Some(b'b'), Some(b'c'), None, None] {
        assert!(rt; source.failed_reads() == 0);
        same(&rt, source.next_byte(), Ok(want), "next byte");
    }
    Ok(())
}

#[test]
fn a_reader_is_read_by_blocks(rt: HostRuntime) -> Result<(), Fail> {
    let mut source = ReaderSource::new(rt.alloc(), b"abcde".as_slice())?;
    let mut block = [b'-'; 3];
    for (count, held) in [(3, b"abc"), (2, b"dec"), (0, b"dec")] {
        assert!(rt; source.failed_reads() == 0);
        same(
            &rt,
            source.next_block(block.as_mut_slice()),
            Ok(count),
            "next block",
        );
        same(&rt, &block, held, "block");
    }
    Ok(())
}

/// A reader of one byte whose first read is interrupted.
#[derive(Drop)]
struct Interrupted {
    reads: u8,
}

impl io::Read for Interrupted {
    fn read(&mut self, buffer: &mut [u8]) -> io::Result<usize> {
        self.reads = self.reads.saturating_add(1);
        match (self.reads, buffer.first_mut()) {
            (1, _) => Err(io::Error::from(io::ErrorKind::Interrupted)),
            (2, Some(byte)) => {
                *byte = b'a';
                Ok(1)
            }
            _ => Ok(0),
        }
    }
}

#[test]
fn an_interrupted_read_is_made_again(rt: HostRuntime) -> Result<(), Fail> {
    let mut source = ReaderSource::new(rt.alloc(), Interrupted { reads: 0 })?;
    for want in [Some(b'a'), None] {
        assert!(rt; source.failed_reads() == 0);
        same(&rt, source.next_byte(), Ok(want), "next byte");
    }
    Ok(())
}

#[test]
fn a_failed_read_loses_nothing(rt: HostRuntime) -> Result<(), Fail> {
    let passed = Cell::new(0);
    let calls = 0;
    let mut source = ReaderSource::new(
        rt.alloc(),
        Halting {
            calls,
            passed: &passed,
        },
    )?;
    for want in [Ok(Some(b'a')), Err(ReadFault), Ok(Some(b'a'))] {
        assert!(rt; source.failed_reads() <= 1);
        same(&rt, source.next_byte(), want, "next byte");
    }
    assert!(rt; source.failed_reads() == 1);
    same(&rt, passed.get(), 2, "get");
    Ok(())
}

#[test]
fn a_flush_passes_all_on(rt: HostRuntime) -> Result<(), Fail> {
    let mut kept = Vec::new(rt.alloc());
    let mut sink = WriterSink::new(rt.alloc(), &mut kept)?;
    for text in ["ab", "", "c"] {
        assert!(rt; sink.failed_writes() == 0);
        same(&rt, sink.write_all(text.as_bytes()), Ok(()), "write all");
    }
    assert!(rt; sink.failed_writes() == 0);
    same(&rt, sink.flush(), Ok(()), "flush");
    drop(sink);
    same(&rt, kept.as_slice(), b"abc".as_slice(), "as slice");
    Ok(())
}

/// More than a buffer holds.
const LONG: [u8; 20_000] = [b'a'; 20_000];

/// A writer that takes at most three bytes a call, and counts them.
#[derive(Drop)]
struct Slow<'a> {
    passed: &'a Cell<usize>,
}

impl io::Write for Slow<'_> {
    fn write(&mut self, bytes: &[u8]) -> io::Result<usize> {
        let taken = bytes.len().min(3);
        self.passed.set(self.passed.get().saturating_add(taken));
        Ok(taken)
    }

    fn flush(&mut self) -> io::Result<()> {
        Ok(())
    }
}

#[test]
fn a_writer_that_takes_little_gets_all(rt: HostRuntime) -> Result<(), Fail> {
    let passed = Cell::new(0);
    let mut sink = WriterSink::new(rt.alloc(), Slow { passed: &passed })?;
    assert!(rt; sink.failed_writes() == 0);
    same(&rt, sink.write_all(&LONG), Ok(()), "write all");
    assert!(rt; sink.failed_writes() == 0);
    same(&rt, sink.flush(), Ok(()), "flush");
    same(&rt, passed.get(), LONG.len(), "get");
    Ok(())
}

#[test]
fn a_failed_write_is_counted(rt: HostRuntime) -> Result<(), Fail> {
    let passed = Cell::new(0);
    let calls = 0;
    let mut sink = WriterSink::new(
        rt.alloc(),
        Halting {
            calls,
            passed: &passed,
        },
    )?;

    // Flushed bytes pass at once. After a failed flush nothing passes any more: neither what was
    // buffered, nor what comes later.
    for (text, written, flushed, failed) in [
        ("ab", Ok(()), Ok(()), 0),
        ("cd", Ok(()), Err(WriteFault), 1),
        ("e", Err(WriteFault), Err(WriteFault), 3),
    ] {
        assert!(rt; sink.failed_writes() <= 1);
        same(&rt, sink.write_all(text.as_bytes()), written, text);
        assert!(rt; sink.failed_writes() <= 2);
        same(&rt, sink.flush(), flushed, ("after", text));
        same(&rt, sink.failed_writes(), failed, ("after", text));
        same(&rt, passed.get(), 2, ("after", text));
    }
    drop(sink);
    same(&rt, passed.get(), 2, "nothing is let out at the end");

    let calls = 1;
    let mut sink = WriterSink::new(
        rt.alloc(),
        Halting {
            calls,
            passed: &passed,
        },
    )?;
    same(
        &rt,
        sink.write_all(LONG.as_slice()),
        Err(WriteFault),
        "write all",
    );
    assert!(rt; sink.failed_writes() == 1);
    drop(sink);
    same(&rt, passed.get(), 2, "nothing is let out at the end");
    Ok(())
}
