//! Lines that are asked: what is sent, what is printed, and servers that end early.

use crate::compare::{holds, same};
use ask::{Deaf, Hearer, ask_run};
use memory_streams::{MemorySink, MemorySource, MemoryStream};
use metric::{Sink, Source};
use std::process::Abort;

/// The input, what the server says, what is sent and printed, and the status.
static RUNS: [(&[u8], &[u8], &[u8], &[u8], u8); 16] = [
    (
        b"PIN\nQUIT\n",
        b"OK 0\nBYE\n",
        b"PIN\nQUIT\n",
        b"OK 0\nBYE\n",
        0,
    ),
    (b"", b"", b"", b"", 0),
    (b"PIN", b"OK 0\n", b"", b"", 0),
    (b"PIN\nUNP", b"OK 0\nOK 0\n", b"PIN\n", b"OK 0\n", 0),
    (b"QUIT\nPIN\n", b"BYE\nOK 0\n", b"QUIT\n", b"BYE\n", 0),
    (
        b"PIN\r\nQUIT\r\n",
        b"OK 0\nBYE\n",
        b"PIN\r\nQUIT\r\n",
        b"OK 0\nBYE\n",
        0,
    ),
    (
        b"STAMP 2 1 11\nP1\n2 2\n1001PIN\n",
        b"OK 1 2\nOK 0\n",
        b"STAMP 2 1 11\nP1\n2 2\n1001PIN\n",
        b"OK 1 2\nOK 0\n",
        0,
    ),
    (b"STAMP 2 1 11\nP1\n2 2\n100", b"", b"", b"", 0),
    (
        b"STAMP 2 1\nPIN\n",
        b"ERR 12 BadArguments\nOK 0\n",
        b"STAMP 2 1\nPIN\n",
        b"ERR 12 BadArguments\nOK 0\n",
        0,
    ),
    (
        b"STAMP 0 0 17100001\nPIN\n",
        b"ERR 14 TooMuchData\n",
        b"STAMP 0 0 17100001\nPIN\n",
        b"ERR 14 TooMuchData\nFAULT net\n",
        1,
    ),
    (
        b"DUMP\nQUIT\n",
        b"OK 15\nP1\n3 2\n100\n000\nBYE\n",
        b"DUMP\nQUIT\n",
        b"OK 15\nP1\n3 2\n100\n000\nBYE\n",
        0,
    ),
    (
        b"DUMP\nQUIT\n",
        b"ERR 6 NotPinned\nBYE\n",
        b"DUMP\nQUIT\n",
        b"ERR 6 NotPinned\nBYE\n",
        0,
    ),
    (
        b"DUMP\nQUIT\n",
        b"OK 15\nP1\n3 2\n10",
        b"DUMP\n",
        b"FAULT net\n",
        1,
    ),
    (
        b"PIN\nQUIT\n",
        b"OK 0\nBY",
        b"PIN\nQUIT\n",
        b"OK 0\nFAULT net\n",
        1,
    ),
    (
        b"PIN\nQUIT\n",
        b"OK 0\n",
        b"PIN\nQUIT\n",
        b"OK 0\nFAULT net\n",
        1,
    ),
    (b"PIN\n", b"", b"PIN\n", b"FAULT net\n", 1),
];

/// Asks lines, and compares what is sent and printed, and the status.
fn asks<R: Abort + AllocGlobal>(
    rt: &R,
    (input, said, sent, printed, status): (&[u8], &[u8], &[u8], &[u8], u8),
) {
    let mut stream = MemoryStream::new(MemorySource::new(said), MemorySink::new(rt.alloc()));
    let mut reader = MemorySource::new(input);
    let mut writer = MemorySink::new(rt.alloc());
    let got = ask_run(rt.alloc(), &mut stream, &mut reader, &mut writer, &mut Deaf);
    same(rt, (got, stream.bytes()), (status, sent), (input, said));
    same(rt, writer.bytes(), printed, (input, said));
}

#[test]
fn lines_are_asked(rt: HostRuntime) {
    for run in &RUNS {
        asks(&rt, *run);
    }
}

/// Keeps what it hears, each request before its reply.
#[derive(Drop)]
struct Kept<'a> {
    bytes: &'a mut Vec<u8>,
}

impl<'a> Hearer for Kept<'a> {
    fn heard(&mut self, request: &[u8], reply: &[u8]) {
        let _ = self.bytes.extend_from_slice(request);
        let _ = self.bytes.extend_from_slice(reply);
    }
}

#[test]
fn each_exchange_is_heard_once_its_reply_is_printed(rt: HostRuntime) {
    let mut bytes = Vec::new(rt.alloc());
    for (write, heard) in [
        (
            1000,
            b"PIN\nOK 0\nNO\nERR 11 UnknownCommand\nQUIT\nBYE\n".as_slice(),
        ),
        (1, b"".as_slice()),
    ] {
        bytes.clear();
        let source = MemorySource::new(b"OK 0\nERR 11 UnknownCommand\nBYE\n");
        let mut stream = MemoryStream::new(source, MemorySink::new(rt.alloc()));
        let mut reader = MemorySource::new(b"PIN\nNO\nQUIT\nUNPIN\n");
        let mut writer = MemorySink::new(rt.alloc()).failing_at(write);
        let mut kept = Kept { bytes: &mut bytes };
        ask_run(rt.alloc(), &mut stream, &mut reader, &mut writer, &mut kept);
        same(&rt, bytes.as_slice(), heard, write);
    }
}

/// Lines and replies whose calls fail in turn.
const INPUT: &[u8] = b"PIN\nDUMP\nSTAMP 2 1 11\nP1\n2 2\n1001QUIT\n";

/// What the server says to them.
const SAID: &[u8] = b"OK 0\nOK 15\nP1\n3 2\n100\n000\nOK 1 2\nBYE\n";

/// Asks over a connection whose read of this number fails, if there are that many.
fn told_after_failed_read<R: Abort + AllocGlobal>(rt: &R, read: u64) {
    let source = MemorySource::new(SAID).failing_at(read);
    let mut stream = MemoryStream::new(source, MemorySink::new(rt.alloc()));
    let mut reader = MemorySource::new(INPUT);
    let mut writer = MemorySink::new(rt.alloc());
    let status = ask_run(rt.alloc(), &mut stream, &mut reader, &mut writer, &mut Deaf);
    let printed = writer.bytes();
    match printed.strip_suffix(b"FAULT net\n".as_slice()) {
        Some(front) => holds(rt, status == 1 && SAID.starts_with(front), ("read", read)),
        None => holds(rt, status == 0 && printed == SAID, ("read", read)),
    }
}

/// Asks over a connection whose write of this number fails, if there are that many.
fn told_after_failed_write<R: Abort + AllocGlobal>(rt: &R, write: u64) {
    let sink = MemorySink::new(rt.alloc()).failing_at(write);
    let mut stream = MemoryStream::new(MemorySource::new(SAID), sink);
    let mut reader = MemorySource::new(INPUT);
    let mut writer = MemorySink::new(rt.alloc());
    let status = ask_run(rt.alloc(), &mut stream, &mut reader, &mut writer, &mut Deaf);
    let told = status == 0 || writer.bytes().ends_with(b"FAULT net\n");
    holds(
        rt,
        told && INPUT.starts_with(stream.bytes()),
        ("write", write),
    );
}

#[test]
fn a_failed_connection_is_told(rt: HostRuntime) {
    for read in 1..80 {
        told_after_failed_read(&rt, read);
    }
    for write in 1..20 {
        told_after_failed_write(&rt, write);
    }
}

/// Asks with standard streams whose calls of these numbers fail, if there are that many; nothing
/// else is printed then.
fn ends_the_run<R: Abort + AllocGlobal>(rt: &R, read: u64, write: u64) {
    let mut stream = MemoryStream::new(MemorySource::new(SAID), MemorySink::new(rt.alloc()));
    let mut reader = MemorySource::new(INPUT).failing_at(read);
    let mut writer = MemorySink::new(rt.alloc()).failing_at(write);
    let status = ask_run(rt.alloc(), &mut stream, &mut reader, &mut writer, &mut Deaf);
    let failed = reader.failed_reads() == 1 || writer.failed_writes() == 1;
    holds(
        rt,
        failed == (status == 1) && SAID.starts_with(writer.bytes()),
        (read, write),
    );
}

#[test]
fn a_failed_standard_stream_ends_the_run(rt: HostRuntime) {
    for call in 1..45 {
        ends_the_run(&rt, call, 1000);
        ends_the_run(&rt, 1000, call);
    }
}
