//! A writer that keeps the first bytes written to it.

ghost use Rattle.std.specs.Prelude.{◌≡◌, ℕ, None};

use crate::std_streams::WriterSink;
use memchr::memchr;
use metric::{Sink, WriteFault};
use std::io::Write;
use std::marker::Model;

/// How many bytes it keeps: enough for the line of any refusal.
pub const START: usize = 40;

/// A writer of text that keeps the first bytes. Contracts see the count of failed calls.
#[derive(Drop)]
pub struct Noted<W: Write + Drop> {
    writer: WriterSink<W>,
    /// The first bytes, and then zeros.
    start: [u8; START],
}

impl<W: Write + Drop> Model for Noted<W> {
    ghost Value = { ℕ };

    ghost view = { λ n. n.writer };
}

impl<W: Write + Drop> Noted<W> {
    /// Wraps a writer of which nothing was written.
    pub fn new(writer: WriterSink<W>) -> Self
        ensures { result ≡ writer }
    {
        Noted {
            writer,
            start: [0; START],
        }
    }

    /// The first bytes that were to be written, and zeros after them.
    pub fn start(&self) -> &[u8] {
        self.start.as_slice()
    }

    /// Keeps what fits of these bytes.
    fn keep(&mut self, bytes: &[u8])
        ensures { self.new ≡ self.old }
    {
        let used = memchr(0, self.start.as_slice()).unwrap_or(START);
        let count = bytes.len().min(START - used);
        self.start[used..used + count].copy_from_slice(&bytes[..count]);
    }
}

impl<W: Write + Drop> Sink for Noted<W> {
    ghost held = { λ _. None };

    ghost failed_writes = { λ n. n };

    ghost unread = { λ _. (None, 0) };

    fn write_all(&mut self, bytes: &[u8]) -> Result<(), WriteFault> {
        self.keep(bytes);
        self.writer.write_all(bytes)
    }

    fn flush(&mut self) -> Result<(), WriteFault> {
        self.writer.flush()
    }

    fn failed_writes(&self) -> u64 {
        self.writer.failed_writes()
    }
}
