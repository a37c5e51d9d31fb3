//! Streams in memory, whose bytes contracts see, and which can be set to fail at a call.

ghost use Rattle.std.specs.Prelude.{◌≡◌, Some, None, []};

use metric::{ReadFault, Sink, Source, Stream, WriteFault};
use std::alloc::Global;
use std::marker::Model;

/// How many calls remain until one fails; `None` where none is to fail.
#[derive(Clone, Copy, Debug)]
struct Countdown(Option<u64>);

impl Countdown {
    /// Counts a call, and returns whether it is the one to fail.
    fn fails(&mut self) -> bool {
        let fails = self.0 == Some(1);
        self.0 = self.0.map(|calls| calls.saturating_sub(1));
        fails
    }
}

/// A reader over bytes in memory. Contracts see the bytes left to read and the count of failed
/// reads.
#[derive(Debug, Drop)]
pub struct MemorySource<'a> {
    left: &'a [u8],
    failed: u64,
    until_failure: Countdown,
}

impl<'a> Model for MemorySource<'a> {
    ghost use Rattle.memory_streams.specs.Told.{Told};

    ghost Value = { Told };

    ghost view = { λ s. record { bytes = s.left.now; failed = s.failed } };
}

impl<'a> MemorySource<'a> {
    /// A reader over these bytes.
    pub fn new(bytes: &'a [u8]) -> Self
        ensures { result ≡ record { bytes = bytes.entry.now; failed = 0 } }
    {
        MemorySource {
            left: bytes,
            failed: 0,
            until_failure: Countdown(None),
        }
    }

    /// Makes the k-th read from now on fail, counted from 1.
    pub fn failing_at(self, k: u64) -> Self
        ensures { result ≡ self.entry }
    {
        MemorySource {
            left: self.left,
            failed: self.failed,
            until_failure: Countdown(Some(k)),
        }
    }

    /// The bytes left to read.
    pub fn left(&self) -> &'a [u8]
        ensures { result.now ≡ self.now.bytes }
    {
        self.left
    }
}

impl Source for MemorySource<'_> {
    ghost rest = { λ s. Some s.bytes };

    ghost failed_reads = { λ s. s.failed };

    ghost written = { λ _. (None, 0) };

    fn next_byte(&mut self) -> Result<Option<u8>, ReadFault> {
        if self.until_failure.fails() {
            self.failed += 1;
            return Err(ReadFault);
        }
        match self.left.split_first() {
            Some((byte, others)) => {
                self.left = others;
                Ok(Some(*byte))
            }
            None => Ok(None),
        }
    }

    fn failed_reads(&self) -> u64 {
        self.failed
    }
}

/// A writer that keeps what it is given. Contracts see these bytes and the count of failed writes
/// and flushes.
///
/// A write also fails where there is no memory to keep its bytes.
#[derive(Debug, Drop)]
pub struct MemorySink {
    bytes: Vec<u8>,
    failed: u64,
    until_failure: Countdown,
}

impl Model for MemorySink {
    ghost use Rattle.memory_streams.specs.Told.{Told};

    ghost Value = { Told };

    ghost view = { λ s. record { bytes = s.bytes.items; failed = s.failed } };
}

impl MemorySink {
    /// A writer that holds nothing yet.
    pub fn new(alloc: Global) -> Self
        ensures { result ≡ record { bytes = []; failed = 0 } }
    {
        MemorySink {
            bytes: Vec::new(alloc),
            failed: 0,
            until_failure: Countdown(None),
        }
    }

    /// Makes the k-th call from now on fail, counted from 1, writes and flushes alike. A write that
    /// fails this way has written the first half of its bytes.
    pub fn failing_at(self, k: u64) -> Self
        ensures { result ≡ self }
    {
        MemorySink {
            bytes: self.bytes,
            failed: self.failed,
            until_failure: Countdown(Some(k)),
        }
    }

    /// The bytes written.
    pub fn bytes(&self) -> &[u8]
        ensures { result.now ≡ self.now.bytes }
    {
        self.bytes.as_slice()
    }
}

impl Sink for MemorySink {
    ghost held = { λ s. Some s.bytes };

    ghost failed_writes = { λ s. s.failed };

    ghost unread = { λ _. (None, 0) };

    fn write_all(&mut self, bytes: &[u8]) -> Result<(), WriteFault> {
        if self.until_failure.fails() {
            let _ = self.bytes.extend_from_slice(&bytes[..bytes.len() / 2]);
            self.failed += 1;
            return Err(WriteFault);
        }
        if self.bytes.extend_from_slice(bytes).is_err() {
            self.failed += 1;
            return Err(WriteFault);
        }
        Ok(())
    }

    fn flush(&mut self) -> Result<(), WriteFault> {
        if self.until_failure.fails() {
            self.failed += 1;
            return Err(WriteFault);
        }
        Ok(())
    }

    fn failed_writes(&self) -> u64 {
        self.failed
    }
}

/// A reader and a writer in memory as one stream.
#[derive(Debug, Drop)]
pub struct MemoryStream<'a> {
    source: MemorySource<'a>,
    sink: MemorySink,
}

impl<'a> Model for MemoryStream<'a> {
    ghost use Rattle.memory_streams.specs.Told.{BothTold};

    ghost Value = { BothTold };

    ghost view = { λ s. record { read = s.source; written = s.sink } };
}

impl<'a> MemoryStream<'a> {
    /// A stream that reads from `source` and writes to `sink`.
    pub fn new(source: MemorySource<'a>, sink: MemorySink) -> Self
        ensures { result ≡ record { read = source.entry; written = sink } }
    {
        MemoryStream { source, sink }
    }

    /// The bytes left to read.
    pub fn left(&self) -> &'a [u8]
        ensures { result.now ≡ self.now.read.bytes }
    {
        self.source.left()
    }

    /// The bytes written.
    pub fn bytes(&self) -> &[u8]
        ensures { result.now ≡ self.now.written.bytes }
    {
        self.sink.bytes()
    }
}

impl Source for MemoryStream<'_> {
    ghost rest = { λ s. Some s.read.bytes };

    ghost failed_reads = { λ s. s.read.failed };

    ghost written = { λ s. (Some s.written.bytes, s.written.failed) };

    fn next_byte(&mut self) -> Result<Option<u8>, ReadFault> {
        self.source.next_byte()
    }

    fn failed_reads(&self) -> u64 {
        self.source.failed_reads()
    }
}

impl Sink for MemoryStream<'_> {
    ghost held = { λ s. Some s.written.bytes };

    ghost failed_writes = { λ s. s.written.failed };

    ghost unread = { λ s. (Some s.read.bytes, s.read.failed) };

    fn write_all(&mut self, bytes: &[u8]) -> Result<(), WriteFault> {
        self.sink.write_all(bytes)
    }

    fn flush(&mut self) -> Result<(), WriteFault> {
        self.sink.flush()
    }

    fn failed_writes(&self) -> u64 {
        self.sink.failed_writes()
    }
}

impl Stream for MemoryStream<'_> {
    ghost use Rattle.std.specs.Prelude.{refl};

    ghost wire = { λ s. record {
      rest = Some s.read.bytes;
      held = Some s.written.bytes;
      failed_reads = s.read.failed;
      failed_writes = s.written.failed;
    } };

    ghost shown = { λ s. refl };

    ghost reading = { λ s. refl };

    ghost writing = { λ s. refl };
}
