//! Readers and writers of std as buffered streams. Contracts don't see their bytes.

ghost use Rattle.std.specs.Prelude.{◌≡◌, ◌+◌, ℕ, None, IfOk};
ghost use Rattle.metric.specs.Stream.{CanFail};

use metric::{NoMemory, ReadFault, Sink, Source, WriteFault, buffered_reader, buffered_writer};
use std::alloc::Global;
use std::io::{BufReader, BufWriter, ErrorKind, Read, Write};
use std::marker::Model;

/// The bytes of a buffer.
const ROOM: usize = 8192;

/// A reader of std, read ahead in blocks. Contracts see the count of failed reads.
#[derive(Drop)]
pub struct ReaderSource<R: Read + Drop> {
    reader: BufReader<R>,
    failed: u64,
}

impl<R: Read + Drop> Model for ReaderSource<R> {
    ghost Value = { ℕ };

    ghost view = { λ s. s.failed };
}

impl<R: Read + Drop> ReaderSource<R> {
    /// Wraps a reader with a buffer of its own. Fails only when out of memory.
    pub fn new(alloc: Global, reader: R) -> Result<Self, NoMemory>
        ensures { IfOk result (λ source. source ≡ 0) }
    {
        let reader = buffered_reader(alloc, ROOM, reader)?;
        Ok(ReaderSource { reader, failed: 0 })
    }
}

impl<R: Read + Drop> Source for ReaderSource<R> {
    ghost rest = { λ _. None };

    ghost failed_reads = { λ s. s };

    ghost written = { λ _. (None, 0) };

    fn next_byte(&mut self) -> Result<Option<u8>, ReadFault> {
        let mut byte = [0];
        let count = self.next_block(byte.as_mut_slice())?;
        Ok(if count == 0 { None } else { Some(byte[0]) })
    }

    /// Retries a read that a signal interrupts.
    fn next_block(&mut self, block: &mut [u8]) -> Result<usize, ReadFault> {
        'reads: for _ in 0..u64::MAX {
            match self.reader.read(block) {
                Ok(count) => return Ok(count),
                Err(fault) if fault.kind() == ErrorKind::Interrupted => {}
                Err(_) => break,
            }
        }
        self.failed += 1;
        Err(ReadFault)
    }

    fn failed_reads(&self) -> u64 {
        self.failed
    }
}

/// A writer of std, written in blocks. Contracts see the count of failed writes and flushes.
///
/// Once a call has failed, nothing more is written, buffered bytes included, and each later call
/// fails.
#[derive(Drop)]
pub struct WriterSink<W: Write + Drop> {
    writer: Option<BufWriter<W>>,
    failed: u64,
}

impl<W: Write + Drop> Model for WriterSink<W> {
    ghost Value = { ℕ };

    ghost view = { λ s. s.failed };
}

impl<W: Write + Drop> WriterSink<W> {
    /// Wraps a writer with a buffer of its own. Fails only when out of memory.
    pub fn new(alloc: Global, writer: W) -> Result<Self, NoMemory>
        ensures { IfOk result (λ sink. sink ≡ 0) }
    {
        let writer = buffered_writer(alloc, ROOM, writer)?;
        Ok(WriterSink {
            writer: Some(writer),
            failed: 0,
        })
    }

    /// Counts a failed call, and drops the writer without flushing its buffer.
    fn fail(&mut self) -> WriteFault
        requires { CanFail self.old }
        ensures { self.new ≡ self.old + 1 }
    {
        if let Some(writer) = self.writer.take() {
            let _unwritten = writer.into_parts();
        }
        self.failed += 1;
        WriteFault
    }
}

impl<W: Write + Drop> Sink for WriterSink<W> {
    ghost held = { λ _. None };

    ghost failed_writes = { λ s. s };

    ghost unread = { λ _. (None, 0) };

    fn write_all(&mut self, bytes: &[u8]) -> Result<(), WriteFault> {
        if let Some(writer) = &mut self.writer
            && writer.write_all(bytes).is_ok()
        {
            return Ok(());
        }
        Err(self.fail())
    }

    fn flush(&mut self) -> Result<(), WriteFault> {
        if let Some(writer) = &mut self.writer
            && writer.flush().is_ok()
        {
            return Ok(());
        }
        Err(self.fail())
    }

    fn failed_writes(&self) -> u64 {
        self.failed
    }
}
