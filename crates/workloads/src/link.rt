//! A connection in memory: it is read in blocks, as a socket is, and of what is written it keeps a
//! digest.

ghost use Rattle.std.specs.Prelude.{◌≡◌, ◌≤◌, IfSome, None, length};
ghost use Rattle.metric.specs.Stream.{StopsAt};

use crate::digest::Digest;
use memchr::memchr;
use metric::{ReadFault, Sink, Source, Stream, WriteFault};

/// The most bytes that one read takes.
const MOST: usize = 8192;

/// A connection with these bytes left to read.
#[derive(Drop)]
pub struct Link<'a> {
    left: &'a [u8],
    pub written: Digest,
}

impl<'a> Link<'a> {
    /// A connection that sends these bytes.
    pub fn new(left: &'a [u8]) -> Self {
        Link {
            left,
            written: Digest::new(),
        }
    }

    /// Takes the next bytes into the front of the block, none after a first `stop` if that is
    /// given. Returns how many.
    fn take(&mut self, stop: Option<u8>, block: &mut [u8]) -> usize
        ensures fits { result ≤ length block.new }
        ensures stops { IfSome stop (λ stop. StopsAt stop result block.new) }
    {
        let front = &self.left[..self.left.len().min(block.len()).min(MOST)];
        let count = match stop {
            Some(stop) => count_until(stop, front),
            None => front.len(),
        };
        block[..count].copy_from_slice(&front[..count]);
        self.left = &self.left[count..];
        count
    }
}

/// The number of bytes up to and including the first `stop`, or of all bytes if there is none.
fn count_until(stop: u8, bytes: &[u8]) -> usize
    ensures within { result ≤ length bytes.now }
    ensures stops { StopsAt stop result bytes.now }
{
    match memchr(stop, bytes) {
        Some(place) => place + 1,
        None => bytes.len(),
    }
}

impl Source for Link<'_> {
    ghost rest = { λ _. None };

    ghost failed_reads = { λ _. 0 };

    ghost written = { λ _. (None, 0) };

    fn next_byte(&mut self) -> Result<Option<u8>, ReadFault> {
        match self.left.split_first() {
            Some((byte, others)) => {
                self.left = others;
                Ok(Some(*byte))
            }
            None => Ok(None),
        }
    }

    fn next_block(&mut self, block: &mut [u8]) -> Result<usize, ReadFault> {
        Ok(self.take(None, block))
    }

    fn next_until(&mut self, stop: u8, block: &mut [u8]) -> Result<usize, ReadFault> {
        Ok(self.take(Some(stop), block))
    }

    fn failed_reads(&self) -> u64 {
        0
    }
}

impl Sink for Link<'_> {
    ghost held = { λ _. None };

    ghost failed_writes = { λ _. 0 };

    ghost unread = { λ _. (None, 0) };

    fn write_all(&mut self, bytes: &[u8]) -> Result<(), WriteFault> {
        self.written.bytes(bytes);
        Ok(())
    }

    fn flush(&mut self) -> Result<(), WriteFault> {
        Ok(())
    }

    fn failed_writes(&self) -> u64 {
        0
    }
}

impl Stream for Link<'_> {
    ghost use Rattle.std.specs.Prelude.{refl};
    ghost use Rattle.metric.specs.Wire.{silent};

    ghost wire = { λ _. silent 0 0 };

    ghost shown = { λ s. refl };

    ghost reading = { λ s. refl };

    ghost writing = { λ s. refl };
}
