//! Byte streams: a reader and a writer, as the engines see them.
//!
//! An engine reads byte by byte or in blocks, and writes whole texts. A stream may show its bytes
//! to contracts, as one in memory does, or none.

ghost use Rattle.std.specs.Prelude.{◌≡◌, ℕ, List, Option, IfOk, OnOk, OnErr};
ghost use Rattle.metric.specs.Wire.{Wire};
ghost use Rattle.metric.specs.Stream.{TakesByte, TakesBlock, StopsAt, Appends, AppendsFront};
ghost use Rattle.metric.specs.Stream.{Counts, CanFail};

/// A read failed.
#[derive(Clone, Copy, Debug, PartialEq, Eq)]
pub struct ReadFault;

/// A write or a flush failed.
#[derive(Clone, Copy, Debug, PartialEq, Eq)]
pub struct WriteFault;

/// A source of bytes.
pub trait Source {
    /// The bytes left to read, where the stream shows them.
    ghost rest: { Self → Option (List ℕ) };

    /// How many reads have failed.
    ghost failed_reads: { Self → ℕ };

    /// Of a stream that can be written too: the bytes written, and how many writes have failed.
    ghost written: { Self → Option (List ℕ) × ℕ };

    /// Takes the next byte; `None` at the end. A failed read takes nothing.
    fn next_byte(&mut self) -> Result<Option<u8>, ReadFault>
        requires { CanFail (failed_reads self.old) }
        ensures byte { IfOk result (λ byte. TakesByte (rest self.old) byte (rest self.new)) }
        ensures kept { OnErr result (rest self.new ≡ rest self.old) }
        ensures counts { Counts (failed_reads self.old) result (failed_reads self.new) }
        ensures written { written self.new ≡ written self.old };

    /// Takes the next bytes into the front of `block`, at most its length, and returns how many.
    /// Takes none only at the end, or if `block` is empty. A failed read takes nothing.
    fn next_block(&mut self, block: &mut [u8]) -> Result<usize, ReadFault>
        requires { CanFail (failed_reads self.old) }
        ensures taken { IfOk result
            (λ count. TakesBlock (rest self.old) count block.new (rest self.new)) }
        ensures kept { OnErr result (rest self.new ≡ rest self.old) }
        ensures counts { Counts (failed_reads self.old) result (failed_reads self.new) }
        ensures written { written self.new ≡ written self.old }
    {
        self.next_until(0, block)
    }

    /// As `next_block`, but takes none after the first byte that is `stop`.
    fn next_until(&mut self, stop: u8, block: &mut [u8]) -> Result<usize, ReadFault>
        requires { CanFail (failed_reads self.old) }
        ensures taken { IfOk result
            (λ count. TakesBlock (rest self.old) count block.new (rest self.new)) }
        ensures stops { IfOk result (λ count. StopsAt stop count block.new) }
        ensures kept { OnErr result (rest self.new ≡ rest self.old) }
        ensures counts { Counts (failed_reads self.old) result (failed_reads self.new) }
        ensures written { written self.new ≡ written self.old }
    {
        let Some(place) = block.first_mut() else {
            return Ok(0);
        };
        match self.next_byte() {
            Ok(Some(byte)) => {
                *place = byte;
                Ok(1)
            }
            Ok(None) => Ok(0),
            Err(fault) => Err(fault),
        }
    }

    /// How many reads have failed so far.
    fn failed_reads(&self) -> u64
        ensures { result ≡ failed_reads self.now };
}

/// A sink for bytes.
pub trait Sink {
    /// The bytes written, where the stream shows them.
    ghost held: { Self → Option (List ℕ) };

    /// How many writes and flushes have failed.
    ghost failed_writes: { Self → ℕ };

    /// Of a stream that can be read too: the bytes left to read, and how many reads have failed.
    ghost unread: { Self → Option (List ℕ) × ℕ };

    /// Writes all the bytes. On a failure, a prefix of them has been written.
    fn write_all(&mut self, bytes: &[u8]) -> Result<(), WriteFault>
        requires { CanFail (failed_writes self.old) }
        ensures all { OnOk result (Appends (held self.old) bytes.now (held self.new)) }
        ensures front { OnErr result (AppendsFront (held self.old) bytes.now (held self.new)) }
        ensures counts { Counts (failed_writes self.old) result (failed_writes self.new) }
        ensures unread { unread self.new ≡ unread self.old };

    /// Passes on what the stream has buffered.
    fn flush(&mut self) -> Result<(), WriteFault>
        requires { CanFail (failed_writes self.old) }
        ensures held { held self.new ≡ held self.old }
        ensures counts { Counts (failed_writes self.old) result (failed_writes self.new) }
        ensures unread { unread self.new ≡ unread self.old };

    /// How many writes and flushes have failed so far.
    fn failed_writes(&self) -> u64
        ensures { result ≡ failed_writes self.now };
}

/// A reader and a writer in one. Neither affects the other.
pub trait Stream: Source + Sink {
    /// What a contract sees of the stream: the bytes left to read, the bytes written, and how many
    /// reads and writes have failed.
    ghost wire: { Self → Wire };

    /// The wire shows what the source and the sink show.
    ghost shown: { (s : Self)
        → Self.wire s ≡ record {
          rest = Self.rest s;
          held = Self.held s;
          failed_reads = Self.failed_reads s;
          failed_writes = Self.failed_writes s;
        } };

    /// A write leaves the bytes left to read, and the count of failed reads.
    ghost reading: { (s : Self) → Self.unread s ≡ (Self.rest s, Self.failed_reads s) };

    /// A read leaves the bytes written, and the count of failed writes.
    ghost writing: { (s : Self) → Self.written s ≡ (Self.held s, Self.failed_writes s) };
}
