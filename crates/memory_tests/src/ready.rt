//! A stream whose writer has its capacity before it is served, so that no write can run out of
//! memory.

ghost use Rattle.std.specs.Prelude.{◌≡◌, None};

use metric::{ReadFault, Sink, Source, Stream, WriteFault};

/// A stream of these bytes, with capacity for what is written.
#[derive(Drop)]
pub struct Ready {
    left: &'static [u8],
    room: [u8; 64],
    count: usize,
    failed: u64,
}

impl Ready {
    /// A stream of these bytes.
    pub fn new(left: &'static [u8]) -> Self
        ensures { result.failed ≡ 0 }
    {
        Ready {
            left,
            room: [0; 64],
            count: 0,
            failed: 0,
        }
    }

    /// The bytes written.
    pub fn bytes(&self) -> &[u8] {
        self.room.get(..self.count).unwrap_or_default()
    }

    /// Takes the next byte.
    fn take(&mut self) -> Option<u8>
        ensures { self.new.failed ≡ self.old.failed }
    {
        let (byte, others) = self.left.split_first()?;
        self.left = others;
        Some(*byte)
    }

    /// Writes one byte, if there is capacity for it.
    fn put(&mut self, byte: u8) -> Option<()>
        ensures { self.new.failed ≡ self.old.failed }
    {
        let place = self.room.get_mut(self.count)?;
        *place = byte;
        self.count = self.count.saturating_add(1);
        Some(())
    }
}

impl Source for Ready {
    ghost rest = { λ _. None };

    ghost failed_reads = { λ _. 0 };

    ghost written = { λ s. (None, s.failed) };

    fn next_byte(&mut self) -> Result<Option<u8>, ReadFault> {
        Ok(self.take())
    }

    fn failed_reads(&self) -> u64 {
        0
    }
}

impl Sink for Ready {
    ghost held = { λ _. None };

    ghost failed_writes = { λ s. s.failed };

    ghost unread = { λ _. (None, 0) };

    fn write_all(&mut self, bytes: &[u8]) -> Result<(), WriteFault> {
        for byte in bytes {
            if self.put(*byte).is_none() {
                self.failed += 1;
                return Err(WriteFault);
            }
        }
        Ok(())
    }

    fn flush(&mut self) -> Result<(), WriteFault> {
        Ok(())
    }

    fn failed_writes(&self) -> u64 {
        self.failed
    }
}

impl Stream for Ready {
    ghost use Rattle.std.specs.Prelude.{refl};
    ghost use Rattle.metric.specs.Wire.{silent};

    ghost wire = { λ s. silent 0 s.failed };

    ghost shown = { λ s. refl };

    ghost reading = { λ s. refl };

    ghost writing = { λ s. refl };
}
