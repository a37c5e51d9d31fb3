//! Streams on which a call fails: a prefix of the text is written, and the session unpins.

ghost use Rattle.std.specs.Prelude.{◌≡◌, None};

use super::{SQUARE, serve, serve_in, setting};
use crate::compare::{holds, same};
use crate::opened::blank;
use metric::{ReadFault, Sink, Source, Stream, WriteFault};
use proto::End;
use std::marker::Brand;
use std::test::Fail;

/// A stream of 46 bytes up to QUIT, with six replies and no command to the keeper.
const READ: &[u8] = b"PIN\nPIN\nAT euclid2 3 4\nUNPIN\nAT city 0 0\nQUIT\nPIN\n";

const WRITTEN: &[u8] = b"OK 0\nERR 7 AlreadyPinned\nNONE\nOK 0\nERR 6 NotPinned\nBYE\n";

#[test]
fn each_call_fails(rt: HostRuntime) -> Result<(), Fail> {
    for call in 1..54u64 {
        let (input, end) = if call < 47 {
            ((READ, Some(call), None), End::ReadFailed)
        } else {
            ((READ, None, Some(call - 46)), End::WriteFailed)
        };
        let blank = blank(&rt, rt.alloc(), setting(2, 1), SQUARE)?;
        let run = serve(&rt, rt.alloc(), blank, input)?;
        same(&rt, run.end, end, call);
        holds(&rt, WRITTEN.starts_with(run.written.as_slice()), call);
    }
    Ok(())
}

#[test]
fn the_ninth_read_fails(rt: HostRuntime) -> Result<(), Fail> {
    let blank = blank(&rt, rt.alloc(), setting(2, 1), SQUARE)?;
    let run = serve(&rt, rt.alloc(), blank, (READ, Some(9), None))?;
    let replies: &[u8] = b"OK 0\nERR 7 AlreadyPinned\n";
    same(&rt, run.written.as_slice(), replies, "what was written");
    same(&rt, run.end, End::ReadFailed, "the end");
    Ok(())
}

/// How many bytes a narrow stream takes.
const TAKEN: usize = 3;

/// A stream whose writer takes three bytes, and then fails.
#[derive(Drop)]
struct Narrow {
    left: &'static [u8],
    taken: [u8; TAKEN],
    count: usize,
    failed_writes: u64,
}

/// Copies as many bytes as fit, and returns how many.
fn copy_front(room: &mut [u8], bytes: &[u8]) -> usize {
    let mut count = 0usize;
    for (place, byte) in room.iter_mut().zip(bytes) {
        *place = *byte;
        count = count.saturating_add(1);
    }
    count
}

impl Source for Narrow {
    ghost rest = { λ _. None };

    ghost failed_reads = { λ _. 0 };

    ghost written = { λ s. (None, s.failed_writes) };

    fn next_byte(&mut self) -> Result<Option<u8>, ReadFault> {
        match self.left.split_first() {
            Some((byte, others)) => {
                self.left = others;
                Ok(Some(*byte))
            }
            None => Ok(None),
        }
    }

    fn failed_reads(&self) -> u64 {
        0
    }
}

impl Sink for Narrow {
    ghost held = { λ _. None };

    ghost failed_writes = { λ s. s.failed_writes };

    ghost unread = { λ _. (None, 0) };

    fn write_all(&mut self, bytes: &[u8]) -> Result<(), WriteFault> {
        let taken = match self.taken.get_mut(self.count..) {
            Some(room) => copy_front(room, bytes),
            None => 0,
        };
        self.count = self.count.saturating_add(taken);
        if taken < bytes.len() {
            self.failed_writes += 1;
            return Err(WriteFault);
        }
        Ok(())
    }

    fn flush(&mut self) -> Result<(), WriteFault> {
        Ok(())
    }

    fn failed_writes(&self) -> u64 {
        self.failed_writes
    }
}

impl Stream for Narrow {
    ghost use Rattle.std.specs.Prelude.{refl};
    ghost use Rattle.metric.specs.Wire.{silent};

    ghost wire = { λ s. silent 0 s.failed_writes };

    ghost shown = { λ s. refl };

    ghost reading = { λ s. refl };

    ghost writing = { λ s. refl };
}

#[test]
fn a_writer_takes_three_bytes(rt: HostRuntime) -> Result<(), Fail> {
    let blank = blank(&rt, rt.alloc(), setting(2, 1), SQUARE)?;
    let mut stream = Narrow {
        left: READ,
        taken: [0; TAKEN],
        count: 0,
        failed_writes: 0,
    };
    let (end, _) = serve_in::<Brand, _, _>(&rt, rt.alloc(), blank, &mut stream)?;
    same(&rt, &stream.taken, b"OK ", "what was written");
    same(&rt, end, End::WriteFailed, "the end");
    Ok(())
}
