//! Reads a stream to its end.

ghost use Rattle.std.specs.Prelude.{◌≡◌, ◌≢◌, ◌+◌, IfOk, Err};
ghost use Rattle.metric.specs.Stream.{AreAll, CanFail};
ghost use Rattle.streams.specs.declared.input.InputStop.TheVariants.{Failed, Memory};

use metric::{NoMemory, Source};
use std::alloc::Global;

/// The most bytes of one read.
const BLOCK: usize = 65536;

/// Why the input wasn't read to its end.
#[derive(Clone, Copy)]
pub enum InputStop {
    /// A read failed.
    Failed,
    /// There was no memory for the bytes read.
    Memory(NoMemory),
}

/// A growth that was refused.
impl From<NoMemory> for InputStop {
    ghost from_gives = { λ refused stop. stop ≡ Memory refused };

    fn from(refused: NoMemory) -> InputStop {
        InputStop::Memory(refused)
    }
}

/// Reads to the end.
pub fn read_to_end<R: Source>(alloc: Global, reader: &mut R) -> Result<Vec<u8>, InputStop>
    requires { CanFail (R.failed_reads reader.old) }
    ensures all { IfOk result (λ bytes. AreAll (R.rest reader.old) bytes.items) }
    ensures counts { result ≢ Err Failed → R.failed_reads reader.new ≡ R.failed_reads reader.old }
    ensures failed { result ≡ Err Failed
        → R.failed_reads reader.new ≡ R.failed_reads reader.old + 1 }
{
    let mut bytes = Vec::new(alloc);
    let mut block = [0; BLOCK];
    'turns: for _ in 0..u64::MAX {
        match reader.next_block(block.as_mut_slice()) {
            Ok(0) => return Ok(bytes),
            Ok(count) => bytes
                .extend_from_slice(&block[..count])
                .map_err(NoMemory::from)?,
            Err(_) => return Err(InputStop::Failed),
        }
    }
    unreachable!()
}
