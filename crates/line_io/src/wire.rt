//! Single steps on a stream: reads of bytes, and writes of a text.

ghost use Rattle.std.specs.Prelude.{◌≡◌, ◌⊎◌, ◌<◌, [], length, Ok, IsErr, IfOk, IfErr};
ghost use Rattle.metric.specs.Stream.{StopsAt};
ghost use Rattle.line_io.specs.declared.end.End.TheVariants.{EndOfInput, ReadFailed};
ghost use Rattle.line_io.specs.Lines.{IsCutOff};
ghost use Rattle.line_io.specs.Wire.{CanGoOn, HasPut, HasTaken};

use crate::end::End;
use metric::{ReadFault, Stream, WriteFault};

/// Takes the next bytes of a stream into the front of a non-empty block, and returns how many: at
/// least one. Otherwise returns how the stream ends.
pub fn take_block<S: Stream>(stream: &mut S, block: &mut [u8]) -> Result<usize, End>
    requires wire { CanGoOn (S.wire stream.old) }
    requires place { 0 < length block.old }
    ensures taken { IfOk result
        (λ count. HasTaken count block.new (S.wire stream.old) (S.wire stream.new)) }
    ensures cut { IfErr result (λ end. IsCutOff end (S.wire stream.old) [] (S.wire stream.new)) }
{
    some_of(stream.next_block(block))
}

/// As `take_block`, but takes none after the first byte that is `stop`.
pub fn take_until<S: Stream>(stream: &mut S, stop: u8, block: &mut [u8]) -> Result<usize, End>
    requires wire { CanGoOn (S.wire stream.old) }
    requires place { 0 < length block.old }
    ensures taken { IfOk result
        (λ count. HasTaken count block.new (S.wire stream.old) (S.wire stream.new)) }
    ensures stops { IfOk result (λ count. StopsAt stop count block.new) }
    ensures cut { IfErr result (λ end. IsCutOff end (S.wire stream.old) [] (S.wire stream.new)) }
{
    some_of(stream.next_until(stop, block))
}

/// The number of bytes that a read took into a non-empty block, at least one, or how the stream
/// ends.
fn some_of(taken: Result<usize, ReadFault>) -> Result<usize, End>
    ensures some { IfOk result (λ count. (taken ≡ Ok count) × (0 < count)) }
    ensures none { IfErr result (λ end. ((end ≡ EndOfInput) × (taken ≡ Ok 0))
        ⊎ ((end ≡ ReadFailed) × IsErr taken)) }
{
    match taken {
        Ok(0) => Err(End::EndOfInput),
        Ok(count) => Ok(count),
        Err(_) => Err(End::ReadFailed),
    }
}

/// Writes a text.
pub fn put<S: Stream>(stream: &mut S, text: &[u8]) -> Result<(), WriteFault>
    requires { CanGoOn (S.wire stream.old) }
    ensures { HasPut result (S.wire stream.old) text.now (S.wire stream.new) }
{
    stream.write_all(text)
}

/// Flushes the stream.
pub fn pass_on<S: Stream>(stream: &mut S) -> Result<(), WriteFault>
    requires { CanGoOn (S.wire stream.old) }
    ensures { HasPut result (S.wire stream.old) [] (S.wire stream.new) }
{
    stream.flush()
}
