//! The buffer of a line, read a part at a time.

ghost use Rattle.std.specs.Prelude.{◌≡◌, ◌∷◌, ◌++◌, ◌+◌, ◌<◌, ◌≤◌, [], length, IfOk, IfErr, OnOk};
ghost use Rattle.std.specs.Prelude.{OnErr};
ghost use Rattle.line_io.specs.Lines.{IsLine, IsCutOff, IsKept, IsLinePart, IsLineStop};
ghost use Rattle.metric.specs.Stream.{StopsAt};
ghost use Rattle.line_io.specs.Wire.{CanGoOn, HasRead};

use crate::end::End;
use crate::wire::take_until;
use metric::{NoMemory, Stream};
use std::alloc::Global;
use std::marker::Model;

/// The most bytes searched for the LF of a line. A line has at most one fewer before its LF.
const MOST_BYTES: usize = 16_385;

/// The most bytes of a line read at once.
const PART: usize = 64;

/// A buffer for the bytes of a line.
#[derive(Drop)]
pub struct LineBuffer {
    bytes: Vec<u8>,
}

impl Model for LineBuffer {
    ghost use Rattle.std.specs.Prelude.{ℕ, List, ◌≤◌, vec_capacity};

    ghost Value = { List ℕ };

    ghost view = { λ line. line.bytes.items };

    ghost invariant = { λ line. 16385 ≤ vec_capacity line.bytes };
}

impl LineBuffer {
    /// An empty line, with its full capacity. Fails only when out of memory.
    pub fn new(alloc: Global) -> Result<Self, NoMemory>
        ensures { IfOk result (λ line. line ≡ []) }
    {
        let bytes = Vec::with_capacity(alloc, MOST_BYTES)?;
        Ok(LineBuffer { bytes })
    }

    /// The bytes of the line.
    pub fn as_bytes(&self) -> &[u8]
        ensures { result.now ≡ self.now }
    {
        self.bytes.as_slice()
    }

    /// Reads a line to its LF, and drops the LF. Otherwise returns how the stream ends: within the
    /// line, or at too many bytes without an LF.
    pub fn read<S: Stream>(&mut self, stream: &mut S) -> Result<(), End>
        requires { CanGoOn (S.wire stream.old) }
        ensures line { OnOk result (IsLine self.new) }
        ensures bytes { OnOk result
            (HasRead 0 (S.wire stream.old) (self.new ++ 10 ∷ []) (S.wire stream.new)) }
        ensures stop { IfErr result
            (λ end. IsLineStop end (S.wire stream.old) self.new (S.wire stream.new)) }
    {
        self.bytes.clear();
        'parts: while self.bytes.len() < MOST_BYTES {
            if self.read_part(stream)? {
                return Ok(());
            }
        }
        Err(End::LineTooLong)
    }

    /// Appends the next part of a line, and returns whether the line ends there.
    fn read_part<S: Stream>(&mut self, stream: &mut S) -> Result<bool, End>
        requires wire { CanGoOn (S.wire stream.old) }
        requires room { length self.old < 16385 }
        ensures part { IfOk result
            (λ ends. IsLinePart ends self.old (S.wire stream.old) self.new (S.wire stream.new)) }
        ensures kept { OnErr result (self.new ≡ self.old) }
        ensures stop { IfErr result
            (λ end. IsCutOff end (S.wire stream.old) [] (S.wire stream.new)) }
    {
        let mut block = [0; PART];
        let most = (MOST_BYTES - self.bytes.len()).min(PART);
        let count = take_until(stream, b'\n', &mut block[..most])?;
        Ok(self.keep(&block[..count]))
    }

    /// Appends the bytes, except an LF at their end, and returns whether there is one. The buffer
    /// has capacity for them.
    fn keep(&mut self, bytes: &[u8]) -> bool
        requires some { 0 < length bytes.now }
        requires room { length self.old + length bytes.now ≤ 16385 }
        requires plain { StopsAt 10 (length bytes.now) bytes.now }
        ensures { IsKept result self.old bytes.now self.new }
    {
        let last = bytes.len() - 1;
        let ends = bytes[last] == b'\n';
        let kept = if ends { &bytes[..last] } else { bytes };
        let _ = self.bytes.extend_from_slice(kept);
        ends
    }
}
