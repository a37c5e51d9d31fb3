//! A number that a sequence of bytes or of numbers determines, however it comes in pieces.

ghost use Rattle.std.specs.Prelude.{None};

use metric::{Near, Sink, WriteFault};

/// The multiplier of a step.
const STEP: u64 = 0x9E37_79B9_7F4A_7C15;

/// What has been taken so far.
#[derive(Drop)]
pub struct Digest {
    state: u64,
    /// The last bytes, fewer than eight.
    word: u64,
    count: u8,
}

impl Digest {
    /// Nothing so far.
    pub fn new() -> Self {
        Digest {
            state: STEP,
            word: 0,
            count: 0,
        }
    }

    /// Takes a number.
    #[inline(always)]
    pub fn number(&mut self, number: u64) {
        self.state = (self.state.rotate_left(23) ^ number).wrapping_mul(STEP);
    }

    /// Takes one byte.
    fn byte(&mut self, byte: u8) {
        self.word = (self.word >> 8) | (u64::from(byte) << 56);
        self.count = (self.count % 8 + 1) % 8;
        if self.count == 0 {
            let word = self.word;
            self.number(word);
        }
    }

    /// Takes bytes.
    pub fn bytes(&mut self, bytes: &[u8]) {
        let few = usize::from((8 - self.count % 8) % 8).min(bytes.len());
        let (head, others) = bytes.split_at(few);
        for byte in head {
            self.byte(*byte);
        }
        let (words, tail) = others.as_chunks::<8>();
        for word in words {
            self.number(u64::from_le_bytes(*word));
        }
        for byte in tail {
            self.byte(*byte);
        }
    }

    /// Takes an answer of a cell.
    #[inline(always)]
    pub fn near(&mut self, near: Option<Near>) {
        match near {
            Some(near) => {
                let place = u64::from(near.cell.x.unsigned_abs()) << 16
                    | u64::from(near.cell.y.unsigned_abs());
                self.number(u64::from(near.dist) << 32 ^ place);
            }
            None => self.number(STEP),
        }
    }

    /// The number of all that was taken.
    pub fn value(&self) -> u64 {
        let mut all = Digest {
            state: self.state,
            word: 0,
            count: 0,
        };
        all.number(self.word);
        all.number(u64::from(self.count));
        all.state
    }
}

impl Sink for Digest {
    ghost held = { λ _. None };

    ghost failed_writes = { λ _. 0 };

    ghost unread = { λ _. (None, 0) };

    fn write_all(&mut self, bytes: &[u8]) -> Result<(), WriteFault> {
        self.bytes(bytes);
        Ok(())
    }

    fn flush(&mut self) -> Result<(), WriteFault> {
        Ok(())
    }

    fn failed_writes(&self) -> u64 {
        0
    }
}
