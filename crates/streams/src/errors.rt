//! Standard error as a stream.

ghost use Rattle.std.specs.Prelude.{◌≡◌, ℕ, None};

use metric::{Sink, WriteFault};
use std::marker::Model;
use std::str;

/// A stream of text, without a buffer, that prints to standard error. Contracts see the count of
/// failed writes.
#[derive(Drop)]
pub struct ErrorSink<'a, P> {
    to: &'a P,
    failed: u64,
}

impl<'a, P> Model for ErrorSink<'a, P> {
    ghost Value = { ℕ };

    ghost view = { λ s. s.failed };
}

impl<'a, P: Eprint> ErrorSink<'a, P> {
    /// A stream of which no write has failed.
    pub fn new(to: &'a P) -> Self
        ensures { result ≡ 0 }
    {
        ErrorSink { to, failed: 0 }
    }
}

impl<P: Eprint> Sink for ErrorSink<'_, P> {
    ghost held = { λ _. None };

    ghost failed_writes = { λ s. s };

    ghost unread = { λ _. (None, 0) };

    fn write_all(&mut self, bytes: &[u8]) -> Result<(), WriteFault> {
        if let Ok(text) = str::from_utf8(bytes)
            && self.to.eprint(text).is_ok()
        {
            return Ok(());
        }
        self.failed += 1;
        Err(WriteFault)
    }

    fn flush(&mut self) -> Result<(), WriteFault> {
        Ok(())
    }

    fn failed_writes(&self) -> u64 {
        self.failed
    }
}
