//! The ends of a served stream.

ghost use Rattle.std.specs.Prelude.{◌≡◌};
ghost use Rattle.line_io.specs.declared.end.End.TheVariants.{Memory};

use metric::NoMemory;

/// Why serving a stream ended.
#[derive(Clone, Copy, Debug, PartialEq, Eq)]
pub enum End {
    /// The client sent QUIT.
    Quit,
    /// The input ended, after a line or within a line or a stamp's bytes.
    EndOfInput,
    /// A line had 16,385 bytes without an LF.
    LineTooLong,
    /// A stamp counted over 17,100,000 bytes.
    TooMuchData,
    /// A read failed.
    ReadFailed,
    /// A write failed.
    WriteFailed,
    /// There was no memory for the buffers of a line and a reply line. Nothing was read or written.
    Memory,
}

/// A growth that was refused.
impl From<NoMemory> for End {
    ghost from_gives = { λ _ end. end ≡ Memory };

    fn from(_refused: NoMemory) -> End {
        End::Memory
    }
}
