//! Out of memory, as a value that only a refused growth makes.

ghost use Rattle.std.specs.Prelude.{◌≡◌, [], IfOk};
ghost use Rattle.std.specs.Io.Buffered.{reader_buffer, reader_capacity, reader_inner};
ghost use Rattle.std.specs.Io.Buffered.{writer_buffer, writer_capacity, writer_inner};
ghost use Rattle.std.specs.IoError.{error_kind};

use std::alloc::{AllocError, AllocFailed, Global};
use std::io::{self, BufReader, BufWriter, ErrorKind, Read, Write};

/// A growth that was refused. It has no other constructors than those of this file, each from a
/// refusal of std's: callers pass it on with `?`.
#[derive(Clone, Copy, Debug, PartialEq, Eq)]
pub struct NoMemory(());

/// An allocation that was refused.
impl From<AllocError> for NoMemory {
    fn from(_refused: AllocError) -> NoMemory {
        NoMemory(())
    }
}

/// An allocation that was refused, whose value is dropped.
impl<T: Drop> From<AllocFailed<T>> for NoMemory {
    fn from(_refused: AllocFailed<T>) -> NoMemory {
        NoMemory(())
    }
}

impl NoMemory {
    /// The refusal of a buffer of std's.
    fn of_buffer(fault: &io::Error) -> NoMemory
        requires { error_kind fault.now ≡ ErrorKind.OutOfMemory }
    {
        let _ = fault;
        NoMemory(())
    }
}

/// A reader with a buffer of this many bytes.
pub fn buffered_reader<R: Read + Drop>(
    alloc: Global,
    capacity: usize,
    reader: R,
) -> Result<BufReader<R>, NoMemory>
    ensures reader { IfOk result (λ buffered. reader_inner buffered ≡ reader) }
    ensures empty { IfOk result (λ buffered. reader_buffer buffered ≡ []) }
    ensures capacity { IfOk result (λ buffered. reader_capacity buffered ≡ capacity) }
{
    BufReader::with_capacity(alloc, capacity, reader).map_err(|fault| NoMemory::of_buffer(&fault))
}

/// A writer with a buffer of this many bytes.
pub fn buffered_writer<W: Write + Drop>(
    alloc: Global,
    capacity: usize,
    writer: W,
) -> Result<BufWriter<W>, NoMemory>
    ensures writer { IfOk result (λ buffered. writer_inner buffered ≡ writer) }
    ensures empty { IfOk result (λ buffered. writer_buffer buffered ≡ []) }
    ensures capacity { IfOk result (λ buffered. writer_capacity buffered ≡ capacity) }
{
    BufWriter::with_capacity(alloc, capacity, writer).map_err(|fault| NoMemory::of_buffer(&fault))
}
