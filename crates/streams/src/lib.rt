//! The streams of the commands: standard streams and connections, and reads and writes on them.
#![tactic(auto)]

mod errors;
mod gather;
mod input;
mod noted;
mod output;
mod socket;
mod standard;
mod std_streams;

pub use errors::ErrorSink;
pub use gather::{PartStop, read_count, read_line};
pub use input::{InputStop, read_to_end};
pub use noted::Noted;
pub use output::{write_net_fault, write_refusal, write_text};
pub use socket::{NoSocket, Socket, local};
pub use standard::Held;
pub use std_streams::{ReaderSource, WriterSink};

/// The status of a run that was refused, or whose reader or writer failed.
pub const REFUSED: u8 = 1;

/// The status of a run that did what was asked.
pub const DONE: u8 = 0;
