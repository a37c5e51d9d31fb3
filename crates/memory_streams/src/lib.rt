//! Streams in memory, for tests of what reads and writes: contracts see their bytes.
#![tactic(auto)]

mod memory;

pub use memory::{MemorySink, MemorySource, MemoryStream};
