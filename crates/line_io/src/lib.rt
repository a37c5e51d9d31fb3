//! Reads lines, and the bytes that they count, from a stream, and writes replies and dumps to it.
#![tactic(auto)]

mod counted;
mod dump;
mod end;
mod line_buffer;
mod saying;
mod wire;

pub use counted::{Counted, read_counted};
pub use dump::say_dump;
pub use end::End;
pub use line_buffer::LineBuffer;
pub use saying::{say, say_last};
