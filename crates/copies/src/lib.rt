//! The copy of a version that a pin reads from the shared words, as its queries ask for them, and
//! the room for the next copy, which a session keeps.
#![tactic(auto)]

mod copy;
mod copying;
mod looks;
mod room;

pub use copy::VersionCopy;
pub use room::Room;
