//! A command for the keeper, with its caller.

use events::Command;

/// A command for the keeper, and the number of the session whose seat was lent.
#[derive(Drop)]
pub struct Request {
    pub by: u32,
    pub command: Command,
}
