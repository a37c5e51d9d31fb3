//! An entry of a store's log, with its caller.

use events::Entry;

/// An entry of a store's log: an accepted command, its reply, and the number of the session whose
/// seat was lent.
#[derive(Drop)]
pub struct StoreEntry {
    pub by: u32,
    pub entry: Entry,
}
