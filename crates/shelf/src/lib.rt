//! A store's shared words, and the seats that load and store them: the keeper's, one per reader,
//! and tickets.
//!
//! The words are those of the core: NOW, which is the place of the log's last entry times 2^35,
//! plus the newest version times 2^6, plus that version's slot; a word per reader, 0, or 2a + 1 if
//! it has announced version a and those after it, or 2v + 2 if it has announced exactly version v;
//! for each slot the blocks of a version, by position; and the rows of the blocks. No word holds
//! the log itself: the keeper's seat knows it, and since only that seat stores NOW, what it knows
//! is the log.
//!
//! The rule of the table is that between any two steps there is a state of the core: its words are
//! the table's, its keeper is what the keeper's seat knows, and its readers are what the readers'
//! seats know. Each step below is one load or one store of one word, or the order of a command: the
//! core's event of its kind in that state. Exchanging views is no event. A reader's seat has seen a
//! prefix of the log, which grows to the whole at each load of NOW.
//!
//! Two seats know nothing of each other. So `meet` joins the reader's view to that of the keeper's
//! seat, loads NOW, and returns it: the reader has then seen everything, and counts the entry that
//! was committed for it. A ticket is cut from the keeper's seat, and a reader that learns it has
//! seen what the keeper knew.
//!
//! No call waits for anybody, and only opening a store allocates memory.
#![tactic(auto)]

mod closing;
mod fresh;
mod keeper;
mod laws;
mod meeting;
mod name;
mod opened;
mod opening;
mod plays;
mod reader;
mod request;
mod store_entry;
mod ticket;
mod tile_looks;
mod word_table;

pub use closing::Closing;
pub use fresh::{FreshKeeper, FreshReader};
pub use keeper::KeeperSeat;
pub use laws::{
    handings_are_no_events, rule_has_one_keeper, rule_is_a_state, schedules_are_runs,
    seats_do_events, seats_have_one_log,
};
pub use meeting::meet;
pub use name::StoreName;
pub use opened::Opening;
pub use reader::ReaderSeat;
pub use request::Request;
pub use store_entry::StoreEntry;
pub use ticket::Ticket;
