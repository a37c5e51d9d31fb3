//! A store of one map and its sessions: painters change a draft and publish it, and planners pin a
//! version and query it.
//!
//! Painters take turns at the lock of the desk. A planner pins by three steps on the shared words,
//! reads its version from them, and unpins by one step: it takes no lock, and waits for nobody. A
//! ticket carries what one session has seen to another.
//!
//! A store is opened in a function that is generic in the store's name, and called with
//! `std::marker::Brand`.
#![tactic(auto)]

mod blank;
mod pinned;
mod session;
mod sessions;
mod store;

pub use blank::Blank;
pub use pinned::Pinned;
pub use session::Session;
pub use shelf::Ticket;
pub use store::Store;
