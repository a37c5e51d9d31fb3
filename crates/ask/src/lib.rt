//! The command `ask`: it sends lines to a server, over any stream or to a port, and prints its
//! replies.
#![tactic(auto)]

mod ask;
pub mod net;
mod told;

pub use ask::ask_run;
pub use told::{Deaf, Hearer};
