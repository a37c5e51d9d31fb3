//! The answer to a query of the protocol, on a bitmap or on the version that a pin holds.
#![tactic(auto)]

mod bordered;
mod queries;

pub use bordered::Bordered;
pub use queries::{answer_of, answer_query};
