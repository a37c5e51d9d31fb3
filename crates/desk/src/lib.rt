//! The desk of a store: its log, its draft and its kept versions, which the writers' lock guards,
//! and what each command does to them.
#![tactic(auto)]

mod carry;
mod desk;
mod holding;

pub use desk::{Desk, FreshDesk, answered, stamp_answered};
