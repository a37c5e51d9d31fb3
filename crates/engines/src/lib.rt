//! The command `dist` over any streams, and the run of the words that name `dist` or `steps`.
#![tactic(auto)]

mod dist;
mod engine;

pub use dist::dist_run;
pub use engine::{run_said, run_words};
