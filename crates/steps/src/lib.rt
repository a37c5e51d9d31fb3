//! The command `steps` over any streams: a world that does the events of a text.
#![tactic(auto)]

mod steps;

pub use steps::steps_run;
