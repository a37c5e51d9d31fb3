//! The program `clearmap`: exact distances to the nearest obstacle of an occupancy grid.
#![tactic(auto)]

mod refused;
mod run;
mod serve;

use run::run_process;
use std::process::ExitCode;

fn main(rt: HostRuntime) -> ExitCode {
    ExitCode::from(run_process(&rt))
}
