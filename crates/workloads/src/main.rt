//! The workloads of the benchmark: jobs that users wait for, on maps made from a seed.
//!   workloads NAME SEED [small]
//! runs one of them, or all with the name `all`, and writes a line with its name and a digest of
//! all its results. A small run has maps of 256 cells a side and few of everything.
#![tactic(auto)]

mod cycles;
mod digest;
mod far;
mod fields;
mod image;
mod images;
mod link;
mod questions;
mod random;
mod script;
mod served;
mod size;
mod tables;

use random::Random;
use size::Size;
use std::rt::Env;
use std::sync::Wait;
use std::thread::Threads;
use std::{env, io};

/// All workloads, by their names.
const NAMES: [&str; 6] = ["tables", "fields", "questions", "far", "cycles", "images"];

/// What the words of the process say.
#[derive(Drop)]
struct Said {
    name: String,
    seed: u64,
    size: Size,
}

/// Reads the words of the process.
fn words<R: Env + AllocGlobal>(rt: &R) -> io::Result<Said> {
    let mut said = Said {
        name: String::new(rt.alloc()),
        seed: 1,
        size: Size::FULL,
    };
    for (index, word) in env::args(rt)?.enumerate() {
        match index {
            1 => said.name.push_str(word.as_str())?,
            2 => said.seed = word.as_str().parse::<u64>().unwrap_or(1),
            3 => said.size = Size::SMALL,
            _ => {}
        }
    }
    Ok(said)
}

/// Runs the workload of this name. Returns the digest of its results; 0 if there is none of this
/// name.
fn run<R: Wait + Threads + Sync + AllocGlobal>(
    rt: &R,
    name: &str,
    seed: u64,
    size: Size,
) -> io::Result<u64> {
    let mut random = Random::new(seed);
    match name {
        "tables" => tables::run(rt, rt.alloc(), size, &mut random),
        "fields" => fields::run(rt, rt.alloc(), size, &mut random),
        "questions" => questions::run(rt, rt.alloc(), size, &mut random),
        "far" => far::run(rt, rt.alloc(), size, &mut random),
        "cycles" => cycles::run(rt, rt.alloc(), size, &mut random),
        "images" => images::run(rt, rt.alloc(), size, &mut random),
        _ => Ok(0),
    }
}

fn main(rt: HostRuntime) -> io::Result<()> {
    let said = words(&rt)?;
    for name in NAMES {
        if said.name.as_str() == name || said.name.as_str() == "all" {
            let digest = run(&rt, name, said.seed, said.size)?;
            println!(rt; "{name} {digest:016x}")?;
        }
    }
    Ok(())
}
