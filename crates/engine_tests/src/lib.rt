//! Tests of the commands' crates: worked runs, texts, words of the command line, streams and
//! connections, also ones that fail.
#![tactic(auto)]

#[cfg(test)]
mod asking;
#[cfg(test)]
mod command_words;
#[cfg(test)]
mod compare;
#[cfg(test)]
mod dist;
#[cfg(test)]
mod limits;
#[cfg(test)]
mod reads_and_writes;
#[cfg(test)]
mod runs;
#[cfg(test)]
mod serving;
#[cfg(test)]
mod sockets;
#[cfg(test)]
mod step_runs;
