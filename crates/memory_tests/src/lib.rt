//! Each test passes whichever request for memory is refused: the call that met the refusal has
//! changed nothing, and retried answers what it would have.
//!
//! Standard output has what each call answered, so that a script that refuses one request after
//! another can count.
#![tactic(auto)]

#[cfg(test)]
mod acts;
#[cfg(test)]
mod bands;
#[cfg(test)]
mod commands;
#[cfg(test)]
mod compare;
#[cfg(test)]
mod images;
#[cfg(test)]
mod opened;
#[cfg(test)]
mod pins;
#[cfg(test)]
mod pools;
#[cfg(test)]
mod queries;
#[cfg(test)]
mod ready;
#[cfg(test)]
mod seat;
#[cfg(test)]
mod serving;
#[cfg(test)]
mod told;
#[cfg(test)]
mod without;
