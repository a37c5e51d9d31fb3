//! Tests of the crates that keep a store and speak its protocol, where no clause says it: of
//! worlds, sessions, texts and served streams.
#![tactic(auto)]

#[cfg(test)]
mod compare;
#[cfg(test)]
mod keeping;
#[cfg(test)]
mod one_run;
#[cfg(test)]
mod opened;
#[cfg(test)]
mod places;
#[cfg(test)]
mod served;
#[cfg(test)]
mod sessions;
#[cfg(test)]
mod settings;
#[cfg(test)]
mod texts;
#[cfg(test)]
mod worlds;
