//! Stores and their sessions, where no clause says it: that memory is found, and worked runs with
//! answers from outside.

mod acts;
mod bands;
mod beside;
mod busy;
mod counted;
mod fresh;
mod held;
mod later;
mod limits;
mod looks;
mod players;
mod seat;
mod tutorial;
mod worked;
