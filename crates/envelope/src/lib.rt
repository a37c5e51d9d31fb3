//! The row phase: finds the nearest obstacle of each cell of a row from the nearest obstacles of
//! its columns.
#![tactic(auto)]

mod answer;
mod beside;
mod border;
mod columns;
mod cover;
mod fill;
mod lanes;
mod piece;
mod reaches;
mod scan;
mod search;
mod stack;

pub use answer::{CellAnswer, CellValue};
pub use metric::Near;
pub use stack::{Stack, row, row_from, values_from};
