//! The table of a map as text: several workers make the lines of its rows.
#![tactic(auto)]

mod decimals;
mod distances;
mod line;
mod parts;
mod printer;
mod put;
mod quad;
mod row_cells;
mod table;
mod table_writer;

pub use table_writer::TableWriter;
