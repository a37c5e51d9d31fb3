//! The column phase: for each cell, the nearest obstacle of its column.
#![tactic(auto)]

mod batch;
mod cap;
mod carried;
mod column_table;
mod columns;
mod lines;
mod row;
mod seek;
mod sought;

pub use batch::Batch;
pub use column_table::{ColumnTable, NONE};
pub use columns::Columns;
pub use seek::nearest_rows;
