//! The distance transform and the queries for C, over the caller's own memory.
//!
//! Calls keep no state, and any thread may make any call. Metric 0 is the square of the Euclidean
//! distance, 1 counts steps to the four neighbours, 2 steps to the eight. Edge 0 is open, 1 is a
//! wall. Distances are in the unit of the metric. A call returns the first status that applies
//! (`status.rt`); 0 means done, and any other status means that nothing was written. Calls for all
//! cells of a range of rows allocate memory; the others don't.
#![tactic(auto)]

mod bit_map;
mod bit_rows;
mod bit_span;
mod byte_map;
mod copy;
mod costs;
mod hit_bits;
mod hit_bytes;
mod hits;
mod hits_many;
mod layout;
mod many;
mod many_bits;
mod many_bytes;
mod mark;
mod marks;
mod near;
mod pack;
mod paint;
mod queries;
mod query_bits;
mod query_bytes;
mod row_distances;
mod search;
mod setting;
mod shown;
mod status;
mod table_bits;
mod table_bytes;
mod table_cell;
mod tables;
mod tiled_map;
mod unpack;

pub use layout::{ClearmapBits, ClearmapBytes};
pub use near::{ClearmapFound, ClearmapNear};
