//! Queries over the cells of a bitmap: the nearest obstacle of one cell, and the least distance in
//! a rectangle or along a path.
//!
//! Each searches the bitmap's words, outwards from the cells of the query; the frame around a map,
//! which counts with a wall, is searched by arithmetic. None allocates memory.
#![tactic(auto)]

mod area;
mod around;
mod bit;
mod border;
mod bound;
mod first;
mod first_line;
mod found;
mod frame;
mod gaps;
mod inside;
mod least;
mod line_word;
mod lines;
mod meeting;
mod near_tile;
mod outwards;
mod part;
mod path;
mod piece;
mod queried;
mod queries;
mod rows;
mod seeker;
mod segment;
mod spot;
mod strip;
mod walk;

pub use queried::Queried;
pub use queries::{along, at, clear_of, least_in};
pub use rows::Rows;
