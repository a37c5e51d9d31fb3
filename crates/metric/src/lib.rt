//! Cells, rectangles, distances, refusals and byte streams: what all crates of the map share.
//!
//! A cell is `(x, y)`: x counts columns from the left and y counts rows from the top, both from 0.
#![tactic(auto)]

mod cell;
mod decimal;
mod edge;
mod fault;
mod gate;
mod kind;
mod laws;
mod limits;
mod measure;
mod near;
mod no_memory;
mod rect;
mod refusal;
mod spot;
mod stream;
mod workers;

pub use cell::Cell;
pub use decimal::push_decimal;
pub use edge::Edge;
pub use fault::PbmFault;
pub use gate::Gate;
pub use kind::MetricKind;
pub use laws::{nearest_is_least, one_nearest};
pub use limits::{
    BAND_ROWS, FRAMED_SIDE, LAST_FRAMED, MOST_SIDE, MOST_TILES, TILE_SIDE, WORD_BITS, WORD_CELLS,
};
pub use measure::{Chess, City, Euclid2, Metric};
pub use near::Near;
pub use no_memory::{NoMemory, buffered_reader, buffered_writer};
pub use rect::Rect;
pub use refusal::{Field, Refusal};
pub use spot::Spot;
pub use stream::{ReadFault, Sink, Source, Stream, WriteFault};
pub use workers::Workers;
