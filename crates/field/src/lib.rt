//! The nearest obstacle of every cell of a bitmap's rows.
#![tactic(auto)]

mod bands;
mod compact_distances;
mod compact_rows;
mod compact_strip;
mod distance_table;
mod filling;
mod halves;
mod obstacle_cell;
mod obstacle_table;
mod phases;
mod strips;
mod table;

pub use bands::rows_with;
pub use column::Batch;
pub use compact_distances::CompactDistances;
pub use distance_table::DistanceTable;
pub use filling::{fill, measure};
pub use metric::Workers;
pub use obstacle_table::ObstacleTable;
pub use table::rows;
