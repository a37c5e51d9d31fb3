//! Whether a convex polygon, as the outline of a robot at a pose, hits an obstacle of a map.
//!
//! Corners lie on whole steps of 1/65536 of a cell, and all arithmetic is in whole numbers. No call
//! allocates memory.
#![tactic(auto)]

mod bounds;
mod corner;
mod hit;
mod laws;
mod polygon;
mod polygons;
mod ring;
mod row;
mod side;
mod span;

pub use corner::Corner;
pub use hit::hits;
pub use laws::{each_corner_may_be_first, rectangles_hit_their_cells, shared_points_meet};
pub use polygon::{MOST_CORNERS, PolygonFault, fault_of};
pub use polygons::{fault_of_all, polygon_at};
