//! An obstacle with its distance.

use crate::spot::Spot;

/// The nearest obstacle of a cell: its distance `dist`, in the unit of the metric, and its
/// position.
#[derive(Clone, Copy, Debug, PartialEq, Eq)]
pub struct Near {
    pub dist: u32,
    pub cell: Spot,
}
