//! A gate that the workers of a computation pass before they start.

/// Called by each worker as it starts. It has no effect on the answer.
pub trait Gate {
    /// Called once by the worker of each band of rows, before its first row. Bands count from 1.
    fn enter(&self, band: u8);
}
