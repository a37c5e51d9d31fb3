//! How large a run is.

/// The sides of the maps, and how much is done on them.
#[derive(Clone, Copy)]
pub struct Size {
    /// Cells a side of a large map.
    pub large: u16,
    /// Cells a side of a map of half that side.
    pub middle: u16,
    /// Cells a side of a small map.
    pub small: u16,
    /// What counts are divided by.
    pub part: u32,
}

impl Size {
    /// The run that is timed.
    pub const FULL: Size = Size {
        large: 4096,
        middle: 2048,
        small: 1024,
        part: 1,
    };

    /// A run for the gate.
    pub const SMALL: Size = Size {
        large: 256,
        middle: 192,
        small: 128,
        part: 100,
    };

    /// This many, or fewer in a small run, but at least one.
    pub fn count(self, many: u32) -> u32 {
        many.checked_div(self.part).unwrap_or(1).max(1)
    }
}
