//! Rectangles of cells.

ghost use Rattle.std.specs.Prelude.{◌≡◌, ◌↔◌, IsSome, IfSome};
ghost use Rattle.metric.specs.Rect.{IsRect};

/// The cells of columns `x0` to `x1 - 1` in rows `y0` to `y1 - 1`: half-open, never empty, and
/// within the largest map.
#[derive(Clone, Copy, Debug, PartialEq, Eq, Hash)]
pub struct Rect {
    pub x0: u16,
    pub y0: u16,
    pub x1: u16,
    pub y1: u16,
    ghost has_cells: { IsRect x0 y0 x1 y1 },
}

impl Rect {
    /// The rectangle with these corners; `None` where it has no cell, or a corner is over 4096.
    pub fn new(x0: u16, y0: u16, x1: u16, y1: u16) -> Option<Self>
        ensures valid { IsSome result ↔ IsRect x0 y0 x1 y1 }
        ensures corners { IfSome result (λ r. (r.x0 ≡ x0) × (r.y0 ≡ y0) × (r.x1 ≡ x1)
            × (r.y1 ≡ y1)) }
    {
        if x0 < x1 && y0 < y1 && x1 <= 4096 && y1 <= 4096 {
            Some(Rect { x0, y0, x1, y1 })
        } else {
            None
        }
    }
}
