//! The least and the greatest x and y of a polygon's corners.

ghost use Rattle.std.specs.Prelude.{◌≡◌, ◌<◌, ◌≤◌, ◌↔◌, ◌⊎◌, ◌<ℤ◌, ℕ, pos, IsTrue, length};
ghost use Rattle.std.specs.Int.{int_max, int_min};
ghost use Rattle.footprint.specs.Polygon.{IsNearBy, line};
ghost use Rattle.footprint.specs.Sides.{IsIn, IsRange, Overlaps};

use crate::corner::{Corner, STEPS};
use crate::span::{Span, Stretch};

/// The least and the greatest x and y of some corners, in steps.
#[derive(Clone, Copy)]
pub struct Bounds {
    pub left: i32,
    pub right: i32,
    pub top: i32,
    pub bottom: i32,
}

impl Bounds {
    /// The bounds of one corner more.
    fn with(self, corner: Corner) -> Self
        ensures left { result.left ≡ int_min self.left corner.x }
        ensures right { result.right ≡ int_max self.right corner.x }
        ensures top { result.top ≡ int_min self.top corner.y }
        ensures bottom { result.bottom ≡ int_max self.bottom corner.y }
    {
        Bounds {
            left: self.left.min(corner.x),
            right: self.right.max(corner.x),
            top: self.top.min(corner.y),
            bottom: self.bottom.max(corner.y),
        }
    }

    /// The columns of a map of this many that the bounds overlap.
    pub fn columns(self, width: u16) -> Stretch
        requires left { IsNearBy self.left }
        requires right { IsNearBy self.right }
        ensures on { (x : ℕ) → IsIn result.first result.end x
            ↔ ((x < width) × Overlaps self.left self.right (pos x)) }
        ensures few { result.end ≤ width }
    {
        Span::over(self.left, self.right).within(width)
    }

    /// The rows of a map of this many that the bounds overlap.
    pub fn rows(self, height: u16) -> Stretch
        requires top { IsNearBy self.top }
        requires bottom { IsNearBy self.bottom }
        ensures on { (y : ℕ) → IsIn result.first result.end y
            ↔ ((y < height) × Overlaps self.top self.bottom (pos y)) }
        ensures few { result.end ≤ height }
    {
        Span::over(self.top, self.bottom).within(height)
    }

    /// Whether the bounds leave a map of this size.
    pub fn leave(self, width: u16, height: u16) -> bool
        requires width { width ≤ 4096 }
        requires height { height ≤ 4096 }
        ensures { IsTrue result
            ↔ (((self.left <ℤ pos 0) ⊎ (line (pos width) <ℤ self.right))
            ⊎ ((self.top <ℤ pos 0) ⊎ (line (pos height) <ℤ self.bottom))) }
    {
        let (right, bottom) = (i64::from(width) * STEPS, i64::from(height) * STEPS);
        self.left < 0
            || right < i64::from(self.right)
            || self.top < 0
            || bottom < i64::from(self.bottom)
    }
}

/// The bounds of a polygon.
pub fn bounds_of(ring: &[Corner]) -> Bounds
    requires { 0 < length ring.now }
    ensures columns { IsRange (λ c. c.x) ring.now (length ring.now) result.left result.right }
    ensures rows { IsRange (λ c. c.y) ring.now (length ring.now) result.top result.bottom }
{
    let first = ring[0];
    let mut bounds = Bounds {
        left: first.x,
        right: first.x,
        top: first.y,
        bottom: first.y,
    };
    'corners: for corner in ring {
        bounds = bounds.with(*corner);
    }
    bounds
}
