//! What is written for a cell of a row: its nearest obstacle, a part from which that follows, or
//! its distance alone.

ghost use Rattle.std.specs.Prelude.{◌≡◌, ℕ, negsuc, pos, ◌≤ℤ◌, Option, Some, None};
ghost use Rattle.metric.specs.Nearest.{spot_distance};
ghost use Rattle.metric.specs.declared.near.Near.{Near};
ghost use Rattle.envelope.specs.Answer.{IsDistanceOf};

use metric::Near;

/// An answer for a cell: its nearest obstacle, or that there is none.
pub trait CellAnswer: Copy {
    /// The nearest obstacle that the answer means, seen from the cell of this column and row, by a
    /// metric's distance.
    ghost told: { (ℕ → ℕ → ℕ) → ℕ → ℕ → Self → Option Near };

    /// The answer that means no obstacle.
    ghost nothing: { Self };

    /// The answer where there is no obstacle.
    fn none() -> Self
        ensures { result ≡ nothing };

    /// The answer for an obstacle in a map.
    fn some(near: Near) -> Self
        requires left { negsuc 0 ≤ℤ near.cell.x }
        requires column { near.cell.x ≤ℤ pos 4097 }
        requires top { negsuc 0 ≤ℤ near.cell.y }
        requires row { near.cell.y ≤ℤ pos 4097 }
        ensures { (distance : ℕ → ℕ → ℕ) (x y : ℕ)
            → near.dist ≡ spot_distance distance x y near.cell.x near.cell.y
            → told distance x y result ≡ Some near };

    /// `nothing` means no obstacle.
    ghost tells_nothing: { (distance : ℕ → ℕ → ℕ) (x y : ℕ) → told distance x y nothing ≡ None };
}

impl CellAnswer for Option<Near> {
    ghost use Rattle.std.specs.Prelude.{refl};

    ghost told = { λ distance x y near. near };

    ghost nothing = { None };

    fn none() -> Self {
        None
    }

    fn some(near: Near) -> Self {
        Some(near)
    }

    ghost tells_nothing = { λ distance x y. refl };
}

/// What a row is filled with: answers, or the distances alone.
pub trait CellValue: Copy {
    /// What a value says of the nearest obstacle, seen from the cell of this column and row, by a
    /// metric's distance.
    ghost says: { (ℕ → ℕ → ℕ) → ℕ → ℕ → Self → Option Near → Type 0 };

    /// The value that says that there is no obstacle.
    ghost unset: { Self };

    /// The value where there is no obstacle.
    fn without() -> Self
        ensures { result ≡ unset };

    /// The value for an obstacle in a map.
    fn with(near: Near) -> Self
        requires left { negsuc 0 ≤ℤ near.cell.x }
        requires column { near.cell.x ≤ℤ pos 4097 }
        requires top { negsuc 0 ≤ℤ near.cell.y }
        requires row { near.cell.y ≤ℤ pos 4097 }
        ensures { (distance : ℕ → ℕ → ℕ) (x y : ℕ)
            → near.dist ≡ spot_distance distance x y near.cell.x near.cell.y
            → says distance x y result (Some near) };

    /// `unset` says that there is no obstacle.
    ghost says_none: { (distance : ℕ → ℕ → ℕ) (x y : ℕ) → says distance x y unset None };
}

impl<A: CellAnswer> CellValue for A {
    ghost says = { λ distance x y answer near. A.told distance x y answer ≡ near };

    ghost unset = { A.nothing };

    fn without() -> Self {
        A::none()
    }

    fn with(near: Near) -> Self {
        A::some(near)
    }

    ghost says_none = { A.tells_nothing };
}

/// The distance of a cell that has no obstacle.
const NOWHERE: u32 = u32::MAX;

impl CellValue for u32 {
    ghost use Rattle.std.specs.Prelude.{refl};

    ghost says = { λ distance x y number near. IsDistanceOf near number };

    ghost unset = { 4294967295 };

    fn without() -> Self {
        NOWHERE
    }

    fn with(near: Near) -> Self {
        near.dist
    }

    ghost says_none = { λ distance x y. refl };
}
