//! A cell's nearest obstacle, as C sees it.

ghost use Rattle.std.specs.Prelude.{◌≡◌, negsuc, ◌≤ℤ◌, IfSome};
ghost use Rattle.libclearmap.specs.Kept.{found_kept, near_kept};

use envelope::CellAnswer;
use metric::{Cell, Near, Spot};

/// The distance where there is no obstacle. No obstacle is that far away.
pub const NO_OBSTACLE: u32 = u32::MAX;

/// The column and the row where there is no obstacle. No obstacle has them.
pub const NOWHERE: i16 = -2;

/// The nearest obstacle of a cell: its distance, in the unit of the metric, its column and its row.
/// In the frame around a map, column and row may be -1, or the number of columns or rows.
#[repr(C)]
#[derive(Clone, Copy, Debug)]
pub struct ClearmapNear {
    pub dist: u32,
    pub x: i16,
    pub y: i16,
}

impl CellAnswer for ClearmapNear {
    ghost use Rattle.std.specs.Prelude.{refl};
    ghost use Rattle.libclearmap.specs.Kept.{near_kept, kept_nothing};

    ghost told = { λ distance x y kept. near_kept kept };

    ghost nothing = { kept_nothing };

    #[inline(always)]
    fn none() -> Self {
        ClearmapNear {
            dist: NO_OBSTACLE,
            x: NOWHERE,
            y: NOWHERE,
        }
    }

    #[inline(always)]
    fn some(near: Near) -> Self {
        ClearmapNear {
            dist: near.dist,
            x: near.cell.x,
            y: near.cell.y,
        }
    }

    ghost tells_nothing = { λ distance x y. refl };
}

/// Converts a cell's nearest obstacle.
pub fn kept_of(near: Option<Near>) -> ClearmapNear
    requires { IfSome near (λ some. negsuc 0 ≤ℤ some.cell.x) }
    ensures { near_kept result ≡ near }
{
    match near {
        Some(
            Near {
                dist,
                cell: Spot { x, y },
            },
        ) => ClearmapNear { dist, x, y },
        None => ClearmapNear::none(),
    }
}

/// A cell of a rectangle or a path, with its nearest obstacle. Where there is none, `cell` has no
/// meaning.
#[repr(C)]
#[derive(Clone, Copy, Debug)]
pub struct ClearmapFound {
    pub cell: Cell,
    pub near: ClearmapNear,
}

/// Converts a cell that was found, with its nearest obstacle.
pub fn found_of(found: Option<(Cell, Near)>) -> ClearmapFound
    requires { IfSome found (λ some. negsuc 0 ≤ℤ some.1.cell.x) }
    ensures { found_kept result ≡ found }
{
    match found {
        Some((cell, near)) => ClearmapFound {
            cell,
            near: kept_of(Some(near)),
        },
        None => ClearmapFound {
            cell: Cell { x: 0, y: 0 },
            near: kept_of(None),
        },
    }
}
