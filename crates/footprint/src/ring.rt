//! Which columns of a row a polygon's sides leave.

ghost use Rattle.std.specs.Prelude.{ℕ, ℤ, pos, ◌<◌, ◌≤◌, ◌↔◌, length};
ghost use Rattle.std.specs.List.{All};
ghost use Rattle.footprint.specs.Polygon.{IsNear, PassesFrom, last_of};
ghost use Rattle.footprint.specs.Sides.{IsIn, IsOn, IsRow};

use crate::corner::Corner;
use crate::side::cut;
use crate::span::{Span, Stretch};
use metric::MOST_SIDE;

/// The columns of these that no side of the polygon separates from it in row `y` of a map.
pub fn covered(ring: &[Corner], y: u16, columns: Stretch) -> Stretch
    requires some { 0 < length ring.now }
    requires near { All IsNear ring.now }
    requires row { y < MOST_SIDE }
    ensures on { (x : ℕ) → IsIn result.first result.end x
        ↔ (IsIn columns.first columns.end x
        × PassesFrom (last_of ring.now) ring.now (pos x) (pos y)) }
    ensures few { result.end ≤ columns.end }
{
    columns_left(ring, i64::from(y), columns.span()).within(columns.end)
}

/// The columns of the span that no side of the polygon separates from it in this row.
fn columns_left(ring: &[Corner], row: i64, span: Span) -> Span
    requires some { 0 < length ring.now }
    requires near { All IsNear ring.now }
    requires row { IsRow row }
    ensures { (x : ℤ) → IsOn result.first result.last x
        ↔ (IsOn span.first span.last x × PassesFrom (last_of ring.now) ring.now x row) }
{
    let mut from = ring[ring.len() - 1];
    let mut left = span;
    'sides: for to in ring {
        left = cut(from, *to, row, left);
        from = *to;
    }
    left
}
