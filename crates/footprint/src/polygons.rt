//! Polygons with the same number of corners each, one after another.

ghost use Rattle.std.specs.Prelude.{◌≡◌, ◌<◌, ◌≤◌, ◌/◌, length, None};
ghost use Rattle.std.specs.List.{All};
ghost use Rattle.footprint.specs.Convex.{are_convex, polygon_at, polygons_fault};
ghost use Rattle.footprint.specs.Polygon.{IsNear};

use crate::corner::Corner;
use crate::polygon::{MOST_CORNERS, PolygonFault, are_near, is_convex};

/// What is wrong with polygons of `count` corners each; `None` where each is a convex polygon that
/// turns from x to y.
pub fn fault_of_all(corners: &[Corner], count: usize) -> Option<PolygonFault>
    ensures fault { result ≡ polygons_fault corners.now count }
    ensures some { result ≡ None → 0 < count }
    ensures near { result ≡ None → All IsNear corners.now }
{
    if count < 3 || MOST_CORNERS < count || corners.len() % count != 0 {
        return Some(PolygonFault::Number);
    }
    if !are_near(corners) {
        return Some(PolygonFault::Far);
    }
    if !are_convex(corners, count) {
        return Some(PolygonFault::Bent);
    }
    None
}

/// Whether each of the polygons is convex.
fn are_convex(corners: &[Corner], count: usize) -> bool
    requires some { 2 ≤ count }
    requires near { All IsNear corners.now }
    ensures { result ≡ are_convex corners.now count (length corners.now / count) }
{
    'polygons: for k in 0..corners.len() / count {
        if !is_convex(polygon_at(corners, count, k)) {
            return false;
        }
    }
    true
}

/// The corners of the polygon at index `k`, where each has `count`.
pub fn polygon_at(corners: &[Corner], count: usize, k: usize) -> &[Corner]
    requires some { 0 < count }
    requires within { k < length corners.now / count }
    requires near { All IsNear corners.now }
    ensures corners { result.now ≡ polygon_at corners.now count k }
    ensures count { length result.now ≡ count }
    ensures near { All IsNear result.now }
{
    let start = count * k;
    &corners[start..start + count]
}
