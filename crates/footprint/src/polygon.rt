//! Which rings of corners are convex polygons.

ghost use Rattle.std.specs.Prelude.{◌≡◌, ◌<◌, ◌≤◌, ◌&&◌, int_lt, length, not, pos};
ghost use Rattle.std.specs.Prelude.{None, true};
ghost use Rattle.std.specs.List.{All, list_all};
ghost use Rattle.footprint.specs.Convex.{goes_down, is_convex, is_near, polygon_fault};
ghost use Rattle.footprint.specs.Convex.{turns_down_from, turns_from, before_last};
ghost use Rattle.footprint.specs.Polygon.{IsNear, cross, last_of};

use crate::corner::{Corner, MOST_STEPS};
use crate::side::{apart, product};

/// The most corners of a polygon.
pub const MOST_CORNERS: usize = 128;

/// Why a ring of corners isn't taken as a polygon, in the order in which this is checked.
#[derive(Clone, Copy, Debug, PartialEq, Eq)]
pub enum PolygonFault {
    /// It has under 3 corners, or over 128.
    Number,
    /// A corner is 16,384 columns or rows away, or more.
    Far,
    /// It isn't convex: at a corner it doesn't turn from x to y, or it goes round more than once.
    Bent,
}

/// What is wrong with a ring of corners; `None` where it is convex and turns from x to y.
pub fn fault_of(ring: &[Corner]) -> Option<PolygonFault>
    ensures fault { result ≡ polygon_fault ring.now }
    ensures some { result ≡ None → 0 < length ring.now }
    ensures near { result ≡ None → All IsNear ring.now }
{
    if ring.len() < 3 || MOST_CORNERS < ring.len() {
        return Some(PolygonFault::Number);
    }
    if !are_near(ring) {
        return Some(PolygonFault::Far);
    }
    if !is_convex(ring) {
        return Some(PolygonFault::Bent);
    }
    None
}

/// Whether the ring turns from x to y at each corner, and goes round once.
pub fn is_convex(ring: &[Corner]) -> bool
    requires some { 2 ≤ length ring.now }
    requires near { All IsNear ring.now }
    ensures { result ≡ is_convex ring.now }
{
    turns(ring) && turns_down(ring) == 1
}

/// Whether each corner is less than 16,384 columns and rows away.
pub fn are_near(ring: &[Corner]) -> bool
    ensures near { result ≡ list_all is_near ring.now }
    ensures all { result ≡ true → All IsNear ring.now }
{
    'corners: for corner in ring {
        if !is_near(*corner) {
            return false;
        }
    }
    true
}

/// Whether a corner is less than 16,384 columns and rows away.
fn is_near(corner: Corner) -> bool
    ensures { result ≡ is_near corner }
{
    let (x, y) = (corner.x, corner.y);
    -MOST_STEPS <= x && x <= MOST_STEPS && -MOST_STEPS <= y && y <= MOST_STEPS
}

/// Whether the ring turns from x to y at each corner.
fn turns(ring: &[Corner]) -> bool
    requires some { 2 ≤ length ring.now }
    requires near { All IsNear ring.now }
    ensures { result ≡ turns_from (before_last ring.now) (last_of ring.now) ring.now }
{
    let (mut from, mut at) = (ring[ring.len() - 2], ring[ring.len() - 1]);
    'corners: for to in ring {
        if !is_turn(from, at, *to) {
            return false;
        }
        from = at;
        at = *to;
    }
    true
}

/// Whether the way from one corner to the next and on to a third turns from x to y.
fn is_turn(from: Corner, at: Corner, to: Corner) -> bool
    requires from { IsNear from }
    requires at { IsNear at }
    requires to { IsNear to }
    ensures { result ≡ int_lt (pos 0) (cross from at to.x to.y) }
{
    let right = product(apart(from.x, at.x), apart(from.y, to.y));
    let left = product(apart(from.y, at.y), apart(from.x, to.x));
    left < right
}

/// How many sides of the ring lead to a greater row after one that doesn't.
fn turns_down(ring: &[Corner]) -> usize
    requires { 2 ≤ length ring.now }
    ensures { result ≡ turns_down_from (before_last ring.now) (last_of ring.now) ring.now }
{
    let (mut from, mut at) = (ring[ring.len() - 2], ring[ring.len() - 1]);
    let mut count = 0;
    'corners: for to in ring {
        count += usize::from(is_turn_down(from, at, *to));
        from = at;
        at = *to;
    }
    count
}

/// Whether the side to the last of three corners leads to a greater row, and the one before it
/// doesn't.
fn is_turn_down(from: Corner, at: Corner, to: Corner) -> bool
    ensures { result ≡ (goes_down at to && not (goes_down from at)) }
{
    at.y < to.y && at.y <= from.y
}
