//! Whether a polygon hits an obstacle of a map.

ghost use Rattle.std.specs.Prelude.{◌≡◌, ◌<◌, ◌≤◌, ◌/◌, ℕ, MatchBool, IsTrue, ◌↔◌, length, pos};
ghost use Rattle.std.specs.List.{All};
ghost use Rattle.bits.specs.Cells.{IsBitmap};
ghost use Rattle.footprint.specs.Polygon.{HasHit, Hits, IsHit, IsNear, IsOverlapped};
ghost use Rattle.footprint.specs.Rows.{AreOverlapped};
ghost use Rattle.footprint.specs.Sides.{IsIn, IsRange};

use crate::bounds::{Bounds, bounds_of};
use crate::corner::Corner;
use crate::ring::covered;
use crate::row::{first_struck, may_strike, strikes};
use crate::span::Stretch;
use clearance::Rows;
use metric::{BAND_ROWS, Edge};

/// Whether a polygon hits an obstacle of the map: whether it meets the square of one, or, with a
/// wall, has a corner off the map. To touch a square from outside isn't to meet it.
///
/// Sides lead from corner to corner, and from the last to the first. A polygon is meant to be
/// convex and to turn from x to y, as `check` checks. It allocates no memory.
pub fn hits<R: Rows>(rows: &mut R, edge: Edge, ring: &[Corner]) -> bool
    requires some { 0 < length ring.now }
    requires near { All IsNear ring.now }
    ensures hits { IsTrue result ↔ Hits (R.cells rows.old) edge ring.now }
    ensures rows { rows.new ≡ rows.old }
{
    let bounds = bounds_of(ring);
    match edge {
        Edge::Open => meets_one::<R>(rows, ring, bounds),
        Edge::Wall => {
            bounds.leave(rows.width(), rows.height()) || meets_one::<R>(rows, ring, bounds)
        }
    }
}

/// Whether an obstacle of the map meets the polygon.
fn meets_one<R: Rows>(rows: &mut R, ring: &[Corner], bounds: Bounds) -> bool
    requires some { 0 < length ring.now }
    requires near { All IsNear ring.now }
    requires columns { IsRange (λ c. c.x) ring.now (length ring.now) bounds.left bounds.right }
    requires lines { IsRange (λ c. c.y) ring.now (length ring.now) bounds.top bounds.bottom }
    ensures found { MatchBool result (HasHit (R.cells rows.old) ring.now)
        (HasHit (R.cells rows.old) ring.now → ⊥) }
    ensures rows { rows.new ≡ rows.old }
{
    let (width, height) = (rows.width(), rows.height());
    any_band::<R>(rows, ring, bounds.columns(width), bounds.rows(height))
}

/// Whether an obstacle in these columns and rows, which the polygon's range overlaps, meets it.
fn any_band<R: Rows>(rows: &mut R, ring: &[Corner], columns: Stretch, lines: Stretch) -> bool
    requires bitmap { IsBitmap (R.cells rows.old) }
    requires some { 0 < length ring.now }
    requires near { All IsNear ring.now }
    requires columns { AreOverlapped (λ c. c.x) ring.now (R.cells rows.old).width columns }
    requires lines { AreOverlapped (λ c. c.y) ring.now (R.cells rows.old).height lines }
    ensures found { MatchBool result (HasHit (R.cells rows.old) ring.now)
        (HasHit (R.cells rows.old) ring.now → ⊥) }
    ensures rows { rows.new ≡ rows.old }
{
    if columns.end <= columns.first {
        return false;
    }
    'bands: for band in lines.first / BAND_ROWS..lines.end.div_ceil(BAND_ROWS) {
        if band_hits::<R>(rows, ring, columns, lines, band) {
            return true;
        }
    }
    false
}

/// Whether an obstacle in these columns and rows of a band meets the polygon.
fn band_hits<R: Rows>(
    rows: &mut R,
    ring: &[Corner],
    columns: Stretch,
    lines: Stretch,
    band: u16,
) -> bool
    requires bitmap { IsBitmap (R.cells rows.old) }
    requires some { 0 < length ring.now }
    requires near { All IsNear ring.now }
    requires columns { AreOverlapped (λ c. c.x) ring.now (R.cells rows.old).width columns }
    requires lines { AreOverlapped (λ c. c.y) ring.now (R.cells rows.old).height lines }
    requires wide { columns.first < columns.end }
    requires band { band < 64 }
    ensures found { MatchBool result (HasHit (R.cells rows.old) ring.now)
        ((x y : ℕ) → y / BAND_ROWS ≡ band → IsHit (R.cells rows.old) ring.now x y → ⊥) }
    ensures rows { rows.new ≡ rows.old }
{
    if !may_strike::<R>(rows, band, columns) {
        return false;
    }
    let own = lines.in_band(band);
    let first = first_struck::<R>(rows, columns, own);
    let left = Stretch {
        first,
        end: own.end,
    };
    any_row::<R>(rows, ring, columns, left)
}

/// Whether an obstacle in these columns and rows, all of which the polygon's range overlaps, meets
/// it.
fn any_row<R: Rows>(rows: &mut R, ring: &[Corner], columns: Stretch, lines: Stretch) -> bool
    requires bitmap { IsBitmap (R.cells rows.old) }
    requires some { 0 < length ring.now }
    requires near { All IsNear ring.now }
    requires columns { AreOverlapped (λ c. c.x) ring.now (R.cells rows.old).width columns }
    requires lines { (y : ℕ) → IsIn lines.first lines.end y
        → (y < (R.cells rows.old).height) × IsOverlapped (λ c. c.y) ring.now (pos y) }
    ensures found { MatchBool result (HasHit (R.cells rows.old) ring.now)
        ((x y : ℕ) → IsIn lines.first lines.end y → IsHit (R.cells rows.old) ring.now x y → ⊥) }
    ensures rows { rows.new ≡ rows.old }
{
    'rows: for y in lines.first..lines.end {
        if row_hits::<R>(rows, ring, columns, y) {
            return true;
        }
    }
    false
}

/// Whether an obstacle of a row in these columns meets the polygon.
fn row_hits<R: Rows>(rows: &mut R, ring: &[Corner], columns: Stretch, y: u16) -> bool
    requires bitmap { IsBitmap (R.cells rows.old) }
    requires some { 0 < length ring.now }
    requires near { All IsNear ring.now }
    requires columns { AreOverlapped (λ c. c.x) ring.now (R.cells rows.old).width columns }
    requires row { y < (R.cells rows.old).height }
    requires overlapped { IsOverlapped (λ c. c.y) ring.now (pos y) }
    ensures found { MatchBool result
        ((x : ℕ) × IsHit (R.cells rows.old) ring.now x y)
        ((x : ℕ) → IsHit (R.cells rows.old) ring.now x y → ⊥) }
    ensures rows { rows.new ≡ rows.old }
{
    if !strikes::<R>(rows, y, columns) {
        return false;
    }
    let covered = covered(ring, y, columns);
    strikes::<R>(rows, y, covered)
}
