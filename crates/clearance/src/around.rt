//! The one search: through the tiles that may have an obstacle, from a rectangle outwards.

ghost use Rattle.std.specs.Prelude.{◌≡◌, ℕ, ◌/◌, ◌<◌, ◌≤◌, ◌⊎◌, true, IfSome};
ghost use Rattle.std.specs.Int.{bit_at};
ghost use Rattle.bits.specs.Bands.{IsBanded};
ghost use Rattle.bits.specs.Cells.{IsObstacle};
ghost use Rattle.bits.specs.Words.{words_across};
ghost use Rattle.clearance.specs.Search.{IsInRect, IsRectIn};
ghost use Rattle.clearance.specs.Seekers.{AreTilesLeft, IsLeft, IsOnward, IsPlace};
ghost use Rattle.clearance.specs.Seekers.{IsPast, IsPlaceMet};
ghost use Rattle.clearance.specs.Spots.{IsInBand, IsInTile};

use crate::bit::{after_last_bit, next_bit};
use crate::gaps::{columns_apart, rows_apart};
use crate::near_tile::{Place, nearest_tile};
use crate::outwards::Bands;
use crate::part::Part;
use crate::rows::Rows;
use crate::seeker::Seeker;
use bits::{has_bit, without_bit};
use metric::{BAND_ROWS, Metric, Rect, WORD_CELLS};

/// Meets all obstacles that matter: band by band and tile by tile from the rectangle outwards.
///
/// It starts with what is likely to be near, so that few others matter: the start's row, as far as
/// the rectangle's last tile, or, if the start's tile has no obstacle, the nearest tile.
pub fn search<M: Metric, R: Rows, S: Seeker<M>>(rows: &mut R, seeker: &mut S)
    requires { IsRectIn (R.cells rows.old) (S.aim.from seeker.old) }
    ensures onward { IsOnward S.aim (R.cells rows.old) seeker.old seeker.new }
    ensures met { (a b : ℕ) → IsObstacle (R.cells rows.old) a b → S.aim.settles seeker.new a b }
    ensures rows { rows.new ≡ rows.old }
{
    let start = seeker.start();
    let own = start.y / BAND_ROWS;
    let bands = Bands::of(rows.bands(), own);
    // The start's own band is left if it is marked.
    if bands.below == own && has_bit(rows.tiles(own), start.x / WORD_CELLS) {
        search_row::<M, R, S>(rows, seeker);
        search_others::<M, R, S>(rows, bands, None, seeker);
        return;
    }
    let Some(first) = nearest_tile::<M, R, S>(rows, bands, seeker) else {
        search_others::<M, R, S>(rows, bands, None, seeker);
        return;
    };
    search_tile::<M, R, S>(rows, first.band, first.tile, seeker);
    search_others::<M, R, S>(rows, bands, Some(first), seeker);
}

/// Meets the obstacles of the start's row from its tile to the rectangle's last, if not the same.
fn search_row<M: Metric, R: Rows, S: Seeker<M>>(rows: &mut R, seeker: &mut S)
    requires { IsRectIn (R.cells rows.old) (S.aim.from seeker.old) }
    ensures onward { IsOnward S.aim (R.cells rows.old) seeker.old seeker.new }
    ensures rows { rows.new ≡ rows.old }
{
    let (rect, start) = (seeker.rect(), seeker.start());
    let (first, last) = (start.x / WORD_CELLS, (rect.x1 - 1) / WORD_CELLS);
    if first == last {
        return;
    }
    'row: for tile in first..last + 1 {
        let word = rows.word(start.y, usize::from(tile));
        if word == 0 {
            continue;
        }
        seeker.meet(word, tile, start.y, 0);
        if seeker.is_far(M::of(0, 0), 0, 0) {
            return;
        }
    }
}

/// Meets all obstacles of these bands that matter, except those of a tile that was met before.
fn search_others<M: Metric, R: Rows, S: Seeker<M>>(
    rows: &mut R,
    bands: Bands,
    but: Option<Place>,
    seeker: &mut S,
)
    requires rect { IsRectIn (R.cells rows.old) (S.aim.from seeker.old) }
    requires banded { IsBanded (R.cells rows.old) bands.marked }
    requires above { bands.above ≤ (S.aim.begins seeker.old).y / BAND_ROWS }
    requires below { (S.aim.begins seeker.old).y / BAND_ROWS ≤ bands.below }
    requires few { bands.below ≤ 64 }
    requires all { (k : ℕ) → k < 64 → bit_at bands.marked k ≡ 1
        → IsLeft bands.above bands.below k }
    requires but { IsPlaceMet (R.cells rows.old) but (S.aim.settles seeker.old) }
    requires place { IfSome but (λ place. place.tile < 64) }
    ensures onward { IsOnward S.aim (R.cells rows.old) seeker.old seeker.new }
    ensures met { (a b : ℕ) → IsObstacle (R.cells rows.old) a b → S.aim.settles seeker.new a b }
    ensures rows { rows.new ≡ rows.old }
{
    let mut left = bands;
    'outwards: while let Some(next) = left.next(seeker.rect(), seeker.start().y) {
        if seeker.is_far(M::of(0, next.gap), 0, next.gap) {
            return;
        }
        let tiles = tiles_but(rows.tiles(next.band), next.band, but);
        search_right::<M, R, S>(rows, next.band, tiles, seeker);
        search_left::<M, R, S>(rows, next.band, tiles, seeker);
        left = next.left;
    }
}

/// The tiles of a band without one that was met before.
#[inline(always)]
fn tiles_but(tiles: u64, band: u16, but: Option<Place>) -> u64
    requires { IfSome but (λ place. place.tile < 64) }
    ensures { (k : ℕ) → k < 64 → bit_at tiles k ≡ 1
        → (bit_at result k ≡ 1) ⊎ IsPlace but band k }
{
    match but {
        Some(place) if place.band == band => without_bit(tiles, place.tile),
        _ => tiles,
    }
}

/// Meets the obstacles of a tile that matter, row by row from the rectangle outwards. Except in the
/// start's own tile, the columns of all rows that may matter are looked at first.
fn search_tile<M: Metric, R: Rows, S: Seeker<M>>(rows: &mut R, band: u16, tile: u16, seeker: &mut S)
    requires rect { IsRectIn (R.cells rows.old) (S.aim.from seeker.old) }
    requires band { band < 64 }
    requires tile { tile < words_across (R.cells rows.old).width }
    ensures onward { IsOnward S.aim (R.cells rows.old) seeker.old seeker.new }
    ensures met { (a b : ℕ) → IsInTile (R.cells rows.old) band tile a b
        → S.aim.settles seeker.new a b }
    ensures rows { rows.new ≡ rows.old }
{
    let (rect, start) = (seeker.rect(), seeker.start());
    let whole = Part::of(rows, band, tile, rect);
    if whole.end <= whole.first {
        return;
    }
    if tile == start.x / WORD_CELLS && band == start.y / BAND_ROWS {
        whole.meet::<M, R, S>(rows, rect, start.y, seeker);
        return;
    }
    let left = whole.cut::<M, S>(rect, seeker);
    let Some(part) = left.looked(rows, rect) else {
        return;
    };
    part.meet::<M, R, S>(rows, rect, start.y, seeker);
}

/// Whether the obstacles of a tile of a band, in columns from `x` on, and those past it, seen from
/// the start, don't matter any more.
#[inline(always)]
fn is_tile_far<M: Metric, S: Seeker<M>>(seeker: &S, band: u16, tile: u16, x: u16) -> bool
    requires band { band < 64 }
    requires tile { tile < 64 }
    ensures { result ≡ true → (a b : ℕ) → a < 4096 → b / BAND_ROWS ≡ band
        → IsPast (S.aim.begins seeker.now).x tile a → x ≤ a → S.aim.settles seeker.now a b }
{
    let rect = seeker.rect();
    let (columns, gap) = (columns_apart(rect, tile), rows_apart(rect, band));
    seeker.is_far(M::of(columns, gap), x, gap)
}

/// Meets the obstacles of a band that matter in the start's tile and to the right of it. Columns
/// further right lose where distances are equal: a tie may end it.
fn search_right<M: Metric, R: Rows, S: Seeker<M>>(
    rows: &mut R,
    band: u16,
    tiles: u64,
    seeker: &mut S,
)
    requires rect { IsRectIn (R.cells rows.old) (S.aim.from seeker.old) }
    requires band { band < 64 }
    requires tiles { AreTilesLeft (R.cells rows.old) band tiles (S.aim.settles seeker.old) }
    ensures onward { IsOnward S.aim (R.cells rows.old) seeker.old seeker.new }
    ensures met { (a b : ℕ) → IsInBand (R.cells rows.old) band a b
        → (S.aim.begins seeker.old).x / WORD_CELLS ≤ a / WORD_CELLS → S.aim.settles seeker.new a b }
    ensures rows { rows.new ≡ rows.old }
{
    let across = rows.across() as u16;
    let mut tile = next_bit(tiles, seeker.start().x / WORD_CELLS);
    'right: while tile < across {
        if is_tile_far::<M, S>(seeker, band, tile, WORD_CELLS * tile) {
            return;
        }
        search_tile::<M, R, S>(rows, band, tile, seeker);
        tile = next_bit(tiles, tile + 1);
    }
}

/// Meets those to the left of the start's tile. Tiles further left have lesser columns, which win
/// where distances are equal: only a greater distance ends it.
fn search_left<M: Metric, R: Rows, S: Seeker<M>>(
    rows: &mut R,
    band: u16,
    tiles: u64,
    seeker: &mut S,
)
    requires rect { IsRectIn (R.cells rows.old) (S.aim.from seeker.old) }
    requires band { band < 64 }
    requires tiles { AreTilesLeft (R.cells rows.old) band tiles (S.aim.settles seeker.old) }
    ensures onward { IsOnward S.aim (R.cells rows.old) seeker.old seeker.new }
    ensures met { (a b : ℕ) → IsInBand (R.cells rows.old) band a b
        → a / WORD_CELLS < (S.aim.begins seeker.old).x / WORD_CELLS → S.aim.settles seeker.new a b }
    ensures rows { rows.new ≡ rows.old }
{
    let mut after = after_last_bit(tiles, seeker.start().x / WORD_CELLS);
    'left: while 0 < after {
        if is_tile_far::<M, S>(seeker, band, after - 1, 0) {
            return;
        }
        search_tile::<M, R, S>(rows, band, after - 1, seeker);
        after = after_last_bit(tiles, after - 1);
    }
}
