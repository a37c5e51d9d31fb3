//! The tile that is likely to have the nearest obstacle: the marked one that is nearest.

ghost use Rattle.std.specs.Prelude.{◌≤◌, ◌<◌, ◌/◌, IfSome};
ghost use Rattle.bits.specs.Words.{words_across};
ghost use Rattle.clearance.specs.Seekers.{IsPlaceIn};

use crate::bit::{after_last_bit, next_bit};
use crate::gaps::columns_apart;
use crate::outwards::Bands;
use crate::rows::Rows;
use crate::seeker::Seeker;
use metric::{Metric, Rect, WORD_CELLS};

/// A tile of a band.
#[derive(Clone, Copy)]
pub struct Place {
    pub band: u16,
    pub tile: u16,
}

/// The nearest tile so far, and how far it is outside the rectangle.
#[derive(Clone, Copy)]
struct Nearest {
    dist: u32,
    place: Option<Place>,
}

impl Nearest {
    ghost use Rattle.std.specs.Prelude.{◌<◌, IfSome};
    ghost use Rattle.clearance.specs.Seekers.{IsPlaceIn};

    /// This one, or another tile if that is nearer. It is as many rows away as its band.
    #[inline(always)]
    fn or<M: Metric>(self, rect: Rect, gap: u16, place: Place, across: u16) -> Nearest
        requires gap { gap ≤ 4096 }
        requires band { place.band < 64 }
        requires few { across ≤ 64 }
        requires own { IfSome self.place (IsPlaceIn across) }
        ensures { IfSome result.place (IsPlaceIn across) }
    {
        if across <= place.tile {
            return self;
        }
        let dist = M::of(columns_apart(rect, place.tile), gap);
        if self.dist <= dist {
            return self;
        }
        Nearest {
            dist,
            place: Some(place),
        }
    }
}

/// The nearest of the marked tiles of these bands that may matter. No clause says that it is: a
/// search that begins there leaves out more of the others.
pub fn nearest_tile<M: Metric, R: Rows, S: Seeker<M>>(
    rows: &R,
    bands: Bands,
    seeker: &S,
) -> Option<Place>
    requires above { bands.above ≤ (S.aim.begins seeker.now).y / 64 }
    requires below { (S.aim.begins seeker.now).y / 64 ≤ bands.below }
    requires few { bands.below ≤ 64 }
    ensures { IfSome result (IsPlaceIn (words_across (R.cells rows.now).width)) }
{
    let (rect, start) = (seeker.rect(), seeker.start());
    let (own, across) = (start.x / WORD_CELLS, rows.across() as u16);
    let mut left = bands;
    let mut nearest = Nearest {
        dist: u32::MAX,
        place: None,
    };
    'bands: while let Some(next) = left.next(rect, start.y) {
        let (band, gap) = (next.band, next.gap);
        let row = M::of(0, gap);
        if row >= nearest.dist || seeker.is_far(row, 0, gap) {
            return nearest.place;
        }
        let tiles = rows.tiles(band);
        let tile = next_bit(tiles, own);
        nearest = nearest.or::<M>(rect, gap, Place { band, tile }, across);
        let after = after_last_bit(tiles, own);
        if 0 < after {
            let tile = after - 1;
            nearest = nearest.or::<M>(rect, gap, Place { band, tile }, across);
        }
        left = next.left;
    }
    nearest.place
}
