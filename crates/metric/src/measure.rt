//! Distances between cells, as integers.

ghost use Rattle.std.specs.Prelude.{◌≡◌, ℕ, ◌*◌, ◌/◌, ◌<◌, ◌≤◌, refl, slice_index, true};
ghost use Rattle.metric.specs.Distance.{Grows, IsSum, chess, chess_grows, city, city_grows};
ghost use Rattle.metric.specs.Distance.{euclid2, euclid2_grows};
ghost use Rattle.metric.specs.Lanes.{AreUpTo, IsSmall, Reaches, added, chess_small, city_small};
ghost use Rattle.metric.specs.Lanes.{euclid2_small, larger, plain_part, square_part};
ghost use Rattle.metric.specs.Crossing.{AreColumns, IsLastNotWorse, StaysNearer};
ghost use Rattle.metric.specs.Crossing.{chess_stays_nearer, city_stays_nearer};
ghost use Rattle.metric.specs.Crossing.{euclid2_stays_nearer};

use crate::limits::LAST_FRAMED;
use std::simd::prelude::*;

/// The largest part of a row difference in a 16-bit distance. It stands for no obstacle too.
const MOST_PART: u16 = 32400;

/// A distance between two cells, which depends only on how many columns and rows they are apart.
pub trait Metric {
    /// The distance of two cells this many columns and rows apart.
    ghost distance: { ℕ → ℕ → ℕ };

    /// The distance of two cells `dx` columns and `g` rows apart, each at most 4097, the most in a
    /// map.
    fn of(dx: u16, g: u16) -> u32
        requires columns { dx ≤ LAST_FRAMED }
        requires rows { g ≤ LAST_FRAMED }
        ensures { result ≡ distance dx g };

    /// The last cell of a row, from 0 to 4097, at which column `i` isn't worse than column `u`; -1
    /// where there is none.
    ///
    /// The nearest obstacles of the two columns lie `gi` and `gu` rows away. Columns and rows are
    /// at most 4097, the most in a map, and `i` is the left column.
    fn last_not_worse(i: u16, gi: u16, u: u16, gu: u16) -> i64
        requires { AreColumns i gi u gu }
        ensures { IsLastNotWorse distance i gi u gu result };

    /// Whether the distance is the sum of columns and rows. The rows of such a metric take two
    /// scans where many columns have an obstacle some rows away.
    fn is_sum() -> bool
        ensures { result ≡ true → IsSum distance }
    {
        false
    }

    /// The part of a row difference in a 16-bit distance.
    ghost part_of: { ℕ → ℕ };

    /// Joins a part and a reach.
    ghost joined: { ℕ → ℕ → ℕ };

    /// The reach of cells this many columns apart. Where the reach of one column is 0, no distance
    /// is joined: the metric's rows are computed by the stack only, and parts, reaches and `joined`
    /// may be anything.
    ghost reach_of: { ℕ → ℕ };

    /// The part of a row difference in a 16-bit distance: at most 32,400, and 32,400 for every
    /// difference from 61,438 on.
    fn part(g: u16) -> u16
        ensures { result ≡ part_of g };

    /// The reach of cells up to 97 columns apart: the distance of two such cells in one row, at
    /// most 9409, or 0 for all where distances are larger.
    fn reach(dx: u16) -> u16
        requires { dx ≤ 97 }
        ensures reach { result ≡ reach_of dx }
        ensures few { result ≤ 9409 };

    /// Joins eight parts with their reaches into 16-bit distances. Those below 32,400 are exact.
    fn join(parts: u16x8, reach: u16x8) -> u16x8
        requires parts { AreUpTo 32400 parts }
        requires reach { AreUpTo 9409 reach }
        ensures { (i : ℕ) → i < 8
            → slice_index result i ≡ joined (slice_index parts i) (slice_index reach i) };

    /// A reach that isn't 0 is the distance of the columns only.
    ghost reaches: { 0 < reach_of 1 → Reaches distance reach_of };

    /// Where there is a reach, reaches and parts give the small distances.
    ghost small: { 0 < reach_of 1 → IsSmall distance part_of joined };

    /// The distance never decreases as the row difference grows.
    ghost grows: { Grows distance };

    /// Where the right one of two columns is strictly nearer, it is nearer at each cell further
    /// right too.
    ghost stays_nearer: { StaysNearer distance };
}

/// The square of the Euclidean distance, in cells squared: at most 33,570,818.
#[derive(Clone, Copy, Debug, PartialEq, Eq)]
pub struct Euclid2;

impl Metric for Euclid2 {
    ghost distance = { euclid2 };

    fn of(dx: u16, g: u16) -> u32 {
        let (columns, rows) = (u32::from(dx), u32::from(g));
        columns * columns + rows * rows
    }

    fn last_not_worse(i: u16, gi: u16, u: u16, gu: u16) -> i64 {
        let left = Self::of(i, gi);
        let right = Self::of(u, gu);
        if right < left {
            return -1;
        }
        let last = half_quotient(right - left, u - i);
        i64::from(last.min(4097))
    }

    ghost part_of = { square_part };

    ghost joined = { added };

    ghost reach_of = { λ dx. euclid2 dx 0 };

    fn part(g: u16) -> u16 {
        let cut = g.min(180);
        cut * cut
    }

    fn reach(dx: u16) -> u16 {
        dx * dx
    }

    #[inline(always)]
    fn join(parts: u16x8, reach: u16x8) -> u16x8 {
        parts + reach
    }

    ghost reaches = { λ some dx few. refl };

    ghost small = { λ some. euclid2_small };

    ghost grows = { euclid2_grows };

    ghost stays_nearer = { euclid2_stays_nearer };
}

/// Half the quotient, rounded down. Adjacent columns are common, and a halving costs less than a
/// division.
fn half_quotient(ahead: u32, apart: u16) -> u32
    requires { 0 < apart }
    ensures { result ≡ ahead / (2 * apart) }
{
    if apart == 1 {
        ahead / 2
    } else {
        ahead / (2 * u32::from(apart))
    }
}

/// Steps to the four cells next to a cell: `dx + dy`, at most 8194.
#[derive(Clone, Copy, Debug, PartialEq, Eq)]
pub struct City;

impl Metric for City {
    ghost distance = { city };

    fn of(dx: u16, g: u16) -> u32 {
        u32::from(dx) + u32::from(g)
    }

    fn last_not_worse(i: u16, gi: u16, u: u16, gu: u16) -> i64 {
        let apart = u - i;
        if gu >= gi + apart {
            4097
        } else if gi > gu + apart {
            -1
        } else {
            i64::from((gu + u + i - gi) / 2)
        }
    }

    #[inline(always)]
    fn is_sum() -> bool {
        true
    }

    ghost part_of = { plain_part };

    ghost joined = { added };

    ghost reach_of = { λ dx. city dx 0 };

    fn part(g: u16) -> u16 {
        g.min(MOST_PART)
    }

    fn reach(dx: u16) -> u16 {
        dx
    }

    #[inline(always)]
    fn join(parts: u16x8, reach: u16x8) -> u16x8 {
        parts + reach
    }

    ghost reaches = { λ some dx few. refl };

    ghost small = { λ some. city_small };

    ghost grows = { city_grows };

    ghost stays_nearer = { city_stays_nearer };
}

/// Steps to the eight cells around a cell: the larger of `dx` and `dy`, at most 4097.
#[derive(Clone, Copy, Debug, PartialEq, Eq)]
pub struct Chess;

impl Metric for Chess {
    ghost distance = { chess };

    fn of(dx: u16, g: u16) -> u32 {
        u32::from(dx.max(g))
    }

    fn last_not_worse(i: u16, gi: u16, u: u16, gu: u16) -> i64 {
        let middle = (i + u) / 2;
        if gi <= gu {
            i64::from(middle.max(i + gu).min(4097))
        } else if gi <= u {
            i64::from(middle.min(u - gi))
        } else {
            -1
        }
    }

    ghost part_of = { plain_part };

    ghost joined = { larger };

    ghost reach_of = { λ dx. chess dx 0 };

    fn part(g: u16) -> u16 {
        g.min(MOST_PART)
    }

    fn reach(dx: u16) -> u16 {
        dx
    }

    #[inline(always)]
    fn join(parts: u16x8, reach: u16x8) -> u16x8 {
        parts.simd_max(reach)
    }

    ghost reaches = { λ some dx few. refl };

    ghost small = { λ some. chess_small };

    ghost grows = { chess_grows };

    ghost stays_nearer = { chess_stays_nearer };
}
