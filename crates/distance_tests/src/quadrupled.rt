//! A caller's own metric, whose distances are too large for vectors of 16 bits, so that its rows
//! are computed by the stack only.

ghost use Rattle.metric.specs.Lanes.{added};
ghost use Rattle.distance_tests.specs.Quadrupled.{no_reach, quadrupled, quadrupled_grows};
ghost use Rattle.distance_tests.specs.Quadrupled.{quadrupled_reaches, quadrupled_small};
ghost use Rattle.distance_tests.specs.Quadrupled.{quadrupled_stays_nearer};

use metric::{Euclid2, Metric};
use std::simd::prelude::*;

/// Four times the square of the Euclidean distance: that of a map whose cells are two units wide.
pub struct Quadrupled;

impl Metric for Quadrupled {
    ghost distance = { quadrupled };

    fn of(dx: u16, g: u16) -> u32 {
        4 * Euclid2::of(dx, g)
    }

    fn last_not_worse(i: u16, gi: u16, u: u16, gu: u16) -> i64 {
        Euclid2::last_not_worse(i, gi, u, gu)
    }

    ghost part_of = { no_reach };

    ghost joined = { added };

    ghost reach_of = { no_reach };

    fn part(_g: u16) -> u16 {
        0
    }

    fn reach(_dx: u16) -> u16 {
        0
    }

    fn join(parts: u16x8, reach: u16x8) -> u16x8 {
        parts + reach
    }

    ghost reaches = { quadrupled_reaches };

    ghost small = { quadrupled_small };

    ghost grows = { quadrupled_grows };

    ghost stays_nearer = { quadrupled_stays_nearer };
}
