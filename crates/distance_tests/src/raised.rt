//! A caller's own metric, whose distances are on both sides of the largest number of 16 bits.

ghost use Rattle.metric.specs.Lanes.{added};
ghost use Rattle.distance_tests.specs.Quadrupled.{no_reach};
ghost use Rattle.distance_tests.specs.Raised.{raised, raised_grows, raised_reaches};
ghost use Rattle.distance_tests.specs.Raised.{raised_small, raised_stays_nearer};

use metric::{City, Metric};
use std::simd::prelude::*;

/// City-block distances, each 65,533 larger.
pub struct Raised;

impl Metric for Raised {
    ghost distance = { raised };

    fn of(dx: u16, g: u16) -> u32 {
        65_533 + City::of(dx, g)
    }

    fn last_not_worse(i: u16, gi: u16, u: u16, gu: u16) -> i64 {
        City::last_not_worse(i, gi, u, gu)
    }

    ghost part_of = { no_reach };

    ghost joined = { added };

    ghost reach_of = { no_reach };

    fn part(_g: u16) -> u16 {
        0
    }

    fn reach(_dx: u16) -> u16 {
        0
    }

    fn join(parts: u16x8, reach: u16x8) -> u16x8 {
        parts + reach
    }

    ghost reaches = { raised_reaches };

    ghost small = { raised_small };

    ghost grows = { raised_grows };

    ghost stays_nearer = { raised_stays_nearer };
}
