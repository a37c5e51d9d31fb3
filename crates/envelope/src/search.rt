//! The search of sixteen cells' columns, from the nearest outwards, in two vectors of eight lanes.
//!
//! A column is named by its offset from 128 columns to the left of the cell.

ghost use Rattle.std.specs.Prelude.{◌+◌, ◌<◌, ◌≤◌, length, IfSome};
ghost use Rattle.envelope.specs.Beside.{AreBestNear, AreDecided, AreSides, AreSmall};

use crate::lanes::{all_of, are_below, chosen, least, load};
use crate::reaches::{ReachSource, Sides};
use metric::Metric;
use std::simd::prelude::*;

/// The most columns searched on each side before a cell is given up.
pub const FARTHEST: u16 = 96;

/// For each of eight cells the distance of the nearest column so far, and that column.
#[derive(Clone, Copy)]
pub struct Eight {
    pub best: u16x8,
    pub away: u16x8,
}

/// The nearest columns of sixteen cells, from the one at `at` on, and how many steps that took;
/// `None` if one of them has none within this many steps, or close by.
#[inline(always)]
pub fn search<M: Metric, S: ReachSource>(
    parts: &[u16],
    reaches: &[u16],
    at: usize,
    most: u16,
) -> Option<(Eight, Eight, u16)>
    requires laned { 0 < M.reach_of 1 }
    requires small { AreSmall parts.now }
    requires reaches { S.known M.reach_of reaches.now }
    requires left { 128 ≤ at }
    requires right { at + 144 ≤ length parts.now }
    ensures low { IfSome result
        (λ both. AreDecided M.distance M.joined parts.now at both.0.best both.0.away) }
    ensures high { IfSome result
        (λ both. AreDecided M.distance M.joined parts.now (at + 8) both.1.best both.1.away) }
{
    let mut low = look_here::<M>(parts, at);
    let mut high = look_here::<M>(parts, at + 8);
    let (mut k, mut sides) = (1u16, Sides::next());
    let end = most.min(FARTHEST - 2);
    'columns: while k < end {
        let reach = M::reach(k);
        if are_below(low.best, reach) && are_below(high.best, reach) {
            return Some((low, high, k));
        }
        low = look_four_times::<M, S>(parts, reaches, at, k, sides, low);
        high = look_four_times::<M, S>(parts, reaches, at + 8, k, sides, high);
        sides = sides.farther(k, 4);
        k += 4;
    }
    None
}

/// The columns of eight cells themselves.
#[inline(always)]
fn look_here<M: Metric>(parts: &[u16], at: usize) -> Eight
    requires laned { 0 < M.reach_of 1 }
    requires small { AreSmall parts.now }
    requires right { at + 8 ≤ length parts.now }
    ensures { AreBestNear M.distance M.joined parts.now at 1 result.best result.away }
{
    Eight {
        best: M::join(load(parts, at), all_of(M::reach(0))),
        away: all_of(128),
    }
}

/// Also the columns `k` to `k + 3` columns to either side of eight cells.
#[inline(always)]
fn look_four_times<M: Metric, S: ReachSource>(
    parts: &[u16],
    reaches: &[u16],
    at: usize,
    k: u16,
    sides: Sides,
    eight: Eight,
) -> Eight
    requires laned { 0 < M.reach_of 1 }
    requires small { AreSmall parts.now }
    requires reaches { S.known M.reach_of reaches.now }
    requires sides { AreSides k sides.left sides.right }
    requires left { 128 ≤ at }
    requires right { at + 136 ≤ length parts.now }
    requires some { 1 ≤ k }
    requires few { k ≤ 93 }
    requires found { AreBestNear M.distance M.joined parts.now at k eight.best eight.away }
    ensures { AreBestNear M.distance M.joined parts.now at (k + 4) result.best result.away }
{
    let farther = sides.farther(k, 2);
    let one = look_aside::<M, S>(parts, reaches, at, k, sides, eight);
    let two = look_aside::<M, S>(parts, reaches, at, k + 1, sides.farther(k, 1), one);
    let three = look_aside::<M, S>(parts, reaches, at, k + 2, farther, two);
    look_aside::<M, S>(parts, reaches, at, k + 3, farther.farther(k + 2, 1), three)
}

/// Also the columns `k` columns to either side of eight cells. On the left a column wins if it
/// isn't worse, on the right if it is better.
#[inline(always)]
fn look_aside<M: Metric, S: ReachSource>(
    parts: &[u16],
    reaches: &[u16],
    at: usize,
    k: u16,
    sides: Sides,
    eight: Eight,
) -> Eight
    requires laned { 0 < M.reach_of 1 }
    requires small { AreSmall parts.now }
    requires reaches { S.known M.reach_of reaches.now }
    requires sides { AreSides k sides.left sides.right }
    requires left { 128 ≤ at }
    requires right { at + 136 ≤ length parts.now }
    requires some { 1 ≤ k }
    requires few { k ≤ 96 }
    requires found { AreBestNear M.distance M.joined parts.now at k eight.best eight.away }
    ensures { AreBestNear M.distance M.joined parts.now at (k + 1) result.best result.away }
{
    let reach = S::reach_at::<M>(reaches, k);
    let left = M::join(load(parts, at - usize::from(k)), reach);
    let better = least(eight.best, left);
    let to_left = chosen(better, left, sides.left, eight.away);
    let right = M::join(load(parts, at + usize::from(k)), reach);
    let best = least(better, right);
    Eight {
        best,
        away: chosen(best, better, to_left, sides.right),
    }
}
