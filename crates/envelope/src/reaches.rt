//! How far the columns that are searched side by side are: their reaches, and their offsets.

ghost use Rattle.std.specs.Prelude.{◌≡◌, ℕ, ◌+◌, ◌<◌, ◌≤◌, List, length, slice_index};
ghost use Rattle.metric.specs.Lanes.{AreUpTo};
ghost use Rattle.envelope.specs.Beside.{AreReaches};

use crate::lanes::{all_of, difference, load, sum};
use metric::Metric;
use std::simd::prelude::*;

/// How many reaches a row needs, each eight times.
pub const REACHES: usize = 8 * 97;

/// The offsets of columns to the left and to the right of eight cells.
#[derive(Clone, Copy)]
pub struct Sides {
    pub left: u16x8,
    pub right: u16x8,
}

impl Sides {
    ghost use Rattle.envelope.specs.Beside.{AreSides};

    /// The columns next to the cells.
    #[inline(always)]
    pub fn next() -> Sides
        ensures { AreSides 1 result.left result.right }
    {
        Sides {
            left: all_of(127),
            right: all_of(129),
        }
    }

    /// The columns `more` columns farther away than these, which are `_k` columns away.
    #[inline(always)]
    pub fn farther(self, _k: u16, more: u16) -> Sides
        requires sides { AreSides _k self.left self.right }
        requires few { _k + more ≤ 128 }
        ensures { AreSides (_k + more) result.left result.right }
    {
        let more = all_of(more);
        Sides {
            left: difference(self.left, more),
            right: sum(self.right, more),
        }
    }
}

/// Sets the reaches of up to 96 columns, each eight times.
#[inline(never)]
pub fn set_reaches<M: Metric>(reaches: &mut [u16])
    requires { length reaches.old ≡ REACHES }
    ensures { AreReaches M.reach_of reaches.new }
{
    'places: for place in 0..REACHES as u16 {
        reaches[usize::from(place)] = M::reach(place / 8);
    }
}

/// Where a search finds the reaches of columns.
pub trait ReachSource {
    /// What is known of the list that a search is given.
    ghost known: { (ℕ → ℕ) → List ℕ → Type 0 };

    /// The reach of this many columns, in eight lanes.
    fn reach_at<M: Metric>(reaches: &[u16], k: u16) -> u16x8
        requires reaches { known M.reach_of reaches.now }
        requires few { k ≤ 96 }
        ensures each { (i : ℕ) → i < 8 → slice_index result i ≡ M.reach_of k }
        ensures few { AreUpTo 9409 result };
}

/// In the list, where many cells share its cost.
pub struct Listed;

impl ReachSource for Listed {
    ghost use Rattle.envelope.specs.Beside.{AreReaches};

    ghost known = { AreReaches };

    #[inline(always)]
    fn reach_at<M: Metric>(reaches: &[u16], k: u16) -> u16x8 {
        load(reaches, 8 * usize::from(k))
    }
}

/// In no list: each is worked out.
pub struct Worked;

impl ReachSource for Worked {
    ghost known = { λ reach reaches. Unit };

    #[inline(always)]
    fn reach_at<M: Metric>(_reaches: &[u16], k: u16) -> u16x8 {
        all_of(M::reach(k))
    }
}
