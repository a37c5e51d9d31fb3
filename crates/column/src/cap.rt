//! The frame in rows of entries: its first and last row, and the ends of each row.

ghost use Rattle.std.specs.Prelude.{◌≡◌, ℕ, ◌*◌, ◌<◌, ◌≤◌, true, length, slice_index};
ghost use Rattle.metric.specs.Edge.{shift};
ghost use Rattle.column.specs.Capped.{is_cap, is_side};
ghost use Rattle.column.specs.Marks.{AreMissing, first_marked, marked};

use crate::NONE;
use metric::{Edge, FRAMED_SIDE, MOST_SIDE};

/// Whether row `y` is one of the frame's, in a map of `height` rows without the frame.
pub fn is_cap(edge: Edge, height: u16, y: u16) -> bool
    requires { height ≤ MOST_SIDE }
    ensures { result ≡ is_cap edge height y }
{
    match edge {
        Edge::Open => false,
        Edge::Wall => y == 0 || y == height + 1,
    }
}

/// Writes the row's own number into its first and last entry, if these are the frame's.
pub fn mark_sides(edge: Edge, y: u16, row: &mut [u16])
    requires { 2 * shift edge ≤ length row.old }
    ensures len { length row.new ≡ length row.old }
    ensures marked { (x : ℕ) → x < length row.old → slice_index row.new x
        ≡ marked (is_side edge (length row.old) x) y (slice_index row.old x) }
{
    match edge {
        Edge::Open => {}
        Edge::Wall => {
            let last = row.len() - 1;
            row[0] = y;
            row[last] = y;
        }
    }
}

/// Writes row `y` into each missing entry; no column is missing then.
pub fn mark_all(y: u16, missing: &mut [u64], entries: &mut [u16])
    requires { y < FRAMED_SIDE }
    ensures len { length entries.new ≡ length entries.old }
    ensures room { length missing.new ≡ length missing.old }
    ensures missing { AreMissing missing.new entries.new }
    ensures marked { (x : ℕ) → x < length entries.old
        → slice_index entries.new x ≡ first_marked true y (slice_index entries.old x) }
{
    missing.fill(0);
    'columns: for x in 0..entries.len() {
        let entry = entries[x];
        entries[x] = if entry == NONE { y } else { entry };
    }
}
