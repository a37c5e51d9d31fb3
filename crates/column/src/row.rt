//! One row of entries: where a word has obstacles, and what the row below it takes over.

ghost use Rattle.std.specs.Prelude.{◌≡◌, ℕ, ◌+◌, ◌<◌, ◌≤◌, ◌==◌, ◌⊎◌, length, slice_index};
ghost use Rattle.std.specs.Int.{bit_at};
ghost use Rattle.column.specs.Marks.{IsEntry, marked, nearer};

use metric::LAST_FRAMED;
use std::simd::prelude::*;

/// The lowest eight bits, one each.
const PLACES: [u16; 8] = [1, 2, 4, 8, 16, 32, 64, 128];

/// Writes row `y` into the entries of one word's obstacles; the first column is that of the lowest
/// bit.
pub fn mark_word(word: u64, y: u16, first: usize, row: &mut [u16])
    requires { first ≤ length row.old }
    ensures len { length row.new ≡ length row.old }
    ensures marked { (i : ℕ) → i < 64 → first + i < length row.old
        → slice_index row.new (first + i) ≡ marked (bit_at word i == 1) y
        (slice_index row.old (first + i)) }
    ensures others { (x : ℕ) → (x < first) ⊎ (first + 64 ≤ x)
        → slice_index row.new x ≡ slice_index row.old x }
{
    'parts: for part in 0..8 {
        let start = first + 8 * part;
        let bits = ((word >> (8 * part)) & 0xff) as u16;
        if start + 8 <= row.len() {
            let entries = u16x8::from_slice(&row[start..]);
            marked_lanes(bits, y, entries).copy_to_slice(&mut row[start..]);
        } else if start < row.len() {
            mark_last(bits, y, start, row);
        }
    }
}

/// Eight entries, with row `y` in those of obstacles.
#[inline(always)]
fn marked_lanes(bits: u16, y: u16, entries: u16x8) -> u16x8
    ensures { (i : ℕ) → i < 8
        → slice_index result i ≡ marked (bit_at bits i == 1) y (slice_index entries i) }
{
    let places = u16x8::from_array(PLACES);
    let obstacles = u16x8::splat(bits) & places;
    obstacles.simd_eq(places).select(u16x8::splat(y), entries)
}

/// Writes row `y` into the entries of the obstacles of the row's last cells, fewer than eight.
fn mark_last(bits: u16, y: u16, first: usize, row: &mut [u16])
    requires some { first ≤ length row.old }
    requires few { length row.old < first + 8 }
    ensures len { length row.new ≡ length row.old }
    ensures marked { (i : ℕ) → i < 8 → first + i < length row.old
        → slice_index row.new (first + i) ≡ marked (bit_at bits i == 1) y
        (slice_index row.old (first + i)) }
    ensures others { (x : ℕ) → x < first → slice_index row.new x ≡ slice_index row.old x }
{
    'bits: for place in 0..row.len() - first {
        let entry = row[first + place];
        row[first + place] = if (bits >> place) & 1 == 1 { y } else { entry };
    }
}

/// The nearer of two entries, seen from row `y`; the first one on a tie. Rows count the frame, and
/// the mark for no row is farther than any.
pub fn nearer(y: u16, above: u16, below: u16) -> u16
    requires row { y ≤ LAST_FRAMED }
    requires above { IsEntry above }
    requires below { IsEntry below }
    ensures { result ≡ nearer y above below }
{
    if y.abs_diff(below) < y.abs_diff(above) {
        below
    } else {
        above
    }
}
