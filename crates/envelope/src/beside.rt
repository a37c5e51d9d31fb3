//! The row phase without branches: for sixteen cells at a time, it searches the columns from the
//! nearest outwards. Cells whose nearest column isn't close by go to the stack, with the columns
//! between those that are the nearest to the cells next to them.
//!
//! Each column has a place, 128 after its number, and at this place a part: the part of its gap in
//! a 16-bit distance. The places before the first column and after the last one, and those of
//! columns without an obstacle, have the part for no obstacle.

ghost use Rattle.std.specs.Prelude.{◌≡◌, ℕ, ◌+◌, ◌-◌, ◌*◌, ◌<◌, ◌≤◌, ◌⊎◌};
ghost use Rattle.std.specs.Prelude.{length, slice_index, slice_index_or};
ghost use Rattle.metric.specs.Edge.{shift};
ghost use Rattle.envelope.specs.Beside.{AreColumnParts, AreTold};
ghost use Rattle.envelope.specs.Columns.{AreEntries, AreSaid, IsSaid};
ghost use Rattle.envelope.specs.Pieces.{IsLeftBound, IsRightBound};

use crate::answer::CellValue;
use crate::border::Border;
use crate::columns::near_at;
use crate::cover::Span;
use crate::piece::{Piece, fill_piece};
use crate::reaches::{Listed, REACHES, ReachSource, Worked, set_reaches};
use crate::search::{Eight, FARTHEST, search};
use column::NONE;
use metric::Metric;
use std::simd::prelude::*;

/// The place of the first column.
const FIRST: usize = 128;

/// How many more places there are than columns.
pub const SPARE: usize = 272;

/// The fewest columns of a row that makes a list of its reaches: rows of fewer columns take fewer
/// steps in all than the list has reaches.
const LISTED_COLUMNS: usize = 256;

/// The part for no obstacle.
const NO_PART: u16 = 32400;

/// The steps outwards that a row may always take.
const FREE_STEPS: u32 = 150;

/// Tenths of a step that a column without an obstacle adds: about what it costs the stack.
const TENTHS_WITHOUT: u32 = 1;

/// Tenths of a step that a column with an obstacle adds: of 20, 25 and 31, with which walls, yards
/// and scattered obstacles were timed, the largest by which none of them loses.
const TENTHS_WITH: u32 = 25;

/// Fills the row with the obstacle of the column nearest to each cell. Returns whether most cells
/// were found close by. `parts` has room for one place per column and 272 more, and `spans` for one
/// span per column.
// Not inlined: the two phases would compete for registers.
#[inline(never)]
pub fn fill_beside<M: Metric, A: CellValue, B: Border>(
    entries: &[u16],
    y: u16,
    parts: &mut [u16],
    spans: &mut [Span],
    answers: &mut [A],
) -> bool
    requires laned { 0 < M.reach_of 1 }
    requires entries { AreEntries entries.now y }
    requires row { shift B.EDGE ≤ y }
    requires room { length entries.now + 272 ≤ length parts.old }
    requires spans { length entries.now ≤ length spans.old }
    requires width { length answers.old + 2 * shift B.EDGE ≡ length entries.now }
    ensures { AreSaid A.says A.unset M.distance entries.now y B.EDGE answers.new }
{
    let parts = &mut parts[..entries.len() + SPARE];
    set_parts::<M>(entries, y, parts);
    if entries.len() < LISTED_COLUMNS {
        return fill_cells::<M, A, B, Worked>(entries, y, parts, &[], spans, answers);
    }
    let mut reaches = [0u16; REACHES];
    set_reaches::<M>(&mut reaches);
    fill_cells::<M, A, B, Listed>(entries, y, parts, &reaches, spans, answers)
}

/// As `fill_beside`, with the parts of the row's columns.
fn fill_cells<M: Metric, A: CellValue, B: Border, S: ReachSource>(
    entries: &[u16],
    y: u16,
    parts: &[u16],
    reaches: &[u16],
    spans: &mut [Span],
    answers: &mut [A],
) -> bool
    requires laned { 0 < M.reach_of 1 }
    requires entries { AreEntries entries.now y }
    requires row { shift B.EDGE ≤ y }
    requires parts { AreColumnParts M.part_of entries.now y parts.now }
    requires reaches { S.known M.reach_of reaches.now }
    requires spans { length entries.now ≤ length spans.old }
    requires width { length answers.old + 2 * shift B.EDGE ≡ length entries.now }
    ensures { AreSaid A.says A.unset M.distance entries.now y B.EDGE answers.new }
{
    let mut left = steps_for(entries);
    let before = usize::from(B::EDGE.shift());
    let mut start = 0;
    'cells: while start < answers.len() {
        let at = start + before;
        if let Some((low, high, steps)) = search::<M, S>(parts, reaches, at + FIRST, left) {
            fill_eight::<M, A, B>(entries, y, start, low, answers);
            fill_eight::<M, A, B>(entries, y, start + 8, high, answers);
            left = left.saturating_sub(steps);
            start += 16;
        } else {
            let first = first_column::<M, S>(entries, y, parts, reaches, at);
            let (end, last, steps) = next_found::<M, S>(entries, y, parts, reaches, at, left);
            let piece = Piece {
                from: at,
                end,
                first,
                last,
            };
            fill_piece::<M, A, B>(entries, y, piece, spans, answers);
            left = left.saturating_sub(steps);
            start = end - before;
        }
    }
    left > 0
}

/// The column nearest to the cell before `start`, if it is found close by with its neighbours;
/// otherwise the first column.
#[inline(never)]
fn first_column<M: Metric, S: ReachSource>(
    entries: &[u16],
    y: u16,
    parts: &[u16],
    reaches: &[u16],
    start: usize,
) -> usize
    requires laned { 0 < M.reach_of 1 }
    requires entries { AreEntries entries.now y }
    requires parts { AreColumnParts M.part_of entries.now y parts.now }
    requires reaches { S.known M.reach_of reaches.now }
    requires start { start < length entries.now }
    ensures { IsLeftBound M.distance entries.now y start result }
{
    if start < 16 {
        return 0;
    }
    match search::<M, S>(parts, reaches, start - 16 + FIRST, FARTHEST) {
        Some((_, high, _)) => column_of(start - 1, high.away, 7),
        None => 0,
    }
}

/// The next cell whose nearest column is found close by, of those at growing distances from
/// `start`; the column after that one, and how many steps were taken. The row's end for both if
/// there is none.
#[inline(never)]
fn next_found<M: Metric, S: ReachSource>(
    entries: &[u16],
    y: u16,
    parts: &[u16],
    reaches: &[u16],
    start: usize,
    most: u16,
) -> (usize, usize, u16)
    requires laned { 0 < M.reach_of 1 }
    requires entries { AreEntries entries.now y }
    requires parts { AreColumnParts M.part_of entries.now y parts.now }
    requires reaches { S.known M.reach_of reaches.now }
    requires start { start < length entries.now }
    ensures further { start < result.0 }
    ensures bound { IsRightBound M.distance entries.now y result.0 result.1 }
{
    let (mut at, mut apart, mut steps) = (start + 16, 16, FARTHEST);
    'groups: while at < entries.len() && steps < most {
        if let Some((low, _, more)) = search::<M, S>(parts, reaches, at + FIRST, most - steps) {
            return (
                at,
                column_of(at, low.away, 0) + 1,
                steps.saturating_add(more),
            );
        }
        steps = steps.saturating_add(FARTHEST);
        apart *= 2;
        at += apart;
    }
    (entries.len(), entries.len(), steps)
}

/// The column at offset `away` from 128 columns to the left of the cell in column `x`, in one of
/// eight lanes.
#[inline(always)]
fn column_of(x: usize, away: u16x8, place: usize) -> usize
    requires cell { x ≤ 4113 }
    requires place { place < 8 }
    ensures { result ≡ x + slice_index away place - 128 }
{
    (x + usize::from(away.to_array()[place])).saturating_sub(128)
}

/// The steps outwards that a row may take: more would cost more than the stack.
#[inline(never)]
fn steps_for(entries: &[u16]) -> u16
    requires { length entries.now ≤ 4098 }
{
    let mut without = 0u16;
    'columns: for column in 0..entries.len() {
        without += u16::from(entries[column] == NONE);
    }
    let with = entries.len() as u16 - without;
    let added = TENTHS_WITH * u32::from(with) + TENTHS_WITHOUT * u32::from(without);
    (FREE_STEPS + added / 10) as u16
}

/// Sets the parts of the row's columns.
#[inline(never)]
fn set_parts<M: Metric>(entries: &[u16], y: u16, parts: &mut [u16])
    requires laned { 0 < M.reach_of 1 }
    requires entries { AreEntries entries.now y }
    requires room { length parts.old ≡ length entries.now + 272 }
    ensures { AreColumnParts M.part_of entries.now y parts.new }
{
    parts.fill(NO_PART);
    'columns: for column in 0..entries.len() {
        parts[column + FIRST] = M::part(y.abs_diff(entries[column]));
    }
}

/// Fills up to eight cells, as far as the row goes.
#[inline(always)]
fn fill_eight<M: Metric, A: CellValue, B: Border>(
    entries: &[u16],
    y: u16,
    start: usize,
    eight: Eight,
    answers: &mut [A],
)
    requires entries { AreEntries entries.now y }
    requires row { shift B.EDGE ≤ y }
    requires width { length answers.old + 2 * shift B.EDGE ≡ length entries.now }
    requires start { start ≤ 4113 }
    requires told { AreTold M.distance entries.now y B.EDGE
        (start + shift B.EDGE) eight.best eight.away }
    ensures len { length answers.new ≡ length answers.old }
    ensures filled { (x : ℕ) → start ≤ x → x < start + 8 → x < length answers.old
        → IsSaid A.says M.distance entries.now y B.EDGE x
        (slice_index_or answers.new x A.unset) }
    ensures others { (x : ℕ) → (x < start) ⊎ (start + 8 ≤ x)
        → slice_index_or answers.new x A.unset ≡ slice_index_or answers.old x A.unset }
{
    let count = (answers.len().max(start) - start).min(8);
    if count == 8 {
        fill_lanes::<M, A, B>(entries, y, start, eight, 8, answers);
    } else {
        fill_lanes::<M, A, B>(entries, y, start, eight, count, answers);
    }
}

/// Fills as many cells, up to eight.
// Inlined, so that a constant count makes a loop that the compiler unrolls.
#[inline(always)]
fn fill_lanes<M: Metric, A: CellValue, B: Border>(
    entries: &[u16],
    y: u16,
    start: usize,
    eight: Eight,
    count: usize,
    answers: &mut [A],
)
    requires entries { AreEntries entries.now y }
    requires row { shift B.EDGE ≤ y }
    requires width { length answers.old + 2 * shift B.EDGE ≡ length entries.now }
    requires start { start ≤ 4113 }
    requires count { count ≤ 8 }
    requires inside { 0 < count → start + count ≤ length answers.old }
    requires told { AreTold M.distance entries.now y B.EDGE
        (start + shift B.EDGE) eight.best eight.away }
    ensures len { length answers.new ≡ length answers.old }
    ensures filled { (x : ℕ) → start ≤ x → x < start + count
        → IsSaid A.says M.distance entries.now y B.EDGE x
        (slice_index_or answers.new x A.unset) }
    ensures others { (x : ℕ) → (x < start) ⊎ (start + 8 ≤ x)
        → slice_index_or answers.new x A.unset ≡ slice_index_or answers.old x A.unset }
{
    let (best, away) = (eight.best.to_array(), eight.away.to_array());
    let edge = B::EDGE;
    let first = usize::from(edge.shift());
    'cells: for lane in 0..count {
        let x = start + lane + first;
        let column = x + usize::from(away[lane]) - 128;
        answers[start + lane] = A::with(near_at(entries, edge, column, u32::from(best[lane])));
    }
}
