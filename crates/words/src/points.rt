//! The points of a line, two numbers each.

ghost use Rattle.std.specs.Prelude.{◌≡◌, ◌≢◌, ◌+◌, [], ◌∷◌, ◌++◌, ◌<◌, ◌≤◌, ◌^◌, length, take};
ghost use Rattle.std.specs.Prelude.{option_map, MatchOption, Some, IfSome, IfOk, IfErr, IsOk};
ghost use Rattle.std.specs.Prelude.{Ok, Err};
ghost use Rattle.metric.specs.declared.refusal.Refusal.{Refusal};
ghost use Rattle.words.specs.Numbers.{path_of, coordinate, points, only, pair, HasNoFirst};
ghost use Rattle.words.specs.Words.{words_left, bytes_left};

use crate::front::next_number;
use metric::{Cell, NoMemory, Refusal};
use std::alloc::Global;

/// The most points of a path.
const MOST_POINTS: usize = 1000;

/// The most points of a line that is short.
const FEW_POINTS: usize = 64;

/// A coordinate; one over 16 bits reads as 65535.
pub fn coordinate(number: u32) -> u16
    ensures { result ≡ coordinate number }
{
    if number < 65535 { number as u16 } else { 65535 }
}

/// The point at the front of the rest of a line, and the rest after it.
#[tactic(auto, unfolding(crate::specs::Numbers::points))]
fn next_point(rest: Option<&[u8]>) -> Option<(Cell, Option<&[u8]>)>
    ensures points { MatchOption result (HasNoFirst (words_left rest.entry))
        (λ found. points (words_left rest.entry) ≡ option_map (λ cells. found.0 ∷ cells)
        (points (words_left found.1))) }
    ensures fewer { IfSome result (λ found. bytes_left found.1 + 2 ≤ bytes_left rest.entry) }
    ensures small { bytes_left rest.entry ≤ 2 ^ 64 }
{
    let (x, rest) = next_number(rest)?;
    let (y, rest) = next_number(rest)?;
    let (x, y) = (coordinate(x), coordinate(y));
    Some((Cell { x, y }, rest))
}

/// The point that is the whole rest of a line.
#[tactic(auto, unfolding(crate::specs::Numbers::points))]
pub fn read_point(rest: Option<&[u8]>) -> Option<Cell>
    ensures { result ≡ only (points (words_left rest.entry)) }
{
    let (cell, rest) = next_point(rest)?;
    rest.is_none().then_some(cell)
}

/// The two points that are the whole rest of a line.
#[tactic(auto, unfolding(crate::specs::Numbers::points))]
pub fn read_pair(rest: Option<&[u8]>) -> Option<(Cell, Cell)>
    ensures { result ≡ pair (points (words_left rest.entry)) }
{
    let (first, rest) = next_point(rest)?;
    let second = read_point(rest)?;
    Some((first, second))
}

/// Writes a point at its place, if the buffer has that place.
#[inline(always)]
fn keep(cells: &mut [Cell], place: usize, cell: Cell)
    ensures { place < length cells.old → take (place + 1) cells.new
        ≡ take place cells.old ++ cell ∷ [] }
{
    if place < cells.len() {
        cells[place] = cell;
    }
}

/// Reads the points in the rest of a line into the front of the buffer, as far as it has places,
/// and returns how many there are; `None` where its words aren't all numbers, or are odd in number.
#[tactic(auto, unfolding(crate::specs::Numbers::points))]
fn read_points(mut rest: Option<&[u8]>, cells: &mut [Cell]) -> Option<usize>
    ensures count { result ≡ option_map (λ cells. length cells) (points (words_left rest.entry)) }
    ensures cells { IfSome result (λ count. count ≤ length cells.old
        → points (words_left rest.entry) ≡ Some (take count cells.new)) }
{
    let mut count = 0;
    'points: while rest.is_some() {
        let (cell, others) = next_point(rest)?;
        keep(cells, count, cell);
        rest = others;
        count += 1;
    }
    Some(count)
}

/// The points of the path in the rest of a line. Requests memory once they are known to be valid.
pub fn read_path(alloc: Global, rest: Option<&[u8]>) -> Result<Vec<Cell>, Refusal>
    ensures cells { IfOk result (λ cells. path_of (points (words_left rest.entry))
        ≡ Ok cells.items) }
    ensures refusal { IfErr result (λ refusal. refusal ≢ Refusal.Memory
        → path_of (points (words_left rest.entry)) ≡ Err refusal) }
    ensures memory { result ≡ Err Refusal.Memory → IsOk (path_of (points (words_left rest.entry))) }
{
    if is_short(rest) {
        let mut cells = [Cell { x: 0, y: 0 }; FEW_POINTS];
        let Some(count) = read_points(rest, &mut cells) else {
            return Err(Refusal::BadArguments);
        };
        if count <= FEW_POINTS {
            return kept_path(alloc, &cells[..count]);
        }
    }
    let mut cells = [Cell { x: 0, y: 0 }; MOST_POINTS];
    let Some(count) = read_points(rest, &mut cells) else {
        return Err(Refusal::BadArguments);
    };
    if count > MOST_POINTS {
        return Err(Refusal::BadPath);
    }
    kept_path(alloc, &cells[..count])
}

/// Whether the rest of a line is too short for more points than a few: a small buffer, which takes
/// less time to clear, has room for them.
fn is_short(rest: Option<&[u8]>) -> bool {
    match rest {
        Some(words) => words.len() < 4 * FEW_POINTS,
        None => true,
    }
}

/// These points, if a path may have that many.
fn kept_path(alloc: Global, cells: &[Cell]) -> Result<Vec<Cell>, Refusal>
    ensures cells { IfOk result (λ kept. path_of (Some cells.now) ≡ Ok kept.items) }
    ensures refusal { IfErr result (λ refusal. refusal ≢ Refusal.Memory
        → path_of (Some cells.now) ≡ Err refusal) }
    ensures memory { result ≡ Err Refusal.Memory → IsOk (path_of (Some cells.now)) }
{
    if cells.is_empty() || cells.len() > MOST_POINTS {
        return Err(Refusal::BadPath);
    }
    let kept = Vec::from_slice(alloc, cells).map_err(NoMemory::from)?;
    Ok(kept)
}
