//! The distances of some rows, in two bytes each where all of a row's are short.

ghost use Rattle.std.specs.Prelude.{◌≡◌, ℕ, ◌+◌, ◌*◌, ◌<◌, ◌≤◌, ◌++◌, [], IfOk, OnOk};
ghost use Rattle.std.specs.Prelude.{length, slice_index, vec_len};
ghost use Rattle.field.specs.Compact.{HasHighLine, kept_as, numbers_in};

use crate::halves::{HALF, put_high, put_low, put_numbers};
use metric::NoMemory;
use std::alloc::Global;

/// The distances of the cells of some rows, in row-major order, each in two halves. A row's line of
/// high halves is kept only if one of them isn't 0.
#[derive(Debug, Drop)]
pub struct CompactStrip {
    /// The low halves of all distances.
    pub low: Vec<u16>,
    /// A line of zeros, then the lines of high halves that are kept.
    pub high: Vec<u16>,
    /// Where the line of each row's high halves starts: 0 for zeros.
    pub starts: Vec<u32>,
}

impl CompactStrip {
    ghost use Rattle.field.specs.Compact.{HasLines};

    /// No rows yet, with room for the low halves of this many rows of this width. Fails only when
    /// out of memory.
    pub fn new(alloc: Global, width: usize, rows: u16) -> Result<Self, NoMemory>
        requires some { 1 ≤ width }
        requires across { width ≤ 4096 }
        ensures lines { IfOk result (HasLines width) }
        ensures empty { IfOk result (λ strip. strip.starts.items ≡ []) }
    {
        let rows = usize::from(rows);
        Ok(CompactStrip {
            low: Vec::with_capacity(alloc, rows * width)?,
            high: vec![in alloc; 0; width]?,
            starts: Vec::with_capacity(alloc, rows)?,
        })
    }

    /// Appends the first of this many rows that are still to come. The memory reserved for the rows
    /// after it isn't touched. `halves` is a buffer for a row's halves. Fails only when out of
    /// memory.
    pub fn push_row(&mut self, line: &[u32], halves: &mut [u16], rows: u16) -> Result<(), NoMemory>
        requires lines { HasLines (length line.now) self.old }
        requires halves { length halves.old ≡ length line.now }
        requires few { vec_len self.old.starts < 65536 }
        ensures lines { OnOk result (HasLines (length line.now) self.new) }
        ensures count { OnOk result (vec_len self.new.starts ≡ vec_len self.old.starts + 1) }
        ensures numbers { OnOk result (numbers_in (length line.now) self.new
            ≡ numbers_in (length line.now) self.old ++ line.now) }
    {
        let most = put_low(line, halves);
        self.low.extend_from_slice(halves)?;
        let start = push_high(&mut self.high, line, halves, most, rows)?;
        self.starts.push(start)?;
        Ok(())
    }

    /// Fills a line with the distances of row number `row`, counted from 0.
    pub fn fill_row(&self, row: usize, distances: &mut [u32])
        requires lines { HasLines (length distances.old) self.now }
        requires row { row < vec_len self.now.starts }
        ensures len { length distances.new ≡ length distances.old }
        ensures each { (x : ℕ) → x < length distances.old → slice_index distances.new x
            ≡ slice_index (numbers_in (length distances.old) self.now)
            (row * length distances.old + x) }
    {
        let width = distances.len();
        let (place, start) = (row * width, self.starts[row] as usize);
        let low = &self.low[place..place + width];
        let high = &self.high[start..start + width];
        put_numbers(low, high, distances);
    }
}

/// Appends the high halves of a row's distances, unless all are 0, and returns where its line of
/// them starts. Nothing that the distances are kept as exceeds `most`. The row is the first of this
/// many that are still to come.
fn push_high(
    high: &mut Vec<u16>,
    line: &[u32],
    halves: &mut [u16],
    most: u32,
    rows: u16,
) -> Result<u32, NoMemory>
    requires across { length line.now ≤ 4096 }
    requires halves { length halves.old ≡ length line.now }
    requires few { vec_len high.old ≤ 268435456 }
    requires room { length line.now ≤ vec_len high.old }
    requires zeros { (x : ℕ) → x < length line.now → slice_index high.old.items x ≡ 0 }
    requires most { (x : ℕ) → x < length line.now → kept_as (slice_index line.now x) ≤ most }
    ensures { IfOk result (HasHighLine line.now high.old.items high.new.items) }
{
    if most < HALF {
        return Ok(0);
    }
    let start = high.len();
    high.reserve_exact(usize::from(rows) * line.len())?;
    put_high(line, halves);
    high.extend_from_slice(halves)?;
    Ok(start as u32)
}
