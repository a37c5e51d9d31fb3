//! Lines of entries carried from row to row: for each column of the map the nearest obstacle before
//! a row, or from a row on.

ghost use Rattle.std.specs.Prelude.{◌≡◌, ℕ, ◌+◌, ◌-◌, ◌*◌, ◌/◌, ◌<◌, ◌≤◌, ◌⊎◌, length, slice_index};
ghost use Rattle.metric.specs.Edge.{shift};
ghost use Rattle.bits.specs.Cells.{IsBitmap, has};
ghost use Rattle.bits.specs.Edges.{framed};
ghost use Rattle.column.specs.Capped.{capped};
ghost use Rattle.column.specs.Columns.{IsRowOfTable};
ghost use Rattle.column.specs.Lines.{AreBandLines, AreLinesBehind, IsLineBefore, IsLineFrom};
ghost use Rattle.column.specs.Marks.{IsEntry, marked, nearer};

use crate::batch::Batch;
use crate::cap::mark_sides;
use crate::row::{mark_word, nearer};
use crate::sought::{seek_before, seek_from};
use bits::Bitmap;
use metric::{BAND_ROWS, Edge, LAST_FRAMED, WORD_BITS};

/// Rows per band.
pub const BAND: u16 = BAND_ROWS;

/// Writes, for each row of a band, the line of the obstacles below it, given the line below the
/// band. `line` is a buffer for a line.
pub fn fill_band(band: &Batch<'_>, behind: &[u16], line: &mut [u16], lines: &mut [u16])
    requires bitmap { IsBitmap band.now.bitmap.now }
    requires room { (band.now.y1 - band.now.y0) * band.now.bitmap.now.width ≤ length lines.old }
    requires behind { IsLineFrom (capped band.now.edge band.now.bitmap.now)
        (band.now.y1 + shift band.now.edge) behind.now }
    requires width { length line.old ≡ band.now.bitmap.now.width }
    ensures lines { AreLinesBehind band.now.bitmap.now band.now.edge band.now.y0 band.now.y0
        band.now.y1 lines.new }
{
    let width = band.width();
    line.copy_from_slice(behind);
    'rows: for y in (band.y0..band.y1).rev() {
        let start = usize::from(y - band.y0) * width;
        put_line(line, start, lines);
        mark_line(band.bitmap, band.edge, y, line);
    }
}

/// Finds the line of the obstacles before the batch, and writes, for each band of its rows, the
/// line of the obstacles below it. `line` is a buffer for a line.
pub fn seek_bands(batch: &Batch<'_>, before: &mut [u16], line: &mut [u16], bands: &mut [u16])
    requires bitmap { IsBitmap batch.now.bitmap.now }
    requires room { (batch.now.y1 - batch.now.y0 + 63) / 64 * batch.now.bitmap.now.width
        ≤ length bands.old }
    requires before { length before.old ≡ batch.now.bitmap.now.width }
    requires line { length line.old ≡ batch.now.bitmap.now.width }
    ensures before { IsLineBefore (capped batch.now.edge batch.now.bitmap.now)
        (batch.now.y0 + shift batch.now.edge) before.new }
    ensures bands { AreBandLines batch.now.bitmap.now batch.now.edge batch.now.y0 batch.now.y1 0
        bands.new }
{
    let (bitmap, edge) = (batch.bitmap, batch.edge);
    seek_before(bitmap, edge, batch.y0 + edge.shift(), before);
    seek_from(bitmap, edge, batch.y1 + edge.shift(), line);
    let width = batch.width();
    let count = (batch.y1 - batch.y0).div_ceil(BAND);
    'bands: for band in (0..count).rev() {
        let first = batch.y0 + band * BAND;
        let end = batch.y1.min(first + BAND);
        put_line(line, usize::from(band) * width, bands);
        carry_up(bitmap, edge, first, end, line);
    }
}

/// Carries the line of the obstacles from row `to` on up to row `from`.
fn carry_up(bitmap: &Bitmap, edge: Edge, from: u16, to: u16, line: &mut [u16])
    requires bitmap { IsBitmap bitmap.now }
    requires order { from ≤ to }
    requires within { to ≤ bitmap.now.height }
    requires line { IsLineFrom (capped edge bitmap.now) (to + shift edge) line.old }
    ensures { IsLineFrom (capped edge bitmap.now) (from + shift edge) line.new }
{
    'rows: for y in (from..to).rev() {
        mark_line(bitmap, edge, y, line);
    }
}

/// The entries of row `y`, including those of the frame, given the line before it and the line
/// below it. Carries the line before down past the row.
pub fn next_row(
    bitmap: &Bitmap,
    edge: Edge,
    y: u16,
    before: &mut [u16],
    behind: &[u16],
    entries: &mut [u16],
)
    requires bitmap { IsBitmap bitmap.now }
    requires row { y < bitmap.now.height }
    requires before { IsLineBefore (capped edge bitmap.now) (y + shift edge) before.old }
    requires behind { IsLineFrom (capped edge bitmap.now) (y + 1 + shift edge) behind.now }
    requires width { length entries.old ≡ bitmap.now.width + 2 * shift edge }
    ensures before { IsLineBefore (capped edge bitmap.now) (y + 1 + shift edge) before.new }
    ensures entries { IsRowOfTable (framed edge bitmap.now) (y + shift edge) entries.new }
{
    mark_line(bitmap, edge, y, before);
    let framed = y + edge.shift();
    let first = usize::from(edge.shift());
    let width = usize::from(bitmap.width());
    pick_line(framed, before, behind, &mut entries[first..first + width]);
    mark_sides(edge, framed, entries);
}

/// Writes row `y`, counted with the frame, into the entry of each of its obstacles.
fn mark_line(bitmap: &Bitmap, edge: Edge, y: u16, line: &mut [u16])
    requires bitmap { IsBitmap bitmap.now }
    requires row { y < bitmap.now.height }
    requires width { length line.old ≡ bitmap.now.width }
    ensures len { length line.new ≡ length line.old }
    ensures marked { (x : ℕ) → x < bitmap.now.width → slice_index line.new x
        ≡ marked (has (capped edge bitmap.now) x (y + shift edge)) (y + shift edge)
        (slice_index line.old x) }
{
    let row = bitmap.row_words(y);
    let framed = y + edge.shift();
    'words: for (index, word) in row.iter().enumerate() {
        let first = index * WORD_BITS;
        if *word != 0 && first < line.len() {
            mark_word(*word, framed, first, line);
        }
    }
}

/// Copies a line to index `start` of others.
pub fn put_line(line: &[u16], start: usize, lines: &mut [u16])
    requires { start + length line.now ≤ length lines.old }
    ensures len { length lines.new ≡ length lines.old }
    ensures copied { (x : ℕ) → x < length line.now → slice_index lines.new (start + x)
        ≡ slice_index line.now x }
    ensures others { (k : ℕ) → (k < start) ⊎ (start + length line.now ≤ k)
        → slice_index lines.new k ≡ slice_index lines.old k }
{
    lines[start..start + line.len()].copy_from_slice(line);
}

/// Takes for each column the nearer of two entries, seen from row `y`; the first one on a tie.
#[inline(never)]
fn pick_line(y: u16, above: &[u16], below: &[u16], entries: &mut [u16])
    requires row { y ≤ LAST_FRAMED }
    requires above { length above.now ≡ length entries.old }
    requires below { length below.now ≡ length entries.old }
    requires rows_above { (x : ℕ) → x < length entries.old → IsEntry (slice_index above.now x) }
    requires rows_below { (x : ℕ) → x < length entries.old → IsEntry (slice_index below.now x) }
    ensures len { length entries.new ≡ length entries.old }
    ensures nearer { (x : ℕ) → x < length entries.old → slice_index entries.new x
        ≡ nearer y (slice_index above.now x) (slice_index below.now x) }
{
    'columns: for x in 0..entries.len() {
        entries[x] = nearer(y, above[x], below[x]);
    }
}
