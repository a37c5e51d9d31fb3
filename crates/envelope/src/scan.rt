//! The row phase for distances that are the sum of columns and rows: one scan from each end finds
//! the nearest column on each side of a cell.
//!
//! For such a distance, the columns to the left of a cell come in the same order for every cell,
//! and so do those to the right. Each column has a word for either side: how far its obstacle is in
//! that order, and in the bits below it the column's number. The least word so far is that of the
//! nearest column, and of the left one of two equally near.

ghost use Rattle.std.specs.Prelude.{◌≡◌, ◌≢◌, ℕ, ◌+◌, ◌-◌, ◌*◌, ◌/◌, ◌%◌, ◌<◌, ◌≤◌, length, min};
ghost use Rattle.std.specs.Prelude.{slice_index, true};
ghost use Rattle.metric.specs.Distance.{IsSum};
ghost use Rattle.metric.specs.Edge.{shift};
ghost use Rattle.envelope.specs.Columns.{AreEntries, AreSaid};
ghost use Rattle.envelope.specs.Scans.{AreLeftLeast, AreRightLeast, AreToldBy, HasColumn, IsLeast};
ghost use Rattle.envelope.specs.Scans.{left_word, right_word, word_of};

use crate::answer::CellValue;
use crate::border::Border;
use crate::columns::near_at;
use column::NONE;
use metric::Metric;

/// The multiplier of the distance in a word, above all column numbers.
const COLUMNS: u32 = 8192;

/// The most columns of a row.
const MOST: u32 = 4098;

/// The word of a column without an obstacle.
const NO_WORD: u32 = u32::MAX;

/// An obstacle counts as far away if it is more than this many rows away: nearer ones are found
/// faster in vectors.
const FEW_ROWS: u16 = 3;

/// Where more than one column in this many has an obstacle that far away, two scans are the
/// fastest.
const SHARE: usize = 4;

/// Whether enough of the row's columns have an obstacle far away for two scans to be the fastest.
#[inline(never)]
pub fn are_many_far(entries: &[u16], y: u16) -> bool
    requires { length entries.now ≤ 4098 }
    ensures { result ≡ true → HasColumn entries.now }
{
    let mut count = 0u16;
    'columns: for column in 0..entries.len() {
        count += one_if_far(entries[column], y);
    }
    usize::from(count) * SHARE > entries.len()
}

/// 1 for a column with an obstacle far away, 0 for any other.
#[inline(always)]
fn one_if_far(entry: u16, y: u16) -> u16
    ensures few { result ≤ 1 }
    ensures some { 0 < result → entry ≢ 65535 }
{
    u16::from(entry != NONE && y.abs_diff(entry) > FEW_ROWS)
}

/// Fills the row with the obstacle of the column nearest to each cell. `left` and `right` have room
/// for one word per column.
pub fn fill_by_scans<M: Metric, A: CellValue, B: Border>(
    entries: &[u16],
    y: u16,
    left: &mut [u32],
    right: &mut [u32],
    answers: &mut [A],
)
    requires sum { IsSum M.distance }
    requires entries { AreEntries entries.now y }
    requires row { shift B.EDGE ≤ y }
    requires some { HasColumn entries.now }
    requires left { length entries.now ≤ length left.old }
    requires right { length entries.now ≤ length right.old }
    requires width { length answers.old + 2 * shift B.EDGE ≡ length entries.now }
    ensures { AreSaid A.says A.unset M.distance entries.now y B.EDGE answers.new }
{
    set_words(entries, y, left, right);
    scan(entries.len(), left, right);
    choose::<M>(entries, y, left, right);
    tell::<M, A, B>(entries, y, left, answers);
}

/// Sets the words of the row's columns.
#[inline(never)]
fn set_words(entries: &[u16], y: u16, left: &mut [u32], right: &mut [u32])
    requires few { length entries.now ≤ 4098 }
    requires left { length entries.now ≤ length left.old }
    requires right { length entries.now ≤ length right.old }
    ensures left { (column : ℕ) → column < length entries.now
        → slice_index left.new column ≡ left_word entries.now y column }
    ensures right { (column : ℕ) → column < length entries.now
        → slice_index right.new column ≡ right_word entries.now y column }
{
    'columns: for column in 0..entries.len() {
        let entry = entries[column];
        let (gap, number) = (u32::from(y.abs_diff(entry)), column as u32);
        left[column] = word(entry, gap + MOST - number, number);
        right[column] = word(entry, gap + number, number);
    }
}

/// The word of a column whose obstacle is this far.
#[inline(always)]
fn word(entry: u16, far: u32, column: u32) -> u32
    requires far { far ≤ 69633 }
    requires column { column ≤ 4098 }
    ensures { result ≡ word_of entry far column }
{
    if entry == NONE {
        NO_WORD
    } else {
        far * COLUMNS + column
    }
}

/// Replaces each word by the least so far, from the left in one list and from the right in the
/// other.
#[inline(never)]
fn scan(count: usize, left: &mut [u32], right: &mut [u32])
    requires left { count ≤ length left.old }
    requires right { count ≤ length right.old }
    ensures left { (x : ℕ) → x < count
        → IsLeast (λ place. slice_index left.old place) 0 (x + 1) (slice_index left.new x) }
    ensures right { (x : ℕ) → x < count
        → IsLeast (λ place. slice_index right.old place) x count (slice_index right.new x) }
{
    let (mut low, mut high) = (NO_WORD, NO_WORD);
    'places: for place in 0..count {
        low = low.min(left[place]);
        left[place] = low;
        let other = count - 1 - place;
        high = high.min(right[other]);
        right[other] = high;
    }
}

/// Replaces each word of `left` by a word of the nearest column.
#[inline(never)]
fn choose<M: Metric>(entries: &[u16], _y: u16, left: &mut [u32], right: &[u32])
    requires sum { IsSum M.distance }
    requires entries { AreEntries entries.now _y }
    requires some { HasColumn entries.now }
    requires left_room { length entries.now ≤ length left.old }
    requires right_room { length entries.now ≤ length right.now }
    requires left { AreLeftLeast entries.now _y left.old }
    requires right { AreRightLeast entries.now _y right.now }
    ensures { AreToldBy M.distance entries.now _y left.new }
{
    'cells: for x in 0..entries.len() {
        left[x] = nearer(left[x], right[x], x as u32);
    }
}

/// Of two words with their distances, that of the column nearer to the cell in column `x`; the left
/// one on a tie.
#[inline(always)]
fn nearer(left: u32, right: u32, x: u32) -> u32
    requires cell { x ≤ 4098 }
    requires left { 4098 ≤ left / 8192 + x }
    requires right { x ≤ right / 8192 }
    ensures far { result / 8192 + 4098 ≡ min (left / 8192 + x) (right / 8192 + 4098 - x) }
    ensures left { left / 8192 + x ≤ right / 8192 + 4098 - x → result % 8192 ≡ left % 8192 }
    ensures right { right / 8192 + 4098 - x < left / 8192 + x → result % 8192 ≡ right % 8192 }
{
    let (to_left, to_right) = (left / COLUMNS + x, right / COLUMNS + MOST - x);
    let word = if to_left <= to_right { left } else { right };
    (to_left.min(to_right) - MOST) * COLUMNS + word % COLUMNS
}

/// Fills the row with the obstacles that the words mean.
// Not inlined: the two phases would compete for registers.
#[inline(never)]
fn tell<M: Metric, A: CellValue, B: Border>(
    entries: &[u16],
    _y: u16,
    words: &[u32],
    answers: &mut [A],
)
    requires entries { AreEntries entries.now _y }
    requires row { shift B.EDGE ≤ _y }
    requires room { length entries.now ≤ length words.now }
    requires width { length answers.old + 2 * shift B.EDGE ≡ length entries.now }
    requires told { AreToldBy M.distance entries.now _y words.now }
    ensures { AreSaid A.says A.unset M.distance entries.now _y B.EDGE answers.new }
{
    let edge = B::EDGE;
    let before = usize::from(edge.shift());
    'cells: for x in 0..answers.len() {
        let word = words[x + before];
        let column = (word % COLUMNS) as usize;
        answers[x] = A::with(near_at(entries, edge, column, word / COLUMNS));
    }
}
