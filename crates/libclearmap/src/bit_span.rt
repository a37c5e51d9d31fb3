//! A span of a row's bits, written as one value.

ghost use Rattle.std.specs.Prelude.{◌≡◌, ◌⊎◌, ℕ, ◌+◌, ◌*◌, ◌<◌, ◌≤◌, cond, length, slice_index};
ghost use Rattle.std.specs.Int.{bit_at};

use bits::low_bits;
use metric::WORD_CELLS;

/// Writes this value to the bits `from` to `to - 1` of a row whose words begin at index `start`.
pub fn write_span(words: &mut [u64], start: usize, from: u16, to: u16, value: bool)
    requires some { from < to }
    requires room { start * 64 + to ≤ 64 * length words.old }
    requires few { to ≤ 4096 }
    ensures inside { (k i : ℕ) → i < 64 → from ≤ 64 * k + i → 64 * k + i < to
        → bit_at (slice_index words.new (start + k)) i ≡ cond value 1 0 }
    ensures outside { (k i : ℕ) → i < 64 → (64 * k + i < from) ⊎ (to ≤ 64 * k + i)
        → bit_at (slice_index words.new (start + k)) i
        ≡ bit_at (slice_index words.old (start + k)) i }
    ensures others { (k : ℕ) → (k < start) ⊎ (64 * start + to ≤ 64 * k)
        → slice_index words.new k ≡ slice_index words.old k }
    ensures len { length words.new ≡ length words.old }
{
    let (first, last) = (from / WORD_CELLS, (to - 1) / WORD_CELLS);
    'words: for index in first..last + 1 {
        let left = WORD_CELLS * index;
        let (low, high) = (from.saturating_sub(left), (to - left).min(WORD_CELLS));
        let place = start + usize::from(index);
        words[place] = with_ones(words[place], ones(low, high), value);
    }
}

/// The bits from `low` to `high - 1` of a word.
fn ones(low: u16, high: u16) -> u64
    requires { high ≤ 64 }
    ensures inside { (i : ℕ) → low ≤ i → i < high → bit_at result i ≡ 1 }
    ensures outside { (i : ℕ) → i < 64 → (i < low) ⊎ (high ≤ i) → bit_at result i ≡ 0 }
{
    let (below, left) = (low_bits(u64::MAX, high), low_bits(u64::MAX, low));
    below & !left
}

/// The word with this value at each bit of a mask.
fn with_ones(word: u64, mask: u64, value: bool) -> u64
    ensures inside { (i : ℕ) → i < 64 → bit_at mask i ≡ 1 → bit_at result i ≡ cond value 1 0 }
    ensures outside { (i : ℕ) → i < 64 → bit_at mask i ≡ 0 → bit_at result i ≡ bit_at word i }
{
    if value { word | mask } else { word & !mask }
}
