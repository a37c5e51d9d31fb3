//! Tiles as 64 words, one per row, filled in place.

ghost use Rattle.std.specs.Prelude.{◌≡◌, ℕ, ◌≤◌, ◌<◌, ◌&&◌, nat_le, nat_lt, cond};
ghost use Rattle.std.specs.Int.{bit_at};
ghost use Rattle.bits.specs.TileWords.{filled_word, filled_words, bits_changed, words_changed};
ghost use Rattle.bits.specs.TileWords.{words_differ, every};

use metric::Rect;

/// The words of a tile: word i is row i, and bit j of it is column j.
pub struct TileBits {}

impl TileBits {
    /// Sets each cell of the rectangle to this value, and returns how many cells changed.
    pub fn fill(words: &mut [u64; 64], rect: Rect, black: bool) -> u32
        requires columns { rect.x1 ≤ 64 }
        requires rows { rect.y1 ≤ 64 }
        ensures filled { words.new ≡ filled_words words.old rect.x0 rect.y0 rect.x1 rect.y1
            (every black) }
        ensures changed { result ≡ words_changed words.old words.new }
    {
        let (from, to) = (u32::from(rect.x0), u32::from(rect.x1));
        let mut changed = 0;
        'rows: for y in rect.y0..rect.y1 {
            let row = usize::from(y);
            let old = words[row];
            let new = filled(old, from, to, black);
            words[row] = new;
            changed += changes(old, new);
        }
        changed
    }

    /// Whether `fill` would change a cell.
    #[tactic(auto, using(crate::proofs::TileBitsLemmas::nothing_would_change))]
    pub fn would_change(words: &[u64; 64], rect: Rect, black: bool) -> bool
        requires columns { rect.x1 ≤ 64 }
        requires rows { rect.y1 ≤ 64 }
        ensures { result ≡ words_differ words.now
            (filled_words words.now rect.x0 rect.y0 rect.x1 rect.y1 (every black)) }
    {
        let (from, to) = (u32::from(rect.x0), u32::from(rect.x1));
        'rows: for y in rect.y0..rect.y1 {
            let old = words[usize::from(y)];
            if filled(old, from, to, black) != old {
                return true;
            }
        }
        false
    }
}

/// A word with 1 in columns `from` to `to - 1`.
#[tactic(auto, using(crate::proofs::TileBitsLemmas::columns_bits))]
pub fn columns(from: u32, to: u32) -> u64
    requires some { from < to }
    requires within { to ≤ 64 }
    ensures { (j : ℕ) → j < 64 → bit_at result j ≡ cond (nat_le from j && nat_lt j to) 1 0 }
{
    (u64::MAX << from) & (u64::MAX >> (64 - to))
}

/// Sets these columns of the word to one value.
fn filled(word: u64, from: u32, to: u32, black: bool) -> u64
    requires some { from < to }
    requires within { to ≤ 64 }
    ensures { result ≡ filled_word word from to (λ j. black) }
{
    let mask = columns(from, to);
    if black { word | mask } else { word & !mask }
}

/// The number of columns that differ.
#[tactic(auto, using(crate::proofs::TileBitsLemmas::columns_changed))]
pub fn changes(old: u64, new: u64) -> u32
    ensures changes { result ≡ bits_changed old new }
    ensures few { result ≤ 64 }
{
    (old ^ new).count_ones()
}
