//! Single bits of a word.

ghost use Rattle.std.specs.Prelude.{◌≡◌, ◌≢◌, ℕ, ◌<◌, ◌≤◌, IsTrue, ◌↔◌, cond};
ghost use Rattle.std.specs.Int.{bit_at};

use metric::WORD_BITS;

/// Whether bit `place` is 1.
#[inline(always)]
pub fn has_bit(word: u64, place: u16) -> bool
    requires { place < WORD_BITS }
    ensures { IsTrue result ↔ (bit_at word place ≡ 1) }
{
    (word >> place) & 1 == 1
}

/// Sets bit `place` of the word to this value.
pub fn with_bit(word: u64, place: u16, bit: bool) -> u64
    requires { place < WORD_BITS }
    ensures here { bit_at result place ≡ cond bit 1 0 }
    ensures others { (other : ℕ) → other < WORD_BITS → other ≢ place
        → bit_at result other ≡ bit_at word other }
{
    if bit {
        word | (1 << place)
    } else {
        word & !(1 << place)
    }
}

/// Clears bit `place` of the word.
pub fn without_bit(word: u64, place: u16) -> u64
    requires { place < WORD_BITS }
    ensures gone { bit_at result place ≡ 0 }
    ensures kept { (i : ℕ) → i < WORD_BITS → i ≢ place → bit_at result i ≡ bit_at word i }
{
    word & !(1 << place)
}

/// Clears the bits of the word from bit `count` on; none if `count` is 64 or more.
#[inline(always)]
pub fn low_bits(word: u64, count: u16) -> u64
    ensures kept { (i : ℕ) → i < count → i < WORD_BITS → bit_at result i ≡ bit_at word i }
    ensures cleared { (i : ℕ) → count ≤ i → i < WORD_BITS → bit_at result i ≡ 0 }
{
    if count < 64 {
        word & ((1 << count) - 1)
    } else {
        word
    }
}
