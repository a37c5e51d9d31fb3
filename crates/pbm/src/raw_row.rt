//! The bytes of one row of a raw raster, from the words of a bitmap.

ghost use Rattle.std.specs.Prelude.{◌≡◌, ℕ, ◌+◌, ◌*◌, ◌-◌, ◌/◌, ◌%◌, ◌<◌, ◌≤◌, length, slice_index};
ghost use Rattle.std.specs.Int.{bit_at};

/// The most bytes that a row takes.
pub const MOST_ACROSS: usize = 512;

/// Eight pixels as a byte: the lowest of the eight bits is the leftmost pixel, the most significant
/// bit of the byte.
#[inline(always)]
fn byte_of(eight: u64) -> u8
    requires { eight < 256 }
    ensures { (i : ℕ) → i < 8 → bit_at result i ≡ bit_at eight (7 - i) }
{
    (eight as u8).reverse_bits()
}

/// Writes the eight bytes of a word's pixels from index `first` on.
#[inline(always)]
fn put_word(word: u64, first: usize, row: &mut [u8])
    requires { first + 8 ≤ length row.old }
    ensures len { length row.new ≡ length row.old }
    ensures bits { (k : ℕ) → k < 8 → (i : ℕ) → i < 8
        → bit_at (slice_index row.new (first + k)) i ≡ bit_at word (8 * k + (7 - i)) }
    ensures others { (x : ℕ) → x < first → slice_index row.new x ≡ slice_index row.old x }
{
    let bytes = [
        byte_of(word & 0xff),
        byte_of((word >> 8) & 0xff),
        byte_of((word >> 16) & 0xff),
        byte_of((word >> 24) & 0xff),
        byte_of((word >> 32) & 0xff),
        byte_of((word >> 40) & 0xff),
        byte_of((word >> 48) & 0xff),
        byte_of((word >> 56) & 0xff),
    ];
    row[first..first + 8].copy_from_slice(&bytes);
}

/// Writes the bytes of a row's pixels to the front of `row`, eight per word.
pub fn put_row(words: &[u64], row: &mut [u8])
    requires { 8 * length words.now ≤ length row.old }
    ensures len { length row.new ≡ length row.old }
    ensures bits { (k : ℕ) → k < 8 * length words.now → (i : ℕ) → i < 8
        → bit_at (slice_index row.new k) i ≡ bit_at (slice_index words.now (k / 8))
        (8 * (k % 8) + (7 - i)) }
{
    'words: for index in 0..words.len() {
        put_word(words[index], 8 * index, row);
    }
}
