//! The raster of a raw image: one bit per pixel, rows from the top, each in whole bytes.

ghost use Rattle.std.specs.Prelude.{◌≡◌, ℕ, ◌+◌, ◌*◌, ◌-◌, ◌/◌, ◌%◌, ◌<◌, ◌≤◌, false, length};
ghost use Rattle.std.specs.Prelude.{slice_index, Ok, Err, IfOk, IfErr};
ghost use Rattle.std.specs.Int.{bit_at, reverse_bits_onto};
ghost use Rattle.bits.specs.Cells.{cells_where};
ghost use Rattle.pbm.specs.Faults.{raw_raster};
ghost use Rattle.pbm.specs.Image.{bytes_across};

use crate::raw_row::MOST_ACROSS;
use bits::Bitmap;
use metric::PbmFault;

/// Pixels per byte.
pub const BYTE_PIXELS: u16 = 8;

/// Pixels per word.
pub const WORD_PIXELS: u16 = 64;

/// The bytes that a row of this many pixels takes.
pub fn bytes_across(width: u16) -> u16
    requires { width < 65529 }
    ensures { result ≡ bytes_across width }
{
    width.div_ceil(BYTE_PIXELS)
}

/// Reverses the bits of each byte: its lowest bit is then its leftmost pixel.
///
/// The compiler reverses sixteen bytes of this loop side by side; reversing a whole word is a loop
/// over its bits.
#[inline(always)]
fn reverse_each(bytes: &[u8], reversed: &mut [u8])
    requires { length bytes.now ≤ length reversed.old }
    ensures len { length reversed.new ≡ length reversed.old }
    ensures each { (k : ℕ) → k < length bytes.now → slice_index reversed.new k
        ≡ reverse_bits_onto 8 (slice_index bytes.now k) 0 }
{
    'bytes: for place in 0..bytes.len() {
        reversed[place] = bytes[place].reverse_bits();
    }
}

/// The word of the eight bytes from `start` on: the first is the lowest.
#[inline(always)]
fn word_at(bytes: &[u8], start: usize) -> u64
    requires { start + 8 ≤ length bytes.now }
    ensures { (i : ℕ) → i < 64
        → bit_at result i ≡ bit_at (slice_index bytes.now (start + i / 8)) (i % 8) }
{
    u64::from_le_bytes([
        bytes[start],
        bytes[start + 1],
        bytes[start + 2],
        bytes[start + 3],
        bytes[start + 4],
        bytes[start + 5],
        bytes[start + 6],
        bytes[start + 7],
    ])
}

/// Reads a row of `across` bytes from `start` on, as words. Uses `reversed` as a scratch buffer.
#[inline(always)]
pub fn read_row(
    raster: &[u8],
    start: usize,
    across: usize,
    reversed: &mut [u8; MOST_ACROSS],
    words: &mut [u64; 64],
)
    requires few { across ≤ 512 }
    requires within { start + across ≤ length raster.now }
    ensures { (k : ℕ) → k < 64 → (i : ℕ) → i < 64 → 8 * k + i / 8 < across
        → bit_at (slice_index words.new k) i ≡ bit_at
        (slice_index raster.now (start + 8 * k + i / 8)) (7 - i % 8) }
{
    reverse_each(&raster[start..start + across], reversed);
    'words: for index in 0..across.div_ceil(8) {
        words[index] = word_at(reversed, 8 * index);
    }
}

/// Reads a raw raster into a blank bitmap, and returns the bytes after it. On a fault, nothing has
/// been read.
#[tactic(auto, unfolding(crate::specs::Faults::raw_raster))]
pub fn read_raw<'a>(bitmap: &mut Bitmap, bytes: &'a [u8]) -> Result<&'a [u8], PbmFault>
    requires { bitmap.old ≡ cells_where bitmap.old.width bitmap.old.height (λ x y. false) }
    ensures raster { IfOk result (λ rest. raw_raster bitmap.old.width bitmap.old.height bytes.now
        ≡ Ok (bitmap.new, rest.now)) }
    ensures fault { IfErr result (λ fault. raw_raster bitmap.old.width bitmap.old.height bytes.now
        ≡ Err fault) }
    ensures as_before { IfErr result (λ fault. bitmap.new ≡ bitmap.old) }
{
    let height = bitmap.height();
    let across = usize::from(bytes_across(bitmap.width()));
    let needed = usize::from(height) * across;
    if bytes.len() < needed {
        return Err(PbmFault::Truncated);
    }
    let (raster, rest) = bytes.split_at(needed);
    let mut reversed = [0; MOST_ACROSS];
    let mut words = [0; 64];
    'rows: for y in 0..height {
        let start = usize::from(y) * across;
        read_row(raster, start, across, &mut reversed, &mut words);
        bitmap.set_row(y, &words);
    }
    Ok(rest)
}
