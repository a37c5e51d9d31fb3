//! A map in the caller's bytes, read in place.

ghost use Rattle.std.specs.Prelude.{◌≡◌, ◌≢◌, ◌≤◌, ◌<◌, ℕ, IfErr, IfOk, cond, length, nat_le};
ghost use Rattle.std.specs.Prelude.{slice_index, slice_index_or};
ghost use Rattle.std.specs.Int.{bit_at};
ghost use Rattle.bits.specs.Tiles.{word_where};
ghost use Rattle.libclearmap.specs.Layouts.{IsShape, is_obstacle_byte};
ghost use Rattle.libclearmap.specs.Statuses.{bytes_status};

use crate::layout::ClearmapBytes;
use crate::status::{DONE, check_shape};
use clearance::Rows;
use std::simd::prelude::*;

/// Bytes compared in one vector.
const LANES: usize = 64;

/// A map laid out as `map` in these bytes.
#[derive(Drop)]
pub struct ByteMap<'a> {
    pub bytes: &'a [u8],
    pub map: ClearmapBytes,
    ghost shape: { IsShape map.width map.height map.width map.stride (length bytes.now) },
}

impl<'a> ByteMap<'a> {
    /// Returns the map in these bytes, or the status of what is wrong with it.
    pub fn of(bytes: &'a [u8], map: &ClearmapBytes) -> Result<Self, u32>
        ensures map { IfOk result (λ rows. rows.map ≡ map.now) }
        ensures bytes { IfOk result (λ rows. rows.bytes.now ≡ bytes.entry.now) }
        ensures right { IfOk result (λ _. bytes_status map.now bytes.entry.now ≡ DONE) }
        ensures wrong { IfErr result (λ status. status ≡ bytes_status map.now bytes.entry.now) }
        ensures some { IfErr result (λ status. status ≢ DONE) }
    {
        let map = *map;
        let across = map.width as usize;
        check_shape(map.width, map.height, across, map.stride, bytes.len())?;
        Ok(ByteMap { bytes, map })
    }
}

#[tactic(auto, using(crate::proofs::LayoutLemmas::maps))]
impl<'a> Rows for ByteMap<'a> {
    ghost use Rattle.libclearmap.specs.Layouts.{cells_of_bytes};

    ghost cells = { λ rows. cells_of_bytes rows.map rows.bytes.now };

    fn width(&self) -> u16 {
        self.map.width as u16
    }

    fn height(&self) -> u16 {
        self.map.height as u16
    }

    fn across(&self) -> usize {
        (self.map.width as usize).div_ceil(64)
    }

    fn word(&mut self, y: u16, index: usize) -> u64 {
        let left = 64 * index;
        let start = usize::from(y) * self.map.stride + left;
        let count = (self.map.width as usize - left).min(64);
        word_of(
            &self.bytes[start..start + count],
            self.map.low,
            self.map.high,
        )
    }

    /// No band is known to be blank.
    fn bands(&self) -> u64 {
        u64::MAX
    }
}

/// The bits of up to 64 cells, lowest first.
#[tactic(auto, unfolding(bits::specs::Tiles::word_where))]
fn word_of(bytes: &[u8], low: u8, high: u8) -> u64
    requires { length bytes.now ≤ 64 }
    ensures { result ≡ word_where (λ i. is_obstacle_byte low high (slice_index bytes.now i))
        (length bytes.now) }
{
    if bytes.len() == LANES {
        return whole_word(bytes, low, high);
    }
    let mut word = 0;
    'bytes: for i in 0..bytes.len() {
        if is_obstacle(bytes[i], low, high) {
            word += 1 << i;
        }
    }
    word
}

/// The bits of 64 cells, compared as one vector.
fn whole_word(bytes: &[u8], low: u8, high: u8) -> u64
    requires { length bytes.now ≡ 64 }
    ensures { result ≡ word_where (λ i. is_obstacle_byte low high (slice_index bytes.now i))
        (length bytes.now) }
{
    let block = u8x64::from_slice(bytes);
    at_least(block, low) & at_most(block, high)
}

/// One bit per byte of a block: 1 where the byte is at least `byte`.
#[inline(always)]
fn at_least(block: u8x64, byte: u8) -> u64
    ensures { (k : ℕ) → k < 64 → bit_at result k ≡ cond (nat_le byte (slice_index_or block k 0)) 1
        0 }
{
    block.simd_ge(u8x64::splat(byte)).to_bitmask()
}

/// One bit per byte of a block: 1 where the byte is at most `byte`.
#[inline(always)]
fn at_most(block: u8x64, byte: u8) -> u64
    ensures { (k : ℕ) → k < 64 → bit_at result k ≡ cond (nat_le (slice_index_or block k 0) byte) 1
        0 }
{
    block.simd_le(u8x64::splat(byte)).to_bitmask()
}

/// Whether a byte marks an obstacle.
#[inline(always)]
fn is_obstacle(byte: u8, low: u8, high: u8) -> bool
    ensures { result ≡ is_obstacle_byte low high byte }
{
    low <= byte && byte <= high
}
