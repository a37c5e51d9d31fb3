//! Distances in two halves of 16 bits each.

ghost use Rattle.std.specs.Prelude.{◌≡◌, ℕ, ◌+◌, ◌*◌, ◌<◌, ◌≤◌, length, map, slice_index};
ghost use Rattle.field.specs.Compact.{high_half, kept_as, low_half, number_of};

/// The least number that needs a high half.
pub const HALF: u32 = 1 << 16;

/// Writes the low halves of a line's distances. Returns a number that none of what they are kept as
/// exceeds: below `HALF` exactly if no high half is other than 0.
#[inline(never)]
pub fn put_low(line: &[u32], low: &mut [u16]) -> u32
    requires { length low.old ≡ length line.now }
    ensures low { low.new ≡ map low_half line.now }
    ensures most { (x : ℕ) → x < length line.now → kept_as (slice_index line.now x) ≤ result }
{
    let mut all = 0;
    'cells: for x in 0..line.len() {
        let kept = line[x].wrapping_add(1);
        all |= kept;
        low[x] = (kept % HALF) as u16;
    }
    all
}

/// Writes the high halves of a line's distances.
#[inline(never)]
pub fn put_high(line: &[u32], high: &mut [u16])
    requires { length high.old ≡ length line.now }
    ensures { high.new ≡ map high_half line.now }
{
    'cells: for x in 0..line.len() {
        let kept = line[x].wrapping_add(1);
        high[x] = (kept / HALF) as u16;
    }
}

/// Writes the distances of these halves.
#[inline(never)]
pub fn put_numbers(low: &[u16], high: &[u16], numbers: &mut [u32])
    requires low { length low.now ≡ length numbers.old }
    requires high { length high.now ≡ length numbers.old }
    ensures len { length numbers.new ≡ length numbers.old }
    ensures each { (x : ℕ) → x < length numbers.old → slice_index numbers.new x
        ≡ number_of (65536 * slice_index high.now x + slice_index low.now x) }
{
    'cells: for x in 0..numbers.len() {
        let kept = u32::from(high[x]) * HALF + u32::from(low[x]);
        numbers[x] = kept.wrapping_sub(1);
    }
}
