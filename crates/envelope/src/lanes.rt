//! Vectors of eight 16-bit numbers: the lanes of the row phase without branches.

ghost use Rattle.std.specs.Prelude.{◌≡◌, ℕ, ◌+◌, ◌-◌, ◌<◌, ◌≤◌, ◌==◌, min, length, true};
ghost use Rattle.std.specs.Prelude.{slice_index, if◌then◌else◌};

use std::simd::prelude::*;

/// Eight numbers of a list, from index `at` on.
#[inline(always)]
pub fn load(numbers: &[u16], at: usize) -> u16x8
    requires { at + 8 ≤ length numbers.now }
    ensures { (i : ℕ) → i < 8 → slice_index result i ≡ slice_index numbers.now (at + i) }
{
    u16x8::from_slice(&numbers[at..])
}

/// One number eight times.
#[inline(always)]
pub fn all_of(number: u16) -> u16x8
    ensures { (i : ℕ) → i < 8 → slice_index result i ≡ number }
{
    u16x8::splat(number)
}

/// In each of eight lanes, the sum of two numbers.
#[inline(always)]
pub fn sum(a: u16x8, b: u16x8) -> u16x8
    requires { (i : ℕ) → i < 8 → slice_index a i + slice_index b i < 65536 }
    ensures { (i : ℕ) → i < 8 → slice_index result i ≡ slice_index a i + slice_index b i }
{
    a + b
}

/// In each of eight lanes, the difference of two numbers.
#[inline(always)]
pub fn difference(a: u16x8, b: u16x8) -> u16x8
    requires { (i : ℕ) → i < 8 → slice_index b i ≤ slice_index a i }
    ensures { (i : ℕ) → i < 8 → slice_index result i ≡ slice_index a i - slice_index b i }
{
    a - b
}

/// In each of eight lanes, the lesser of two numbers.
#[inline(always)]
pub fn least(a: u16x8, b: u16x8) -> u16x8
    ensures { (i : ℕ) → i < 8 → slice_index result i ≡ min (slice_index a i) (slice_index b i) }
{
    a.simd_min(b)
}

/// In each of eight lanes, the first number if `a` and `b` are equal, otherwise the second.
#[inline(always)]
pub fn chosen(a: u16x8, b: u16x8, equal: u16x8, other: u16x8) -> u16x8
    ensures { (i : ℕ) → i < 8
        → slice_index result i ≡ (if slice_index a i == slice_index b i then slice_index equal i
        else slice_index other i) }
{
    a.simd_eq(b).select(equal, other)
}

/// Whether all of eight numbers are below this one.
#[inline(always)]
pub fn are_below(numbers: u16x8, limit: u16) -> bool
    ensures { result ≡ true → (i : ℕ) → i < 8 → slice_index numbers i < limit }
{
    !numbers.simd_ge(u16x8::splat(limit)).any()
}
