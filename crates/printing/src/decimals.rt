//! Numbers in decimal, four digits per step, from a table.

ghost use Rattle.std.specs.Prelude.{◌≡◌, ◌+◌, ◌<◌, ◌≤◌, ◌∷◌, length, vec_len};
ghost use Rattle.std.specs.Fmt.{decimal};
ghost use Rattle.printing.specs.Putting.{AreQuads, AreSpaced, four_digits};

use crate::put::{put_byte, put_front};
use crate::quad::{Quad, quads, spaced};
use metric::NoMemory;
use std::alloc::Global;

/// The digits of all numbers below 10,000, ready to copy.
#[derive(Drop)]
pub struct Decimals {
    quads: Vec<Quad>,
    /// The same digits, each after a blank, to copy eight bytes at a time.
    spaced: Vec<[u8; 8]>,
    ghost all: { vec_len quads ≡ 10000 },
    ghost each: { AreQuads 10000 quads.items },
    ghost all_spaced: { vec_len spaced ≡ 10000 },
    ghost each_spaced: { AreSpaced 10000 spaced.items },
}

impl Decimals {
    ghost use Rattle.printing.specs.Putting.{Puts};

    /// Makes the digits of all numbers below 10,000.
    pub fn new(alloc: Global) -> Result<Self, NoMemory> {
        Ok(Decimals {
            quads: quads(alloc)?,
            spaced: spaced(alloc)?,
        })
    }

    /// Writes a blank and a number, and returns the index of the next byte. The text has room for
    /// thirteen bytes.
    #[inline(always)]
    pub fn put_behind_blank(&self, text: &mut [u8], at: usize, number: u32) -> usize
        requires { at + 13 ≤ length text.old }
        ensures { Puts text.old at (32 ∷ decimal number) text.new result }
    {
        if number < 10_000 {
            return self.put_spaced(text, at, number);
        }
        let high = number / 10_000;
        if high < 10_000 {
            let next = self.put_spaced(text, at, high);
            return self.put_padded(text, next, number % 10_000);
        }
        let next = put_byte(text, at, b' ');
        self.put(text, next, number)
    }

    /// Writes a number, and returns the index of the next byte. The text has room for twelve bytes.
    #[inline(always)]
    pub fn put(&self, text: &mut [u8], at: usize, number: u32) -> usize
        requires { at + 12 ≤ length text.old }
        ensures { Puts text.old at (decimal number) text.new result }
    {
        if number < 10_000 {
            return self.put_short(text, at, number);
        }
        let next = self.put_eight(text, at, number / 10_000);
        self.put_padded(text, next, number % 10_000)
    }

    /// Writes a number of at most eight digits. The text has room for eight bytes.
    #[inline(always)]
    pub fn put_eight(&self, text: &mut [u8], at: usize, number: u32) -> usize
        requires few { number < 100000000 }
        requires room { at + 8 ≤ length text.old }
        ensures { Puts text.old at (decimal number) text.new result }
    {
        if number < 10_000 {
            return self.put_short(text, at, number);
        }
        let next = self.put_short(text, at, number / 10_000);
        self.put_padded(text, next, number % 10_000)
    }

    /// Writes a slash and a number of at most four digits. The text has room for eight bytes.
    #[inline(always)]
    pub fn put_slashed(&self, text: &mut [u8], at: usize, number: u32) -> usize
        requires few { number < 10000 }
        requires room { at + 8 ≤ length text.old }
        ensures { Puts text.old at (47 ∷ decimal number) text.new result }
    {
        let end = self.put_spaced(text, at, number);
        text[at] = b'/';
        end
    }

    /// Writes a blank and a number of at most four digits. The text has room for eight bytes.
    #[inline(always)]
    pub fn put_spaced(&self, text: &mut [u8], at: usize, number: u32) -> usize
        requires few { number < 10000 }
        requires room { at + 8 ≤ length text.old }
        ensures { Puts text.old at (32 ∷ decimal number) text.new result }
    {
        let word = self.spaced[number as usize];
        put_front(text, at, word, usize::from(word[7]))
    }

    /// Writes a number of at most four digits. The text has room for four bytes.
    #[inline(always)]
    fn put_short(&self, text: &mut [u8], at: usize, number: u32) -> usize
        requires few { number < 10000 }
        requires room { at + 4 ≤ length text.old }
        ensures { Puts text.old at (decimal number) text.new result }
    {
        let quad = self.quads[number as usize];
        put_front(text, at, quad.short, usize::from(quad.count))
    }

    /// Writes a number of at most four digits, with leading zeros.
    #[inline(always)]
    fn put_padded(&self, text: &mut [u8], at: usize, number: u32) -> usize
        requires few { number < 10000 }
        requires room { at + 4 ≤ length text.old }
        ensures { Puts text.old at (four_digits number) text.new result }
    {
        let quad = self.quads[number as usize];
        put_front(text, at, quad.padded, 4)
    }
}
