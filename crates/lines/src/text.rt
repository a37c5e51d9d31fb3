//! Texts of a fixed capacity.

ghost use Rattle.std.specs.Prelude.{◌≡◌, ◌<◌, ◌≤◌, ◌+◌, ◌++◌, [], length, false, IfOk};
ghost use Rattle.std.specs.Fmt.{decimal, digit_glyph, signed_decimal};
ghost use Rattle.lines.specs.Hex.{hex_digits};

use metric::{NoMemory, push_decimal};
use std::alloc::Global;
use std::marker::Model;

/// A text of at most 128 bytes, whose capacity is allocated once.
#[derive(Drop)]
pub struct Text {
    bytes: Vec<u8>,
}

impl Model for Text {
    ghost use Rattle.std.specs.Prelude.{ℕ, List, ◌≤◌, vec_capacity};

    ghost Value = { List ℕ };

    ghost view = { λ text. text.bytes.items };

    ghost invariant = { λ text. 128 ≤ vec_capacity text.bytes };
}

impl Text {
    /// An empty text, with its full capacity.
    pub fn new(alloc: Global) -> Result<Self, NoMemory>
        ensures { IfOk result (λ text. text ≡ []) }
    {
        let bytes = Vec::with_capacity(alloc, 128)?;
        Ok(Text { bytes })
    }

    /// The bytes of the text.
    pub fn as_bytes(&self) -> &[u8]
        ensures { result.now ≡ self.now }
    {
        self.bytes.as_slice()
    }

    /// Removes all bytes.
    pub fn clear(&mut self)
        ensures { self.new ≡ [] }
    {
        self.bytes.clear();
    }

    /// Appends these bytes. The text has capacity for them.
    pub fn put(&mut self, added: &[u8])
        requires { length self.old + length added.now ≤ 128 }
        ensures { self.new ≡ self.old ++ added.now }
    {
        let _ = self.bytes.extend_from_slice(added);
    }

    /// Appends a number in decimal. Requires capacity for ten digits, the most it can have.
    pub fn put_number(&mut self, number: u32)
        requires { length self.old + 10 ≤ 128 }
        ensures text { self.new ≡ self.old ++ decimal number }
        ensures few { length self.new ≤ length self.old + 10 }
    {
        push_decimal(&mut self.bytes, number);
    }

    /// Appends a signed number in decimal. Requires capacity for `-` and ten digits, more than it
    /// can have.
    pub fn put_signed(&mut self, number: i16)
        requires { length self.old + 11 ≤ 128 }
        ensures text { self.new ≡ self.old ++ signed_decimal number }
        ensures few { length self.new ≤ length self.old + 11 }
    {
        if number < 0 {
            self.put(b"-");
        }
        self.put_number(u32::from(number.unsigned_abs()));
    }

    /// Appends a 64-bit number in decimal. Requires capacity for twenty digits, the most it can
    /// have.
    pub fn put_long(&mut self, number: u64)
        requires { length self.old + 20 ≤ 128 }
        ensures text { self.new ≡ self.old ++ decimal number }
        ensures few { length self.new ≤ length self.old + 20 }
    {
        if let Ok(number) = u32::try_from(number) {
            self.put_number(number);
            return;
        }
        self.put_long(number / 10);
        self.put(&[b'0' + (number % 10) as u8]);
    }

    /// Appends the last `count` hexadecimal digits of a word, in lower case.
    pub fn put_hex(&mut self, count: u32, word: u64)
        requires { length self.old + count ≤ 128 }
        ensures text { self.new ≡ self.old ++ hex_digits count word }
        ensures few { length self.new ≤ length self.old + count }
    {
        if count == 0 {
            return;
        }
        self.put_hex(count - 1, word / 16);
        self.put(&[hex_digit((word % 16) as u8)]);
    }
}

/// The lower-case digit of this value, which is below 16.
fn hex_digit(value: u8) -> u8
    requires { value < 16 }
    ensures { result ≡ digit_glyph false value }
{
    if value < 10 {
        b'0' + value
    } else {
        b'a' + (value - 10)
    }
}
