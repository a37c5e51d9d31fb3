//! Numbers in decimal.

ghost use Rattle.std.specs.Prelude.{◌≡◌, ◌+◌, ◌≤◌, ◌++◌, ◌<◌, length, vec_len, vec_capacity};
ghost use Rattle.std.specs.Fmt.{decimal};
ghost use Rattle.metric.specs.Digits.{two_digits};

/// Appends a number in decimal, without leading zeros. The buffer has capacity for its digits, at
/// most ten.
pub fn push_decimal(buffer: &mut Vec<u8>, number: u32)
    requires { vec_len buffer.old + length (decimal number) ≤ vec_capacity buffer.old }
    ensures text { buffer.new.items ≡ buffer.old.items ++ decimal number }
    ensures length { vec_len buffer.new ≡ vec_len buffer.old + length (decimal number) }
    ensures room { vec_capacity buffer.new ≡ vec_capacity buffer.old }
{
    if number < 10_000 {
        push_short(buffer, number);
        return;
    }
    push_decimal(buffer, number / 10_000);
    push_two(buffer, number % 10_000 / 100);
    push_two(buffer, number % 100);
}

/// Appends a number of at most four digits.
#[inline(always)]
fn push_short(buffer: &mut Vec<u8>, number: u32)
    requires short { number < 10000 }
    requires space { vec_len buffer.old + length (decimal number) ≤ vec_capacity buffer.old }
    ensures text { buffer.new.items ≡ buffer.old.items ++ decimal number }
    ensures length { vec_len buffer.new ≡ vec_len buffer.old + length (decimal number) }
    ensures room { vec_capacity buffer.new ≡ vec_capacity buffer.old }
{
    if number < 100 {
        push_one_or_two(buffer, number);
        return;
    }
    push_one_or_two(buffer, number / 100);
    push_two(buffer, number % 100);
}

/// Appends a number of one or two digits.
#[inline(always)]
fn push_one_or_two(buffer: &mut Vec<u8>, number: u32)
    requires short { number < 100 }
    requires space { vec_len buffer.old + length (decimal number) ≤ vec_capacity buffer.old }
    ensures text { buffer.new.items ≡ buffer.old.items ++ decimal number }
    ensures length { vec_len buffer.new ≡ vec_len buffer.old + length (decimal number) }
    ensures room { vec_capacity buffer.new ≡ vec_capacity buffer.old }
{
    if number < 10 {
        buffer.push_reserved(b'0' + number as u8);
        return;
    }
    push_two(buffer, number);
}

/// Appends the two digits of a number below 100, a leading zero included.
#[inline(always)]
fn push_two(buffer: &mut Vec<u8>, number: u32)
    requires short { number < 100 }
    requires space { vec_len buffer.old + 2 ≤ vec_capacity buffer.old }
    ensures text { buffer.new.items ≡ buffer.old.items ++ two_digits number }
    ensures length { vec_len buffer.new ≡ vec_len buffer.old + 2 }
    ensures room { vec_capacity buffer.new ≡ vec_capacity buffer.old }
{
    buffer.push_reserved(b'0' + (number / 10) as u8);
    buffer.push_reserved(b'0' + (number % 10) as u8);
}
