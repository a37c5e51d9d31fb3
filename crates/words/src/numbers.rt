//! Numbers in the rest of a line.

ghost use Rattle.std.specs.Prelude.{◌≡◌};
ghost use Rattle.words.specs.Numbers.{number_pair, number_triple, numbers, only_number};
ghost use Rattle.words.specs.Words.{words_left};

use crate::front::next_number;

/// The number that is the whole rest of a line.
#[tactic(auto, using(crate::proofs::Numbering::is_only), unfolding(crate::specs::Numbers::numbers))]
pub fn only_number(rest: Option<&[u8]>) -> Option<u32>
    ensures { result ≡ only_number (numbers (words_left rest.entry)) }
{
    let (number, rest) = next_number(rest)?;
    rest.is_none().then_some(number)
}

/// The two numbers that are the whole rest of a line.
#[tactic(auto, unfolding(crate::specs::Numbers::numbers))]
pub fn number_pair(rest: Option<&[u8]>) -> Option<(u32, u32)>
    ensures { result ≡ number_pair (numbers (words_left rest.entry)) }
{
    let (first, rest) = next_number(rest)?;
    let second = only_number(rest)?;
    Some((first, second))
}

/// The three numbers that are the whole rest of a line.
#[tactic(auto, unfolding(crate::specs::Numbers::numbers))]
pub fn number_triple(rest: Option<&[u8]>) -> Option<(u32, u32, u32)>
    ensures { result ≡ number_triple (numbers (words_left rest.entry)) }
{
    let (first, rest) = next_number(rest)?;
    let (second, third) = number_pair(rest)?;
    Some((first, second, third))
}
