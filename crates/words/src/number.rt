//! Numbers in a line.

ghost use Rattle.std.specs.Prelude.{◌≡◌};
ghost use Rattle.words.specs.Numbers.{number};

/// The most digits of a number.
const MOST_DIGITS: usize = 10;

/// The number that a word spells: 1 to 10 digits, of a value that fits 32 bits.
#[tactic(auto, unfolding(crate::specs::Numbers::number, metric::specs::Digits::value_from))]
pub fn read_number(word: &[u8]) -> Option<u32>
    ensures { result ≡ number word.now }
{
    if word.is_empty() || word.len() > MOST_DIGITS {
        return None;
    }
    let mut value = 0u64;
    'digits: for digit in word {
        if !digit.is_ascii_digit() {
            return None;
        }
        value = 10 * value + u64::from(*digit - b'0');
    }
    u32::try_from(value).ok()
}
