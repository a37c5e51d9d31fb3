//! The lines of a text.

ghost use Rattle.std.specs.Prelude.{◌≡◌, ◌==◌, ◌∷◌, ◌<◌, [], length, position, IfSome, MatchOption};
ghost use Rattle.words.specs.TextLines.{lines_of};

use crate::split::without_cr;

/// The first line of a text, and what follows its LF; none if no LF is left.
pub fn split_line(text: &[u8]) -> Option<(&[u8], &[u8])>
    ensures lines { MatchOption result (lines_of text.now ≡ [])
        (λ found. lines_of text.now ≡ found.0.now ∷ lines_of found.1.now) }
    ensures fewer { IfSome result (λ found. length found.1.now < length text.now) }
{
    let end = first_end(text)?;
    Some((without_cr(&text[..end]), &text[end + 1..]))
}

/// The index of the first LF.
fn first_end(text: &[u8]) -> Option<usize>
    ensures { result ≡ position (λ byte. byte == 10) text.now }
{
    text.iter().position(|byte| *byte == b'\n')
}
