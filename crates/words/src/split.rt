//! Splits a line into words, which are separated by single blanks.

ghost use Rattle.std.specs.Prelude.{◌≡◌, ◌==◌, [], ◌∷◌, ◌<◌, ◌≤◌, ◌^◌, length, position};
ghost use Rattle.std.specs.Prelude.{MatchOption, IfSome};
ghost use Rattle.std.specs.Str.Lines.{strip_carriage_return};
ghost use Rattle.words.specs.Words.{words, words_left, bytes_left};

/// The index of the first blank.
fn first_blank(bytes: &[u8]) -> Option<usize>
    ensures { result ≡ position (λ byte. byte == 32) bytes.now }
{
    bytes.iter().position(|byte| *byte == b' ')
}

/// The first word of a line, and the bytes after its blank, if it has one.
pub fn split_word(bytes: &[u8]) -> (&[u8], Option<&[u8]>)
    ensures words { words bytes.now ≡ result.0.now ∷ words_left result.1 }
    ensures fewer { bytes_left result.1 ≤ length bytes.now }
{
    match first_blank(bytes) {
        Some(end) => (&bytes[..end], Some(&bytes[end + 1..])),
        None => (bytes, None),
    }
}

/// The first word of the rest of a line, and the rest after it.
pub fn next_word(rest: Option<&[u8]>) -> Option<(&[u8], Option<&[u8]>)>
    ensures words { MatchOption result (words_left rest.entry ≡ [])
        (λ found. words_left rest.entry ≡ found.0.now ∷ words_left found.1) }
    ensures fewer { IfSome result (λ found. bytes_left found.1 < bytes_left rest.entry) }
    ensures small { bytes_left rest.entry ≤ 2 ^ 64 }
{
    Some(split_word(rest?))
}

/// A line without the CR at its end, if it has one.
pub fn without_cr(line: &[u8]) -> &[u8]
    ensures { result.now ≡ strip_carriage_return line.now }
{
    if !line.is_empty() && line[line.len() - 1] == b'\r' {
        &line[..line.len() - 1]
    } else {
        line
    }
}
