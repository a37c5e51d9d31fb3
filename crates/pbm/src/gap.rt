//! The gaps between the parts of an image.

ghost use Rattle.std.specs.Prelude.{◌≡◌, false, Ok, Err, MatchResult};
ghost use Rattle.pbm.specs.Faults.{filling, gap, space};
ghost use Rattle.pbm.specs.Image.{is_line_end, is_whitespace};

use metric::PbmFault;

/// Whether the byte is whitespace: TAB, LF, CR or a blank.
pub fn is_whitespace(byte: u8) -> bool
    ensures { result ≡ is_whitespace byte }
{
    matches!(byte, b'\t' | b'\n' | b'\r' | b' ')
}

/// Whether the byte ends a line: LF or CR.
fn is_line_end(byte: u8) -> bool
    ensures { result ≡ is_line_end byte }
{
    matches!(byte, b'\n' | b'\r')
}

/// The bytes after one whitespace byte.
pub fn after_space(bytes: &[u8]) -> Result<&[u8], PbmFault>
    ensures { MatchResult result (λ rest. space bytes.now ≡ Ok rest.now)
        (λ fault. space bytes.now ≡ Err fault) }
{
    match bytes.split_first() {
        None => Err(PbmFault::Truncated),
        Some((byte, rest)) if is_whitespace(*byte) => Ok(rest),
        Some((b'#', _)) => Err(PbmFault::BadComment),
        Some(_) => Err(PbmFault::MissingSpace),
    }
}

/// The bytes after the rest of a gap, its comments included.
#[tactic(auto, unfolding(crate::specs::Faults::filling))]
pub fn after_filling(bytes: &[u8]) -> Result<&[u8], PbmFault>
    ensures { MatchResult result (λ rest. filling false bytes.now ≡ Ok rest.now)
        (λ fault. filling false bytes.now ≡ Err fault) }
{
    let mut in_comment = false;
    let mut rest = bytes;
    'filling: while let Some((byte, others)) = rest.split_first() {
        if in_comment {
            in_comment = !is_line_end(*byte);
        } else if *byte == b'#' {
            in_comment = true;
        } else if !is_whitespace(*byte) {
            return Ok(rest);
        }
        rest = others;
    }
    Err(PbmFault::Truncated)
}

/// The bytes after a gap.
#[tactic(auto, unfolding(crate::specs::Faults::gap))]
pub fn after_gap(bytes: &[u8]) -> Result<&[u8], PbmFault>
    ensures { MatchResult result (λ rest. gap bytes.now ≡ Ok rest.now)
        (λ fault. gap bytes.now ≡ Err fault) }
{
    let rest = after_space(bytes)?;
    after_filling(rest)
}
