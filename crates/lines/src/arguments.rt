//! The arguments of a line: a metric or a rectangle.

ghost use Rattle.std.specs.Prelude.{◌≡◌, Some, None, option_map, option_and_then, MatchOption};
ghost use Rattle.metric.specs.Kind.{metric_named};
ghost use Rattle.words.specs.Numbers.{first_of, pair, points};
ghost use Rattle.lines.specs.Corners.{corners_of, seen_corners};
ghost use Rattle.words.specs.Words.{words_left};

use metric::{MetricKind, Rect};
use words::{next_word, read_pair};

/// The metric that the next word names, and the rest of the line.
pub fn read_metric(rest: Option<&[u8]>) -> Option<(MetricKind, Option<&[u8]>)>
    ensures { MatchOption result (first_of metric_named (words_left rest.entry) ≡ None)
        (λ found. first_of metric_named (words_left rest.entry)
        ≡ Some (found.0, words_left found.1)) }
{
    let (word, rest) = next_word(rest)?;
    let metric = MetricKind::named(word)?;
    Some((metric, rest))
}

/// The rectangle whose two corners are the rest of a line.
pub fn read_rect(rest: Option<&[u8]>) -> Option<Rect>
    ensures { option_map seen_corners result ≡ option_and_then corners_of
        (pair (points (words_left rest.entry))) }
{
    let (first, second) = read_pair(rest)?;
    Rect::new(first.x, first.y, second.x, second.y)
}
