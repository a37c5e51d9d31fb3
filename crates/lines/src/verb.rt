//! The names of the fifteen commands of a line.

ghost use Rattle.std.specs.Prelude.{◌≡◌, None, Some, Err, MatchOption};
ghost use Rattle.metric.specs.declared.refusal.Refusal.TheVariants.{UnknownCommand};
ghost use Rattle.lines.specs.Told.{order_named};
ghost use Rattle.lines.specs.Asked.{query_named};
ghost use Rattle.lines.specs.Said.{bare_named, said, verb_in, verb_named, verb_said};
ghost use Rattle.words.specs.Words.{words_left};

use words::split_word;

/// The command of a line, by its name only.
#[derive(Clone, Copy, Debug, PartialEq, Eq)]
pub enum Verb {
    /// A command to the keeper of the map, with no bytes after its line.
    Order(CommandName),
    /// A query on the pinned version.
    Ask(QueryKind),
    /// A command to the keeper of the map, with the bytes of an image after its line.
    Stamp,
    Pin,
    Unpin,
    Dump,
    Quit,
}

/// A command to the keeper of the map, by its name only.
#[derive(Clone, Copy, Debug, PartialEq, Eq)]
pub enum CommandName {
    Paint,
    Clear,
    Publish,
    Revert,
    Collect,
    Checkpoint,
}

/// A query, by its name only.
#[derive(Clone, Copy, Debug, PartialEq, Eq)]
pub enum QueryKind {
    At,
    Rect,
    Path,
    ClearOf,
}

/// The command that a line names, whatever follows it; none where its first word is none of the
/// fifteen.
#[tactic(auto, unfolding(crate::specs::Said::verb_in))]
pub fn verb_of(bytes: &[u8]) -> Option<Verb>
    ensures { result ≡ verb_in bytes.now }
{
    let (word, _) = split_word(bytes);
    verb_named(word)
}

/// The command that a line names, with the bytes after the blank that follows its name, if any;
/// none where its first word is none of the fifteen.
#[tactic(auto, unfolding(crate::specs::Said::said, crate::specs::Said::verb_in))]
pub fn split_verb(bytes: &[u8]) -> Option<(Verb, Option<&[u8]>)>
    ensures verb { MatchOption result (verb_in bytes.now ≡ None)
        (λ found. verb_in bytes.now ≡ Some found.0) }
    ensures said { MatchOption result (said bytes.now ≡ Err UnknownCommand)
        (λ found. said bytes.now ≡ verb_said found.0 (words_left found.1)) }
{
    let (word, rest) = split_word(bytes);
    let verb = verb_named(word)?;
    Some((verb, rest))
}

/// The command of this name.
pub fn verb_named(word: &[u8]) -> Option<Verb>
    ensures { result ≡ verb_named word.now }
{
    if let Some(order) = order_named(word) {
        return Some(Verb::Order(order));
    }
    if let Some(kind) = query_named(word) {
        return Some(Verb::Ask(kind));
    }
    bare_named(word)
}

/// The command of this name that is neither an order nor a query.
fn bare_named(word: &[u8]) -> Option<Verb>
    ensures { result ≡ bare_named word.now }
{
    if word == b"STAMP".as_slice() {
        Some(Verb::Stamp)
    } else if word == b"PIN".as_slice() {
        Some(Verb::Pin)
    } else if word == b"UNPIN".as_slice() {
        Some(Verb::Unpin)
    } else if word == b"DUMP".as_slice() {
        Some(Verb::Dump)
    } else if word == b"QUIT".as_slice() {
        Some(Verb::Quit)
    } else {
        None
    }
}

/// The keeper's command of this name.
fn order_named(word: &[u8]) -> Option<CommandName>
    ensures { result ≡ order_named word.now }
{
    if word == b"PAINT".as_slice() {
        Some(CommandName::Paint)
    } else if word == b"CLEAR".as_slice() {
        Some(CommandName::Clear)
    } else if word == b"PUBLISH".as_slice() {
        Some(CommandName::Publish)
    } else if word == b"REVERT".as_slice() {
        Some(CommandName::Revert)
    } else if word == b"COLLECT".as_slice() {
        Some(CommandName::Collect)
    } else if word == b"CHECKPOINT".as_slice() {
        Some(CommandName::Checkpoint)
    } else {
        None
    }
}

/// The query of this name.
fn query_named(word: &[u8]) -> Option<QueryKind>
    ensures { result ≡ query_named word.now }
{
    if word == b"AT".as_slice() {
        Some(QueryKind::At)
    } else if word == b"RECT".as_slice() {
        Some(QueryKind::Rect)
    } else if word == b"PATH".as_slice() {
        Some(QueryKind::Path)
    } else if word == b"CLEAROF".as_slice() {
        Some(QueryKind::ClearOf)
    } else {
        None
    }
}
