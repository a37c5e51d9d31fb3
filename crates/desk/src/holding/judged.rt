//! Commands that have been judged.

use grid::Stroke;

/// What a command does that can only fail when out of memory for its entry. It is done before what
/// the desk holds changes otherwise.
#[derive(Clone, Copy)]
pub enum Judged<'a> {
    /// A paint or a stamp: what it draws, with enough free blocks for it.
    Draw(Stroke<'a>),
    Publish,
    Revert,
    Collect,
    Checkpoint,
}
