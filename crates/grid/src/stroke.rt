//! A paint or a stamp that has been judged.

use crate::ink::Ink;
use metric::Rect;

/// A paint or a stamp that has been judged: what it draws, which is within the map, and has the
/// free blocks that it takes. `Grid::draw` draws it, before the grid and its arena change
/// otherwise.
#[derive(Clone, Copy)]
pub struct Stroke<'a> {
    pub(crate) rect: Rect,
    pub(crate) ink: Ink<'a>,
}
