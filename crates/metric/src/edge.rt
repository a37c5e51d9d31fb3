//! What surrounds a map.

ghost use Rattle.std.specs.Prelude.{◌≡◌, ◌≤◌};
ghost use Rattle.metric.specs.Edge.{edge_named, shift, spot_of};

use crate::limits::LAST_FRAMED;
use crate::spot::Spot;

/// What surrounds a map.
#[derive(Clone, Copy, Debug, PartialEq, Eq, Hash)]
pub enum Edge {
    /// Nothing: only cells of the map are obstacles.
    Open,
    /// A wall: each cell of the frame around the map is an obstacle too.
    Wall,
}

impl Edge {
    /// The edge of this name: `open` or `wall`.
    pub fn named(name: &[u8]) -> Option<Self>
        ensures { result ≡ edge_named name.now }
    {
        if name == b"open".as_slice() {
            Some(Edge::Open)
        } else if name == b"wall".as_slice() {
            Some(Edge::Wall)
        } else {
            None
        }
    }

    /// By how many columns and rows a cell shifts when the frame counts too: 0 for an open edge, 1
    /// for a wall.
    #[inline(always)]
    pub fn shift(self) -> u16
        ensures { result ≡ shift self }
    {
        match self {
            Edge::Open => 0,
            Edge::Wall => 1,
        }
    }

    /// The spot of a cell whose column and row, at most 4097, count the frame too.
    #[inline(always)]
    pub fn spot(self, column: u16, row: u16) -> Spot
        requires column { column ≤ LAST_FRAMED }
        requires row { row ≤ LAST_FRAMED }
        ensures { result ≡ spot_of self column row }
    {
        match self {
            Edge::Open => Spot {
                x: column as i16,
                y: row as i16,
            },
            Edge::Wall => Spot {
                x: column as i16 - 1,
                y: row as i16 - 1,
            },
        }
    }
}
