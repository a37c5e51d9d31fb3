//! The edge of a map as a type, so that no cell tests it.

ghost use Rattle.metric.specs.declared.edge.Edge.{Edge};

use metric::Edge;

/// The edge of a map, known at compile time.
pub trait Border {
    ghost EDGE: { Edge };

    /// The edge as a value.
    const EDGE: Edge;
}

/// An open edge.
pub struct Open;

impl Border for Open {
    ghost EDGE = { Edge.Open };

    const EDGE: Edge = Edge::Open;
}

/// A wall.
pub struct Walled;

impl Border for Walled {
    ghost EDGE = { Edge.Wall };

    const EDGE: Edge = Edge::Wall;
}
