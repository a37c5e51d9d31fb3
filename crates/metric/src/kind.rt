//! The metrics that a caller can choose from.

ghost use Rattle.std.specs.Prelude.{◌≡◌};
ghost use Rattle.metric.specs.Kind.{metric_named};

/// A distance between two cells `dx` columns and `dy` rows apart.
#[derive(Clone, Copy, Debug, PartialEq, Eq, Hash)]
pub enum MetricKind {
    /// `dx * dx + dy * dy`: the square of the Euclidean distance.
    Euclid2,
    /// `dx + dy`: steps to the four neighbours.
    City,
    /// `max(dx, dy)`: steps to the eight neighbours.
    Chess,
}

impl MetricKind {
    /// The metric of this name: `euclid2`, `city` or `chess`.
    pub fn named(name: &[u8]) -> Option<Self>
        ensures { result ≡ metric_named name.now }
    {
        if name == b"euclid2".as_slice() {
            Some(MetricKind::Euclid2)
        } else if name == b"city".as_slice() {
            Some(MetricKind::City)
        } else if name == b"chess".as_slice() {
            Some(MetricKind::Chess)
        } else {
            None
        }
    }
}
