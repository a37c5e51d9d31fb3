//! Laws of hits: what they mean for points and rectangles, and that any corner may be the first.

ghost use Rattle.std.specs.Prelude.{◌<◌, ◌↔◌, ◌++◌, ◌∷◌, [], ℕ, ℤ, List};
ghost use Rattle.metric.specs.declared.edge.Edge.{Edge};
ghost use Rattle.bits.specs.Cells.{Cells};
ghost use Rattle.footprint.specs.Points.{HasObstacleIn, IsInPolygon, IsInSquare, ring_of_rect};
ghost use Rattle.footprint.specs.Polygon.{HasHit, Hits, Meets};
ghost use Rattle.footprint.specs.declared.corner.Corner.{Corner};

/// A polygon meets each square that it shares a point with, inside both. So where it hits nothing,
/// it and the obstacles share none.
pub fn shared_points_meet()
    ensures { (ring : List Corner) (x y : ℤ) (q : ℕ) (px py : ℤ) → 0 < q
        → IsInPolygon ring q px py → IsInSquare x y q px py → Meets ring x y }
{}

/// A rectangle of whole cells hits the obstacles in it, and no other.
pub fn rectangles_hit_their_cells()
    ensures { (cells : Cells) (x0 y0 x1 y1 : ℕ) → x0 < x1 → y0 < y1
        → HasHit cells (ring_of_rect x0 y0 x1 y1) ↔ HasObstacleIn cells x0 y0 x1 y1 }
{}

/// The corner that a ring starts at makes no difference.
pub fn each_corner_may_be_first()
    ensures { (cells : Cells) (edge : Edge) (first : Corner) (rest : List Corner)
        → Hits cells edge (first ∷ rest) ↔ Hits cells edge (rest ++ first ∷ []) }
{}
