//! What a search keeps of the obstacles that it meets.

ghost use Rattle.std.specs.Prelude.{◌≡◌, ℕ, ◌<◌, ◌≤◌, true};
ghost use Rattle.bits.specs.Cells.{Cells};
ghost use Rattle.clearance.specs.Search.{IsInRect};
ghost use Rattle.clearance.specs.Seekers.{Aim, AreObstacles, IsBeyond, IsGap, IsOnward};
ghost use Rattle.clearance.specs.Spots.{IsInWord};

use metric::{Cell, Metric, Rect};

/// What is kept of the obstacles that a search meets, and which of those left matter.
pub trait Seeker<M: Metric> {
    /// From where it looks, and what it keeps.
    ghost aim: { Aim Self };

    /// The cells from which it looks.
    fn rect(&self) -> Rect
        ensures rect { result ≡ aim.from self.now }
        ensures start { IsInRect (aim.from self.now) (aim.begins self.now).x
            (aim.begins self.now).y }
        ensures counts { aim.counts self.now result };

    /// The cell at which it begins.
    fn start(&self) -> Cell
        ensures start { result ≡ aim.begins self.now }
        ensures before { (aim.begins self.now).x < (aim.from self.now).x1 }
        ensures column { result.x < 4096 }
        ensures row { result.y < 4096 };

    /// Whether obstacles this far or farther, in columns from `x` on, and no fewer rows away, don't
    /// matter any more.
    fn is_far(&self, dist: u32, x: u16, gap: u16) -> bool
        requires { gap ≤ 4097 }
        ensures { result ≡ true → (a b : ℕ) → IsBeyond M.distance (aim.from self.now) dist x gap
            a b → aim.settles self.now a b };

    /// Meets the obstacles of a word of row `y`, which lies `gap` rows outside the rectangle, or
    /// outside one that it was before.
    fn meet(&mut self, word: u64, tile: u16, y: u16, gap: u16)
        requires tile { tile < 64 }
        requires row { y < 4096 }
        requires some { 0 < word }
        requires gap { IsGap aim.counts self.old y gap }
        ensures met { (a b : ℕ) → IsInWord tile y word a b → aim.settles self.new a b }
        ensures onward { (cells : Cells) → AreObstacles cells tile y word
            → IsOnward aim cells self.old self.new };
}
