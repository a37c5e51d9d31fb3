//! Filling a rectangle of a bitmap.

ghost use Rattle.std.specs.Prelude.{◌≡◌, ◌≤◌};
ghost use Rattle.bits.specs.Cells.{with_rect, IsBitmap};
ghost use Rattle.bits.specs.Changes.{changes};

use crate::bitmap::Bitmap;
use metric::{Cell, Rect};

impl Bitmap {
    /// Sets each cell of the rectangle to this value, and returns how many cells changed.
    #[tactic(auto, using(crate::proofs::FillLemmas::filling))]
    pub fn fill(&mut self, rect: Rect, black: bool) -> u32
        requires columns { rect.x1 ≤ self.old.width }
        requires rows { rect.y1 ≤ self.old.height }
        ensures filled { self.new ≡ with_rect self.old rect.x0 rect.y0 rect.x1 rect.y1 black }
        ensures changed { result ≡ changes self.old self.new }
        ensures bitmap { IsBitmap self.new }
    {
        let holds = self.holds_rect(rect);
        prove!(holds);
        let mut changed = 0;
        'rows: for y in rect.y0..rect.y1 {
            'columns: for x in rect.x0..rect.x1 {
                let cell = Cell { x, y };
                if self.get(cell) != black {
                    changed += 1;
                    self.set(cell, black);
                }
            }
        }
        changed
    }
}
