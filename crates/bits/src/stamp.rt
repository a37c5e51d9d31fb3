//! Lays one bitmap on another.

ghost use Rattle.std.specs.Prelude.{◌≡◌, ◌+◌, ◌≤◌};
ghost use Rattle.bits.specs.Cells.{with_stamp, IsBitmap};
ghost use Rattle.bits.specs.Changes.{changes};

use crate::bitmap::Bitmap;
use metric::Cell;

impl Bitmap {
    /// Sets each cell of the rectangle at `(x, y)`, of the stamp's size, to the stamp's value,
    /// obstacle or not, and returns how many cells changed.
    #[tactic(auto, using(crate::proofs::FillLemmas::filling))]
    pub fn stamp(&mut self, x: u16, y: u16, stamp: &Bitmap) -> u32
        requires columns { x + stamp.now.width ≤ self.old.width }
        requires rows { y + stamp.now.height ≤ self.old.height }
        ensures stamped { self.new ≡ with_stamp self.old x y stamp.now }
        ensures changed { result ≡ changes self.old self.new }
        ensures bitmap { IsBitmap self.new }
    {
        let (width, height) = (self.width(), self.height());
        let (right, bottom) = (x + stamp.width(), y + stamp.height());
        let holds = right <= width && bottom <= height;
        prove!(holds);
        let mut changed = 0;
        'rows: for row in y..bottom {
            'columns: for column in x..right {
                let cell = Cell { x: column, y: row };
                let black = stamp.get(Cell {
                    x: column - x,
                    y: row - y,
                });
                if self.get(cell) != black {
                    changed += 1;
                    self.set(cell, black);
                }
            }
        }
        changed
    }
}
