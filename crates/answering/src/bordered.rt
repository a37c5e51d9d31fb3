//! A bitmap as queries are put to it.

ghost use Rattle.std.specs.Prelude.{◌≡◌};

use bits::Bitmap;
use clearance::Queried;
use metric::{Cell, Edge, Metric, Near, Rect, Refusal};
use std::alloc::Global;

/// A bitmap with its edge.
#[derive(Clone, Copy)]
pub struct Bordered<'a> {
    pub bitmap: &'a Bitmap,
    pub edge: Edge,
}

impl<'a> Queried for Bordered<'a> {
    ghost cells = { λ map. map.bitmap.now };

    ghost edge = { λ map. map.edge };

    fn at<M: Metric>(&mut self, _alloc: Global, cell: Cell) -> Result<Option<Near>, Refusal> {
        clearance::at::<M, &Bitmap>(&mut self.bitmap, self.edge, cell)
    }

    fn least_in<M: Metric>(
        &mut self,
        _alloc: Global,
        rect: Rect,
    ) -> Result<Option<(Cell, Near)>, Refusal> {
        clearance::least_in::<M, &Bitmap>(&mut self.bitmap, self.edge, rect)
    }

    fn along<M: Metric>(
        &mut self,
        _alloc: Global,
        points: &[Cell],
    ) -> Result<Option<(Cell, Near)>, Refusal> {
        clearance::along::<M, &Bitmap>(&mut self.bitmap, self.edge, points)
    }

    fn clear_of<M: Metric>(
        &mut self,
        _alloc: Global,
        points: &[Cell],
        d: u32,
    ) -> Result<Option<(Cell, Near)>, Refusal> {
        clearance::clear_of::<M, &Bitmap>(&mut self.bitmap, self.edge, points, d)
    }
}
