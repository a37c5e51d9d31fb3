//! The queries of a pin, over the version that it holds and with the store's edge.

use crate::pinned::Pinned;
use bits::Bitmap;
use clearance::Queried;
use metric::{Cell, Metric, Near, Rect, Refusal};
use shelf::StoreName;
use std::alloc::Global;

impl<Id: StoreName> Queried for Pinned<Id> {
    ghost use Rattle.session.specs.Sessions.{bitmap_pinned};

    ghost cells = { λ p. bitmap_pinned Id.store p };

    ghost edge = { λ p. Id.store.base.setting.edge };

    fn at<M: Metric>(&mut self, _alloc: Global, cell: Cell) -> Result<Option<Near>, Refusal> {
        let edge = self.edge();
        if self.asks_bitmap() {
            clearance::at::<M, &Bitmap>(&mut self.bitmap(), edge, cell)
        } else {
            clearance::at::<M, Pinned<Id>>(self, edge, cell)
        }
    }

    fn least_in<M: Metric>(
        &mut self,
        _alloc: Global,
        rect: Rect,
    ) -> Result<Option<(Cell, Near)>, Refusal> {
        let edge = self.edge();
        if self.asks_bitmap() {
            clearance::least_in::<M, &Bitmap>(&mut self.bitmap(), edge, rect)
        } else {
            clearance::least_in::<M, Pinned<Id>>(self, edge, rect)
        }
    }

    fn along<M: Metric>(
        &mut self,
        _alloc: Global,
        points: &[Cell],
    ) -> Result<Option<(Cell, Near)>, Refusal> {
        let edge = self.edge();
        if self.asks_bitmap() {
            clearance::along::<M, &Bitmap>(&mut self.bitmap(), edge, points)
        } else {
            clearance::along::<M, Pinned<Id>>(self, edge, points)
        }
    }

    fn clear_of<M: Metric>(
        &mut self,
        _alloc: Global,
        points: &[Cell],
        d: u32,
    ) -> Result<Option<(Cell, Near)>, Refusal> {
        let edge = self.edge();
        if self.asks_bitmap() {
            clearance::clear_of::<M, &Bitmap>(&mut self.bitmap(), edge, points, d)
        } else {
            clearance::clear_of::<M, Pinned<Id>>(self, edge, points, d)
        }
    }
}
