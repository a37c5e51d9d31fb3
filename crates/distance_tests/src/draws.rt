//! Maps, rectangles and paths that look random and are the same in each run.

ghost use Rattle.std.specs.Prelude.{◌<◌, ◌≤◌};
ghost use Rattle.bits.specs.Cells.{IsSide};

use bits::Bitmap;
use metric::{Cell, Edge, NoMemory, Rect};
use std::alloc::{AllocError, Global};

/// Numbers that look random, the same in each run.
#[derive(Drop)]
pub struct Draws {
    state: u64,
}

impl Draws {
    /// The numbers that start from this one.
    pub fn new(state: u64) -> Self {
        Draws { state }
    }

    /// A number below `end`.
    pub fn below(&mut self, end: u64) -> u64
        requires { 0 < end }
        ensures { result < end }
    {
        self.state = self.state ^ self.state.wrapping_shl(13);
        self.state = self.state ^ (self.state >> 7);
        self.state = self.state ^ self.state.wrapping_shl(17);
        (self.state >> 16) % end
    }

    /// A side of a map, from 1 to `most` cells.
    pub fn side(&mut self, most: u16) -> u16
        requires some { 1 ≤ most }
        requires few { most ≤ 4096 }
        ensures some { 1 ≤ result }
        ensures few { result ≤ 4096 }
    {
        self.below(u64::from(most)) as u16 + 1
    }

    /// One of these numbers, or 1 where there is none.
    pub fn one_of(&mut self, numbers: &[u16]) -> u16 {
        if numbers.is_empty() {
            return 1;
        }
        let place = self.below(numbers.len() as u64) as usize;
        numbers.get(place).copied().unwrap_or(1)
    }

    /// An open edge or a wall.
    pub fn edge(&mut self) -> Edge {
        if self.below(2) == 0 {
            Edge::Open
        } else {
            Edge::Wall
        }
    }

    /// A map of this size, each of whose cells is an obstacle with a chance of one in `rare`.
    pub fn map(
        &mut self,
        alloc: Global,
        width: u16,
        height: u16,
        rare: u64,
    ) -> Result<Bitmap, NoMemory>
        requires width { IsSide width }
        requires height { IsSide height }
        requires rare { 0 < rare }
    {
        let mut bitmap = Bitmap::blank(alloc, width, height)?;
        for y in 0..height {
            for x in 0..width {
                let cell = Cell { x, y };
                if self.below(rare) == 0 && bitmap.holds(cell) {
                    bitmap.set(cell, true);
                }
            }
        }
        Ok(bitmap)
    }

    /// A coordinate below a map's side: one end, the other, or any.
    fn coordinate(&mut self, side: u16) -> u16 {
        match self.below(6) {
            0 => 0,
            1 => side.saturating_sub(1),
            _ => self.below(u64::from(side.max(1))) as u16,
        }
    }

    /// A cell of the map.
    pub fn cell(&mut self, bitmap: &Bitmap) -> Cell {
        Cell {
            x: self.coordinate(bitmap.width()),
            y: self.coordinate(bitmap.height()),
        }
    }

    /// A rectangle of the map's cells.
    pub fn rect(&mut self, bitmap: &Bitmap) -> Option<Rect> {
        let (one, other) = (self.cell(bitmap), self.cell(bitmap));
        let right = one.x.max(other.x).saturating_add(1);
        let bottom = one.y.max(other.y).saturating_add(1);
        Rect::new(one.x.min(other.x), one.y.min(other.y), right, bottom)
    }

    /// A path of this many points on the map: each next one is in the row or the column of the
    /// point before it, or repeats it.
    pub fn path(
        &mut self,
        alloc: Global,
        bitmap: &Bitmap,
        count: u64,
    ) -> Result<Vec<Cell>, AllocError> {
        let mut points = Vec::new(alloc);
        let mut point = self.cell(bitmap);
        for _ in 0..count {
            points.push(point)?;
            let other = self.cell(bitmap);
            match self.below(5) {
                0 => {}
                1 | 2 => point.x = other.x,
                _ => point.y = other.y,
            }
        }
        Ok(points)
    }
}
