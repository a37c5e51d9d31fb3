//! Square maps of the shapes that users have, as raw images.

use crate::random::Random;
use std::alloc::{AllocError, Global};

/// One in fixed point.
const ONE: u64 = 1 << 16;

/// What is added to a coordinate in fixed point, so that it isn't negative.
const LIFT: u64 = 1 << 32;

/// A raw image of a square map.
#[derive(Drop)]
pub struct Image {
    pub side: u16,
    /// The header and the rows.
    pub bytes: Vec<u8>,
    /// Where the rows begin.
    start: usize,
}

/// A turn by some degrees: its cosine and its sine in fixed point.
#[derive(Clone, Copy)]
struct Turn {
    cos: u64,
    sin: u64,
}

impl Turn {
    /// A turn by 5 to 17 degrees.
    fn some(random: &mut Random) -> Turn {
        let half = u64::from(random.between(3_000, 10_000));
        let (whole, square) = (ONE.wrapping_mul(ONE), half.wrapping_mul(half));
        let sum = whole.wrapping_add(square);
        let cos = whole.wrapping_sub(square).wrapping_mul(ONE);
        let sin = half.wrapping_mul(2).wrapping_mul(ONE).wrapping_mul(ONE);
        Turn {
            cos: cos.checked_div(sum).unwrap_or(ONE),
            sin: sin.checked_div(sum).unwrap_or(0),
        }
    }
}

/// One of four directions.
#[derive(Clone, Copy)]
pub struct Way {
    /// Whether it goes along a row.
    pub across: bool,
    /// Whether it goes to the left, or up.
    pub back: bool,
}

impl Way {
    /// The cell this many steps ahead; a number that no cell has beyond the first column or row.
    fn ahead(self, x: u32, y: u32, steps: u32) -> (u32, u32) {
        let place = if self.across { x } else { y };
        let next = if self.back {
            place.wrapping_sub(steps)
        } else {
            place.wrapping_add(steps)
        };
        if self.across { (next, y) } else { (x, next) }
    }
}

/// A wall of a turned floor plan.
#[derive(Clone, Copy)]
struct Wall {
    turn: Turn,
    /// Whether it goes down.
    down: bool,
    /// How far from the corner it stands.
    place: u64,
    thick: u64,
}

impl Image {
    /// A map of this side without obstacles. The side is a multiple of 8.
    pub fn blank(alloc: Global, side: u16) -> Result<Image, AllocError> {
        let header = format!(in alloc; "P4\n{side} {side}\n")?;
        let mut bytes = Vec::new(alloc);
        bytes.extend_from_slice(header.as_bytes())?;
        let start = bytes.len();
        let cells = usize::from(side) * usize::from(side);
        bytes.resize(start.saturating_add(cells / 8), 0)?;
        Ok(Image { side, bytes, start })
    }

    /// The bytes of the rows.
    pub fn rows(&self) -> &[u8] {
        self.bytes.get(self.start..).unwrap_or_default()
    }

    /// Makes a cell an obstacle, if it is on the map.
    fn set(&mut self, x: u64, y: u64) {
        let side = u64::from(self.side);
        if x < side && y < side {
            let place = y.wrapping_mul(side).wrapping_add(x) / 8;
            let place = self.start.wrapping_add(place as usize);
            if let Some(byte) = self.bytes.get_mut(place) {
                *byte = *byte | (0x80 >> (x % 8));
            }
        }
    }

    /// Whether this is a cell of the map without an obstacle.
    fn is_free(&self, x: u32, y: u32) -> bool {
        let (side, x, y) = (u64::from(self.side), u64::from(x), u64::from(y));
        let place = y.wrapping_mul(side).wrapping_add(x) / 8;
        let byte = self.bytes.get(self.start.wrapping_add(place as usize));
        x < side && y < side && (byte.copied().unwrap_or(0xFF) << (x % 8)) & 0x80 == 0
    }

    /// Some cell without an obstacle, or any cell after many tries.
    pub fn some_free(&self, random: &mut Random) -> (u32, u32) {
        let side = u32::from(self.side);
        let (mut x, mut y) = (random.below(side), random.below(side));
        for _ in 0..50 {
            if self.is_free(x, y) {
                break;
            }
            (x, y) = (random.below(side), random.below(side));
        }
        (x, y)
    }

    /// The last cell of at most this many steps from a cell, such that an obstacle or the map's end
    /// isn't met within seven cells.
    pub fn walk(&self, from: (u32, u32), way: Way, steps: u32) -> (u32, u32) {
        let (mut x, mut y) = from;
        for _ in 0..steps {
            let (far_x, far_y) = way.ahead(x, y, 7);
            if !self.is_free(far_x, far_y) {
                break;
            }
            (x, y) = way.ahead(x, y, 1);
        }
        (x, y)
    }

    /// Makes the cells of a box obstacles.
    pub fn draw_box(&mut self, x: u32, y: u32, width: u32, height: u32) {
        for down in 0..height {
            for across in 0..width {
                let (x, y) = (x.saturating_add(across), y.saturating_add(down));
                self.set(u64::from(x), u64::from(y));
            }
        }
    }

    /// Makes a box somewhere obstacles: of 4 to 12 cells a side.
    pub fn draw_some_box(&mut self, random: &mut Random) {
        let side = u32::from(self.side);
        let (x, y) = (random.below(side), random.below(side));
        self.draw_box(x, y, random.between(4, 12), random.between(4, 12));
    }

    /// Draws a wall with its doors.
    fn draw_wall(&mut self, random: &mut Random, wall: Wall) {
        let side = u64::from(self.side);
        let (back, long) = (side / 3, side + side / 2);
        let (mut door, mut end) = (u64::from(random.between(20, 120)), 0u64);
        for along in 0..long {
            if along == door {
                end = along.wrapping_add(u64::from(random.between(8, 14)));
                door = end.wrapping_add(u64::from(random.between(40, 120)));
            }
            if end <= along {
                for deep in 0..wall.thick {
                    self.set_turned(wall, wall.place.wrapping_add(deep), along, back);
                }
            }
        }
    }

    /// Makes the cell at a point of a wall an obstacle.
    fn set_turned(&mut self, wall: Wall, far: u64, along: u64, back: u64) {
        let (u, v) = if wall.down {
            (far, along)
        } else {
            (along, far)
        };
        let Turn { cos, sin } = wall.turn;
        let v = v.wrapping_sub(back);
        let x = LIFT
            .wrapping_add(u.wrapping_mul(cos))
            .wrapping_sub(v.wrapping_mul(sin))
            >> 16;
        let y = LIFT
            .wrapping_add(u.wrapping_mul(sin))
            .wrapping_add(v.wrapping_mul(cos))
            >> 16;
        self.set(x.wrapping_sub(LIFT >> 16), y.wrapping_sub(LIFT >> 16));
    }

    /// Draws a floor plan that is turned by some degrees: rooms of 40 to 120 cells a side between
    /// walls of 1 to 3 cells with doors.
    pub fn draw_rooms(&mut self, random: &mut Random) {
        let turn = Turn::some(random);
        for down in [true, false] {
            let mut place = u64::from(random.between(0, 60));
            for _ in 0..200 {
                if u64::from(self.side) * 2 <= place {
                    break;
                }
                let thick = u64::from(random.between(1, 3));
                self.draw_wall(
                    random,
                    Wall {
                        turn,
                        down,
                        place,
                        thick,
                    },
                );
                place = place.wrapping_add(u64::from(random.between(40, 120)));
            }
        }
    }

    /// Draws a yard: some 60 obstacles of 2 to 24 cells a side.
    pub fn draw_yard(&mut self, random: &mut Random) {
        let side = u32::from(self.side);
        for _ in 0..60 {
            let (x, y) = (random.below(side), random.below(side));
            self.draw_box(x, y, random.between(2, 24), random.between(2, 24));
        }
    }

    /// Draws a wall from the left side to the right one, downwards.
    pub fn draw_diagonal(&mut self, random: &mut Random) {
        let side = u32::from(self.side);
        let top = u64::from(random.below(side / 8)) * ONE;
        let slope = u64::from(random.between(50_000, 60_000));
        for x in 0..side {
            let x = u64::from(x);
            let y = top.wrapping_add(x.wrapping_mul(slope)) >> 16;
            self.set(x, y);
            self.set(x, y.wrapping_add(1));
        }
    }

    /// Draws one cell in a thousand, at random.
    pub fn draw_few(&mut self, random: &mut Random) {
        let side = u32::from(self.side);
        for _ in 0..side * side / 1000 {
            let (x, y) = (random.below(side), random.below(side));
            self.set(u64::from(x), u64::from(y));
        }
    }
}

/// A turned floor plan of this side.
pub fn rooms(alloc: Global, side: u16, random: &mut Random) -> Result<Image, AllocError> {
    let mut image = Image::blank(alloc, side)?;
    image.draw_rooms(random);
    Ok(image)
}

/// A yard of this side.
pub fn yard(alloc: Global, side: u16, random: &mut Random) -> Result<Image, AllocError> {
    let mut image = Image::blank(alloc, side)?;
    image.draw_yard(random);
    Ok(image)
}

/// A diagonal wall alone.
pub fn diagonal(alloc: Global, side: u16, random: &mut Random) -> Result<Image, AllocError> {
    let mut image = Image::blank(alloc, side)?;
    image.draw_diagonal(random);
    Ok(image)
}

/// One obstacle in a thousand cells.
pub fn few(alloc: Global, side: u16, random: &mut Random) -> Result<Image, AllocError> {
    let mut image = Image::blank(alloc, side)?;
    image.draw_few(random);
    Ok(image)
}
