//! Lines that a client sends.

ghost use Rattle.std.specs.Prelude.{◌<◌};

use crate::image::{Image, Way};
use crate::random::Random;
use std::alloc::{AllocError, Global};

/// The metrics, mostly the square of the straight distance.
const METRICS: [&[u8]; 8] = [
    b" euclid2",
    b" euclid2",
    b" euclid2",
    b" euclid2",
    b" euclid2",
    b" euclid2",
    b" city",
    b" chess",
];

/// The lines so far, for a map of this side.
#[derive(Drop)]
pub struct Script {
    pub text: Vec<u8>,
    pub side: u32,
    /// The points of the last path.
    way: Vec<u8>,
}

impl Script {
    /// No lines yet.
    pub fn new(alloc: Global, side: u16) -> Script {
        Script {
            text: Vec::new(alloc),
            side: u32::from(side),
            way: Vec::new(alloc),
        }
    }

    /// Adds bytes.
    pub fn put(&mut self, bytes: &[u8]) -> Result<(), AllocError> {
        self.text.extend_from_slice(bytes)
    }

    /// Adds a blank and a number of at most six digits.
    pub fn number(&mut self, number: u32) -> Result<(), AllocError> {
        push_number(&mut self.text, number)
    }

    /// Adds a blank and some metric.
    fn metric(&mut self, random: &mut Random) -> Result<(), AllocError> {
        let place = random.below(8) as usize;
        self.put(METRICS.get(place).copied().unwrap_or(b" chess"))
    }

    /// Asks for the distance of a cell.
    pub fn at(&mut self, random: &mut Random, x: u32, y: u32) -> Result<(), AllocError> {
        self.put(b"AT")?;
        self.metric(random)?;
        self.number(x.min(self.side.saturating_sub(1)))?;
        self.number(y.min(self.side.saturating_sub(1)))?;
        self.put(b"\n")
    }

    /// Asks for the least distance of a rectangle of 8 to 64 cells a side.
    pub fn rect(&mut self, random: &mut Random) -> Result<(), AllocError> {
        let (width, height) = (random.between(8, 64), random.between(8, 64));
        let x = random.below(self.side.saturating_sub(width));
        let y = random.below(self.side.saturating_sub(height));
        self.put(b"RECT")?;
        self.metric(random)?;
        self.number(x)?;
        self.number(y)?;
        self.number(x.saturating_add(width))?;
        self.number(y.saturating_add(height))?;
        self.put(b"\n")
    }

    /// Makes a path of this many points between obstacles, each at most 24 cells from the last.
    pub fn go(&mut self, random: &mut Random, map: &Image, count: u32) -> Result<(), AllocError> {
        self.way.clear();
        let mut at = map.some_free(random);
        let mut back = [random.below(2) == 0, random.below(2) == 0];
        for turn in 0..count {
            let across = turn % 2 == 0;
            let [mut along, mut down] = back;
            let way = Way {
                across,
                back: if across { along } else { down },
            };
            let next = map.walk(at, way, random.between(1, 24));
            if next == at || random.below(8) == 0 {
                (along, down) = (along != across, down == across);
                back = [along, down];
            }
            at = next;
            push_number(&mut self.way, at.0)?;
            push_number(&mut self.way, at.1)?;
        }
        Ok(())
    }

    /// Asks for the least distance along the last path.
    pub fn path(&mut self, random: &mut Random) -> Result<(), AllocError> {
        self.put(b"PATH")?;
        self.metric(random)?;
        self.text.extend_from_slice(self.way.as_slice())?;
        self.put(b"\n")
    }

    /// Asks whether the last path keeps a distance.
    pub fn clear_of(&mut self, random: &mut Random) -> Result<(), AllocError> {
        self.put(b"CLEAROF euclid2")?;
        self.number(random.between(36, 400))?;
        self.text.extend_from_slice(self.way.as_slice())?;
        self.put(b"\n")
    }

    /// Asks for the distances of eight cells, one near the other.
    pub fn cells(&mut self, random: &mut Random) -> Result<(), AllocError> {
        let (mut x, mut y) = (random.below(self.side), random.below(self.side));
        for _ in 0..8 {
            self.at(random, x, y)?;
            x = x.saturating_add(random.below(12));
            y = y.saturating_add(random.below(12)).saturating_sub(5);
        }
        Ok(())
    }
}

/// Adds a blank and a number of at most six digits to a text.
fn push_number(text: &mut Vec<u8>, number: u32) -> Result<(), AllocError> {
    let mut digits = [b'0'; 7];
    let mut left = number;
    for place in 0..6usize {
        digits[6 - place] = b'0' + (left % 10) as u8;
        left /= 10;
    }
    let start = blank_of(number);
    digits[start] = b' ';
    text.extend_from_slice(&digits[start..])
}

/// Where the blank stands before the digits of a number, of seven places.
fn blank_of(number: u32) -> usize
    ensures { result < 6 }
{
    match number {
        0..=9 => 5,
        10..=99 => 4,
        100..=999 => 3,
        1000..=9999 => 2,
        10_000..=99_999 => 1,
        _ => 0,
    }
}
