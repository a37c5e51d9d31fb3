//! A sensor's cycles: a painter draws, publishes and collects, and planners pin the new version
//! and ask a few questions.

use crate::digest::Digest;
use crate::image::{Image, rooms, yard};
use crate::questions::ask;
use crate::random::Random;
use crate::script::Script;
use crate::served::{Turn, take_turns};
use crate::size::Size;
use std::alloc::{AllocError, Global};
use std::io;
use std::sync::Wait;

/// Cells a side of a stamp.
const STAMP: u32 = 200;

/// Stamps what a sensor saw: an image of 200 by 200 cells with a few obstacles.
fn stamp(script: &mut Script, random: &mut Random) -> Result<(), AllocError> {
    let most = script.side.saturating_sub(STAMP);
    script.put(b"STAMP")?;
    script.number(random.below(most.saturating_add(1)))?;
    script.number(random.below(most.saturating_add(1)))?;
    script.number(5011)?;
    script.put(b"\nP4\n200 200\n")?;
    let start = script.text.len();
    script.text.resize(start.saturating_add(5000), 0)?;
    for _ in 0..40 {
        let place = start.saturating_add(random.below(5000) as usize);
        if let Some(byte) = script.text.get_mut(place) {
            *byte = 0xFF;
        }
    }
    Ok(())
}

/// Paints 10 to 60 boxes of 8 by 8 cells, every third of them free.
fn boxes(script: &mut Script, random: &mut Random) -> Result<(), AllocError> {
    for turn in 0..random.between(10, 60) {
        let most = script.side.saturating_sub(8);
        let (x, y) = (random.below(most), random.below(most));
        script.put(if turn % 3 == 2 { b"CLEAR" } else { b"PAINT" })?;
        script.number(x)?;
        script.number(y)?;
        script.number(x.saturating_add(8))?;
        script.number(y.saturating_add(8))?;
        script.put(b"\n")?;
    }
    Ok(())
}

/// A painter's cycle.
fn paint(alloc: Global, side: u16, random: &mut Random) -> io::Result<Turn> {
    let mut script = Script::new(alloc, side);
    if 200 <= side && random.below(2) == 0 {
        stamp(&mut script, random)?;
    } else {
        boxes(&mut script, random)?;
    }
    script.put(b"PUBLISH\nCOLLECT\n")?;
    Ok(Turn {
        session: 0,
        lines: script.text,
    })
}

/// A planner's cycle: a pin, its questions, and the end of the stream, at which it unpins.
fn plan(alloc: Global, image: &Image, session: usize, random: &mut Random) -> io::Result<Turn> {
    let mut script = Script::new(alloc, image.side);
    script.put(b"PIN\n")?;
    if random.below(8) == 0 {
        for _ in 0..15 {
            ask(&mut script, random, image)?;
        }
    } else {
        let (x, y) = (random.below(script.side), random.below(script.side));
        for step in 0..random.between(4, 12) {
            let far = step.saturating_mul(3);
            script.at(random, x.saturating_add(far), y.saturating_add(far))?;
        }
    }
    script.put(b"UNPIN\n")?;
    Ok(Turn {
        session,
        lines: script.text,
    })
}

/// This many cycles on a map, each of a painter and three planners.
fn cycle<R: Wait>(
    rt: &R,
    alloc: Global,
    image: &Image,
    count: u32,
    random: &mut Random,
    digest: &mut Digest,
) -> io::Result<()> {
    let mut turns = Vec::new(alloc);
    for _ in 0..count {
        turns.push(paint(alloc, image.side, random)?)?;
        for session in 1..4 {
            turns.push(plan(alloc, image, session, random)?)?;
        }
    }
    take_turns(rt, alloc, image, turns.as_slice(), digest)
}

/// Cycles on a large floor plan, a yard, and small floor plans.
pub fn run<R: Wait>(rt: &R, alloc: Global, size: Size, random: &mut Random) -> io::Result<u64> {
    let mut digest = Digest::new();
    let image = rooms(alloc, size.large, random)?;
    cycle(rt, alloc, &image, size.count(800), random, &mut digest)?;
    let image = yard(alloc, size.large, random)?;
    cycle(rt, alloc, &image, size.count(250), random, &mut digest)?;
    let image = rooms(alloc, size.small, random)?;
    cycle(rt, alloc, &image, size.count(1000), random, &mut digest)?;
    Ok(digest.value())
}
