//! A planner's questions about one version of a floor plan.

use crate::digest::Digest;
use crate::image::{Image, rooms};
use crate::random::Random;
use crate::script::Script;
use crate::served::{Turn, take_turns};
use crate::size::Size;
use std::alloc::Global;
use std::io;
use std::sync::Wait;

/// How many rounds are asked.
const ROUNDS: u32 = 20_000;

/// Asks a round: eight cells, two rectangles, and three questions about a path.
pub fn ask(script: &mut Script, random: &mut Random, image: &Image) -> io::Result<()> {
    script.cells(random)?;
    script.rect(random)?;
    script.rect(random)?;
    let count = random.between(10, 200);
    script.go(random, image, count)?;
    script.path(random)?;
    script.clear_of(random)?;
    Ok(script.clear_of(random)?)
}

/// Questions of one pin of a large floor plan.
pub fn run<R: Wait>(rt: &R, alloc: Global, size: Size, random: &mut Random) -> io::Result<u64> {
    let mut digest = Digest::new();
    let image = rooms(alloc, size.large, random)?;
    let mut script = Script::new(alloc, size.large);
    script.put(b"PIN\n")?;
    for _ in 0..size.count(ROUNDS) {
        ask(&mut script, random, &image)?;
    }
    script.put(b"UNPIN\nQUIT\n")?;
    let turn = Turn {
        session: 0,
        lines: script.text,
    };
    take_turns(rt, alloc, &image, &[turn], &mut digest)?;
    Ok(digest.value())
}
